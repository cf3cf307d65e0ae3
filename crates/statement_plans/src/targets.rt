//! The table of a statement, and its first partition.
ghost use Rattle.std.specs.Prelude.{◌≡◌, ◌≤◌, length, take};
ghost use Rattle.sql_base.specs.Scripts.{parts_of};
ghost use Rattle.sql_base.specs.Tables.{table_of};

use sql_base::{Statement, TableDef};

/// The place of the table among those of the script.
pub(crate) fn table_of(statement: &Statement) -> u8
    ensures { result ≡ table_of statement.now }
{
    match statement {
        Statement::Select { table, .. }
        | Statement::Update { table, .. }
        | Statement::Delete { table, .. }
        | Statement::Insert { table, .. }
        | Statement::LockTable { table, .. } => *table,
    }
}

/// How many partitions the tables before a place have together.
pub(crate) fn first_part(tables: &[TableDef], place: usize) -> u32
    requires place { place ≤ length tables.now }
    requires few { parts_of tables.now ≤ 16 }
    ensures { result ≡ parts_of (take place tables.now) }
{
    let mut parts = 0;
    for at in 0..place {
        parts += tables[at].firsts.items().len() as u32 + 1;
    }
    parts
}
