//! The records of the tables, by the rows that their partitions have at the end.
ghost use Rattle.std.specs.Prelude.{◌≡◌, ◌++◌, IfOk, OnOk};
ghost use Rattle.record_text.specs.Scaffold.Reading.{rows_joined, tables_read};

use sql_base::{List, NoMemory, Row, TableDef};
use std::alloc::Global;

fn row_copy(row: &Row) -> Result<Row, NoMemory>
    ensures { IfOk result (λ copy. copy ≡ row.now) }
{
    Ok(row.clone()?)
}

fn push_rows(rows: &mut List<Row>, more: &[Row]) -> Result<(), NoMemory>
    ensures { OnOk result (rows.new ≡ rows.old ++ more.now) }
{
    for row in more {
        rows.push(row_copy(row)?)?;
    }
    Ok(())
}

// The rows of some partitions, one after the other.
fn rows_joined(alloc: Global, parts: &[List<Row>]) -> Result<List<Row>, NoMemory>
    ensures { IfOk result (λ rows. rows ≡ rows_joined parts.now) }
{
    let mut rows = List::new(alloc);
    for part in parts {
        push_rows(&mut rows, part.items())?;
    }
    Ok(rows)
}

/// The rows of each table.
pub(crate) fn tables_read(
    alloc: Global,
    tables: &[TableDef],
    parts: &[List<Row>],
) -> Result<List<List<Row>>, NoMemory>
    ensures { IfOk result (λ read. read ≡ tables_read tables.now parts.now) }
{
    let mut read = List::new(alloc);
    let mut rest = parts;
    for table in tables {
        let firsts = table.firsts.items();
        let count = if firsts.len() < rest.len() {
            firsts.len() + 1
        } else {
            rest.len()
        };
        let (own, behind) = rest.split_at(count);
        read.push(rows_joined(alloc, own)?)?;
        rest = behind;
    }
    Ok(read)
}
