//! Names of tables and columns.
ghost use Rattle.std.specs.Prelude.{◌≡◌};
ghost use Rattle.statement_draft.specs.Names.{is_long, is_wide, column_named, table_named};

use sql_base::{Column, Name, TableDef};

const NAME_LIMIT: usize = 30;

const WIDE: u64 = 9_223_372_036_854_775_808;

pub fn is_long(name: &Name) -> bool
    ensures { result ≡ is_long name.now }
{
    name.bytes().len() > NAME_LIMIT
}

pub fn is_wide(number: u64) -> bool
    ensures { result ≡ is_wide number }
{
    number == WIDE
}

/// The place of the first column of this name.
#[tactic(auto, unfolding(crate::specs::Names::column_from))]
pub fn column_named(columns: &[Column], name: &Name) -> Option<u8>
    ensures { result ≡ column_named columns.now name.now }
{
    let mut at: u8 = 0;
    for column in columns {
        if at >= 32 {
            return None;
        }
        if column.name.bytes() == name.bytes() {
            return Some(at);
        }
        at += 1;
    }
    None
}

/// The place of the first table of this name.
#[tactic(auto, unfolding(crate::specs::Names::table_from))]
pub fn table_named(tables: &[TableDef], name: &Name) -> Option<u8>
    ensures { result ≡ table_named tables.now name.now }
{
    let mut at: u8 = 0;
    for table in tables {
        if at >= 4 {
            return None;
        }
        if table.name.bytes() == name.bytes() {
            return Some(at);
        }
        at += 1;
    }
    None
}
