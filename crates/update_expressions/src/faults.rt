//! What refuses a SET list.

ghost use Rattle.std.specs.Prelude.{◌≡◌, ◌<◌, ◌^◌, length, nat_eq, option_map, slice_get};
ghost use Rattle.std.specs.List.{list_any};
ghost use Rattle.sql_base.specs.Rows.{kinds};
ghost use Rattle.sql_base.specs.declared.statements.Assign.{Assign};
ghost use Rattle.predicate_runner.specs.Outlines.{kind_in};
ghost use Rattle.update_expressions.specs.Refusing.{set_fault, misfit};

use predicate_runner::{ExprKind, kind_of};
use sql_base::{Assign, ColumnKind, NoMemory, TableDef};

/// Why a SET list isn't one of the table. Places count the assignments from 0.
#[derive(Clone, Copy, Debug, PartialEq, Eq)]
pub enum SetFault {
    /// The table has no such column.
    UnknownColumn { place: u32 },
    /// The column is one of the key.
    KeyColumn { place: u32 },
    /// An assignment before it sets the same column.
    Twice { place: u32 },
    /// The column can't hold values of this kind.
    WrongType { place: u32 },
    /// The text is longer than its column.
    TextTooLong { place: u32 },
    NoMemory,
}

impl From<NoMemory> for SetFault {
    ghost use Rattle.update_expressions.specs.declared.faults.SetFault.TheVariants.{NoMemory};

    ghost from_gives = { λ _ fault. fault ≡ NoMemory };

    fn from(_error: NoMemory) -> SetFault {
        SetFault::NoMemory
    }
}

/// The first of the five faults that an assignment behind others has.
pub fn fault_of(before: &[Assign], set: &Assign, table: &TableDef) -> Option<SetFault>
    requires few { length before.now < 2 ^ 32 }
    ensures { result ≡ set_fault table.now before.now set.now }
{
    let place = before.len() as u32;
    let Some(column) = column_kind(table, set.column) else {
        return Some(SetFault::UnknownColumn { place });
    };
    if is_key_column(table, set.column) {
        return Some(SetFault::KeyColumn { place });
    }
    if is_set(before, set.column) {
        return Some(SetFault::Twice { place });
    }
    misfit(place, column, kind_of(&set.value, table))
}

/// The kind of a column, or none where the table has no such column.
pub fn column_kind(table: &TableDef, column: u8) -> Option<ColumnKind>
    ensures { result ≡ slice_get (kinds table.now) column }
{
    match table.columns.items().get(column as usize) {
        Some(column) => Some(column.kind),
        None => None,
    }
}

pub fn is_key_column(table: &TableDef, column: u8) -> bool
    ensures { result ≡ list_any (nat_eq column) table.now.key }
{
    table.key.items().contains(&column)
}

fn is_set(sets: &[Assign], column: u8) -> bool
    ensures { result ≡ list_any (λ (set : Assign). nat_eq set.column column) sets.now }
{
    sets.iter().any(|set| set.column == column)
}

// What keeps values of the kind out of the column.
fn misfit(place: u32, column: ColumnKind, kind: Option<ExprKind>) -> Option<SetFault>
    ensures { result ≡ misfit place column (option_map kind_in kind) }
{
    match column {
        ColumnKind::Int => match kind {
            Some(ExprKind::Number) => None,
            Some(ExprKind::Text(_width)) => Some(SetFault::WrongType { place }),
            Some(ExprKind::Truth) => Some(SetFault::WrongType { place }),
            None => Some(SetFault::WrongType { place }),
        },
        ColumnKind::Char(room) => match kind {
            Some(ExprKind::Text(width)) => {
                if room < width {
                    Some(SetFault::TextTooLong { place })
                } else {
                    None
                }
            }
            Some(ExprKind::Number) => Some(SetFault::WrongType { place }),
            Some(ExprKind::Truth) => Some(SetFault::WrongType { place }),
            None => Some(SetFault::WrongType { place }),
        },
    }
}
