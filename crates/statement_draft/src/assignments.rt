//! The assignments of an UPDATE, as their words come.
ghost use Rattle.std.specs.Prelude.{◌≡◌, ◌+◌, OnOk, List};
ghost use Rattle.statement_draft.specs.Names.{column_named};
ghost use Rattle.statement_draft.specs.Expressions.{bytes_up};
ghost use Rattle.statement_draft.specs.StatementEvents.{sets_begin, statement_table, set_found, column_set, set_came, set_fault, set_kind, with_assign, assign_ends, sets_end};

use crate::draft::Draft;
use crate::expressions::expression_ends;
use crate::faults::{Fault, Reason, noted, noted_as};
use crate::kinds::Kind;
use crate::names::{column_named, is_long};
use crate::tables::contains;
use sql_base::{Assign, ColumnKind, Expr, List, Name, NoMemory, TableDef};
use std::alloc::Global;

pub fn sets_begin(at: u32, draft: &mut Draft)
    ensures { draft.new ≡ sets_begin at draft.old }
{
    draft.statement.sets_at = at;
}

/// The first fault, with that of a column that is set, and the column.
fn set_judged(
    table: &TableDef,
    name: &Name,
    at: u32,
    columns: &[u8],
    first: Option<Fault>,
) -> (Option<u8>, Option<Fault>)
    ensures { (result.0, result.1) ≡ set_found table.now (column_named table.now.columns name.now) at columns.now first }
{
    match column_named(table.columns.items(), name) {
        Some(place) => {
            let again = contains(columns, place);
            let first = noted(again, Reason::Repeated, at, first);
            let key = contains(table.key.items(), place);
            (Some(place), noted(key, Reason::WrongType, at, first))
        }
        None => (None, noted(true, Reason::UnknownName, at, first)),
    }
}

/// The column that is set, and the first fault; nothing is judged of an unknown table.
fn set_found(
    draft: &Draft,
    name: &Name,
    at: u32,
    first: Option<Fault>,
) -> (Option<u8>, Option<Fault>)
    ensures { (result.0, result.1) ≡ column_set (statement_table draft.now) name.now at draft.now.statement.columns first }
{
    let Some(place) = draft.statement.table else {
        return (None, first);
    };
    let Some(table) = draft.tables.items().get(place as usize) else {
        return (None, first);
    };
    set_judged(table, name, at, draft.statement.columns.items(), first)
}

pub fn set_came(name: &Name, at: u32, draft: &mut Draft) -> Result<(), NoMemory>
    ensures { OnOk result (draft.new ≡ set_came name.now at draft.old) }
{
    let first = noted(is_long(name), Reason::OverLimit, at, draft.first);
    let (column, first) = set_found(draft, name, at, first);
    draft.first = first;
    draft.statement.column = column;
    draft.statement.column_at = at;
    if let Some(place) = column {
        draft.statement.columns.push(place)?;
    }
    Ok(())
}

fn set_fault(column: Option<ColumnKind>, kind: Option<Kind>) -> Option<Reason>
    ensures { result ≡ set_fault column kind }
{
    match (column, kind) {
        (Some(ColumnKind::Int), Some(Kind::Number)) => None,
        (Some(ColumnKind::Int), Some(Kind::Text(_))) => Some(Reason::WrongType),
        (Some(ColumnKind::Int), Some(Kind::Truth)) => Some(Reason::WrongType),
        (Some(ColumnKind::Char(_)), Some(Kind::Number)) => Some(Reason::WrongType),
        (Some(ColumnKind::Char(_)), Some(Kind::Truth)) => Some(Reason::WrongType),
        (Some(ColumnKind::Char(width)), Some(Kind::Text(len))) => {
            if (width as usize) < len {
                Some(Reason::TextTooLong)
            } else {
                None
            }
        }
        (Some(_), None) => None,
        (None, _) => None,
    }
}

/// The kind of the column that is set.
fn set_kind(draft: &Draft) -> Option<ColumnKind>
    ensures { result ≡ set_kind draft.now }
{
    let Some(column) = draft.statement.column else {
        return None;
    };
    let Some(place) = draft.statement.table else {
        return None;
    };
    let Some(table) = draft.tables.items().get(place as usize) else {
        return None;
    };
    match table.columns.items().get(column as usize) {
        Some(column) => Some(column.kind),
        None => None,
    }
}

fn assigned(
    column: Option<u8>,
    value: Option<Expr>,
    sets: &mut List<Assign>,
) -> Result<(), NoMemory>
    ensures { OnOk result (sets.new ≡ with_assign column value sets.old) }
{
    match (column, value) {
        (Some(column), Some(value)) => sets.push(Assign { column, value }),
        (Some(_), None) => Ok(()),
        (None, _) => Ok(()),
    }
}

/// A length and that of a value with 3 bytes before it, counted up to 8,193.
fn code_with(code: u16, value: u16) -> u16
    ensures { result ≡ bytes_up (code + 3 + value) }
{
    (u32::from(code) + 3 + u32::from(value)).min(8_193) as u16
}

pub fn assign_ends(alloc: Global, draft: &mut Draft) -> Result<(), NoMemory>
    ensures { OnOk result (draft.new ≡ assign_ends draft.old) }
{
    let value = expression_ends(alloc, draft);
    let wrong = set_fault(set_kind(draft), value.kind);
    draft.first = noted_as(wrong, draft.statement.column_at, draft.first);
    draft.statement.code = code_with(draft.statement.code, value.code);
    let column = draft.statement.column;
    assigned(column, value.tree, &mut draft.statement.sets)
}

pub fn sets_end(draft: &mut Draft)
    ensures { draft.new ≡ sets_end draft.old }
{
    let over = draft.statement.code > 8_192;
    draft.first = noted(
        over,
        Reason::OverLimit,
        draft.statement.sets_at,
        draft.first,
    );
}
