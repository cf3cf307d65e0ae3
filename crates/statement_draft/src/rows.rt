//! Rows and LOADs, as their words come.
ghost use Rattle.std.specs.Prelude.{◌≡◌, ◌≤◌, ◌^◌, ◌∷◌, ◌++◌, IfOk, OnOk, pos, neg_ℤ, ◌-◌, min, nat_eq, is_some, option_and_then, slice_get};
ghost use Rattle.std.specs.List.{list_any};
ghost use Rattle.sql_base.specs.Rows.{kinds, key_of};
ghost use Rattle.sql_base.specs.OnRows.{first_failing};
ghost use Rattle.statement_draft.specs.RowEvents.{row_begins, fitted, literal_fault, next_kind, wrong_with, literal_came, number_came, negative, negative_came, literal_begins, kinds_of, is_loaded, no_load, load_named, load_came, miscounts, record_counted, is_above, row_faults, row_kept, row_loaded, row_judged, load_row_ends, load_kept, load_ends};

use crate::checks::Checks;
use crate::draft::{Draft, NewLoad, NewRow, RowOf};
use crate::faults::{Fault, Reason, noted, noted_as};
use crate::keys::{key_of, kinds, padded, rises};
use crate::names::{is_long, is_wide, table_named};
use sql_base::{ColumnKind, Key, List, Load, Name, NoMemory, Row, TableDef, Value};
use statement_words::Word;
use std::alloc::Global;
use std::mem::replace;

pub fn row_begins(alloc: Global, at: u32, draft: &mut Draft)
    ensures { draft.new ≡ row_begins at draft.old }
{
    draft.row.at = at;
    draft.row.values = List::new(alloc);
}

fn filled(
    alloc: Global,
    of: RowOf,
    kind: Option<ColumnKind>,
    value: Value,
) -> Result<Value, NoMemory>
    ensures { IfOk result (λ full. full ≡ fitted of kind value) }
{
    match (of, kind, value) {
        (RowOf::FirstKey, _, value) => Ok(value),
        (RowOf::Load, Some(ColumnKind::Char(width)), Value::Text(text)) => {
            Ok(Value::Text(padded(alloc, &text, width)?))
        }
        (RowOf::Insert, Some(ColumnKind::Char(width)), Value::Text(text)) => {
            Ok(Value::Text(padded(alloc, &text, width)?))
        }
        (_, _, value) => Ok(value),
    }
}

fn literal_fault(of: RowOf, kind: Option<ColumnKind>, value: &Value) -> Option<Reason>
    ensures { result ≡ literal_fault of kind value.now }
{
    match (kind, value) {
        (None, _) => match of {
            RowOf::FirstKey => Some(Reason::WrongType),
            RowOf::Load => None,
            RowOf::Insert => None,
        },
        (Some(ColumnKind::Int), Value::Int(_)) => None,
        (Some(ColumnKind::Int), Value::Text(_)) => Some(Reason::WrongType),
        (Some(ColumnKind::Char(_)), Value::Int(_)) => Some(Reason::WrongType),
        (Some(ColumnKind::Char(width)), Value::Text(text)) => {
            if (width as usize) < text.bytes().len() {
                Some(Reason::TextTooLong)
            } else {
                None
            }
        }
    }
}

fn kind_at(kinds: &[ColumnKind], place: usize) -> Option<ColumnKind>
    ensures { result ≡ slice_get kinds.now place }
{
    match kinds.get(place) {
        Some(kind) => Some(*kind),
        None => None,
    }
}

fn next_kind(row: &NewRow) -> Option<ColumnKind>
    ensures { result ≡ next_kind row.now }
{
    match &row.kinds {
        Some(kinds) => kind_at(kinds.items(), row.values.items().len()),
        None => None,
    }
}

fn wrong_with(row: &NewRow, value: &Value) -> Option<Reason>
    ensures { result ≡ wrong_with row.now value.now }
{
    match &row.kinds {
        Some(kinds) => literal_fault(
            row.of,
            kind_at(kinds.items(), row.values.items().len()),
            value,
        ),
        None => None,
    }
}

fn literal_came(alloc: Global, value: Value, at: u32, draft: &mut Draft) -> Result<(), NoMemory>
    ensures { OnOk result (draft.new ≡ literal_came value at draft.old) }
{
    draft.first = noted_as(wrong_with(&draft.row, &value), at, draft.first);
    let kind = next_kind(&draft.row);
    let value = filled(alloc, draft.row.of, kind, value)?;
    draft.row.values.push(value)?;
    Ok(())
}

/// The number, or the greatest one where it is wider.
fn narrowed(number: u64) -> i64
    ensures { result ≡ pos (min number (2 ^ 63 - 1)) }
{
    number.min(9_223_372_036_854_775_807) as i64
}

/// The negative of a number, of which no word is wider than 2^63.
pub fn negative(number: u64) -> i64
    ensures { result ≡ negative number }
{
    if number >= 9_223_372_036_854_775_808 {
        return i64::MIN;
    }
    -(number as i64)
}

fn number_came(alloc: Global, number: u64, at: u32, draft: &mut Draft) -> Result<(), NoMemory>
    ensures { OnOk result (draft.new ≡ number_came number at draft.old) }
{
    draft.first = noted(is_wide(number), Reason::NumberTooWide, at, draft.first);
    literal_came(alloc, Value::Int(narrowed(number)), at, draft)
}

pub fn negative_came(alloc: Global, number: u64, draft: &mut Draft) -> Result<(), NoMemory>
    ensures { OnOk result (draft.new ≡ negative_came number draft.old) }
{
    let at = draft.row.minus;
    literal_came(alloc, Value::Int(negative(number)), at, draft)
}

pub fn literal_begins(
    alloc: Global,
    word: &Word,
    at: u32,
    draft: &mut Draft,
) -> Result<(), NoMemory>
    ensures { OnOk result (draft.new ≡ literal_begins word.now at draft.old) }
{
    match word {
        Word::Number(number) => number_came(alloc, *number, at, draft),
        Word::Text(text) => literal_came(alloc, Value::Text(text.clone()?), at, draft),
        Word::Keyword(_) => {
            draft.row.minus = at;
            Ok(())
        }
        Word::Name(_) => {
            draft.row.minus = at;
            Ok(())
        }
        Word::Sign(_) => {
            draft.row.minus = at;
            Ok(())
        }
    }
}

pub fn kinds_of(
    alloc: Global,
    tables: &[TableDef],
    table: Option<u8>,
) -> Result<Option<List<ColumnKind>>, NoMemory>
    ensures { IfOk result (λ found. found ≡ kinds_of tables.now table) }
{
    match table {
        Some(place) => match tables.get(place as usize) {
            Some(table) => Ok(Some(kinds(alloc, table)?)),
            None => Ok(None),
        },
        None => Ok(None),
    }
}

fn is_table_loaded(loads: &[Load], place: u8) -> bool
    ensures { result ≡ list_any (λ load. nat_eq place load.table) loads.now }
{
    for load in loads {
        if place == load.table {
            return true;
        }
    }
    false
}

fn is_loaded(loads: &[Load], table: Option<u8>) -> bool
    ensures { result ≡ is_loaded loads.now table }
{
    match table {
        Some(place) => is_table_loaded(loads, place),
        None => false,
    }
}

pub fn no_load(alloc: Global) -> NewLoad
    ensures { result ≡ no_load }
{
    NewLoad {
        table: None,
        last: None,
        rows: List::new(alloc),
    }
}

fn load_named(alloc: Global, table: Option<u8>, at: u32, draft: &mut Draft) -> Result<(), NoMemory>
    ensures { OnOk result (draft.new ≡ load_named table at draft.old) }
{
    let again = is_loaded(draft.loads.items(), table);
    let first = noted(again, Reason::Repeated, at, draft.first);
    draft.first = noted(!table.is_some(), Reason::UnknownName, at, first);
    draft.load = NewLoad {
        table,
        last: None,
        rows: List::new(alloc),
    };
    draft.row.of = RowOf::Load;
    draft.row.kinds = kinds_of(alloc, draft.tables.items(), table)?;
    Ok(())
}

pub fn load_came(alloc: Global, name: Name, at: u32, draft: &mut Draft) -> Result<(), NoMemory>
    ensures { OnOk result (draft.new ≡ load_came name at draft.old) }
{
    let place = table_named(draft.tables.items(), &name);
    draft.first = noted(is_long(&name), Reason::OverLimit, at, draft.first);
    load_named(alloc, place, at, draft)
}

fn miscounts(row: &NewRow) -> bool
    ensures { result ≡ miscounts row.now }
{
    match &row.kinds {
        Some(kinds) => row.values.items().len() != kinds.items().len(),
        None => false,
    }
}

pub fn record_counted(at: u32, draft: &mut Draft)
    ensures { draft.new ≡ record_counted at draft.old }
{
    let place = draft.row.at;
    let first = noted(miscounts(&draft.row), Reason::WrongType, place, draft.first);
    draft.first = noted(draft.records >= 4_000, Reason::OverLimit, at, first);
    draft.records = draft.records.min(4_000) + 1;
}

fn is_above(last: &Option<Key>, key: &Key) -> bool
    ensures { result ≡ is_above last.now key.now }
{
    match last {
        Some(last) => rises(last, key),
        None => true,
    }
}

/// The first fault with those of a row without fault so far, and its key.
fn row_checked<C: Checks>(
    alloc: Global,
    checks: &C,
    table: &TableDef,
    row: &NewRow,
    last: &Option<Key>,
    first: Option<Fault>,
) -> Result<(Option<Fault>, Key), NoMemory>
    ensures { IfOk result (λ x. (x.0 ≡ row_faults table.now row.now last.now first) × (x.1 ≡ key_of table.now row.now.values)) }
{
    let key = key_of(alloc, table, row.values.items())?;
    let fails = checks.fail(table, row.values.items());
    let first = noted(fails, Reason::CheckFails, row.at, first);
    let falls = !is_above(last, &key);
    Ok((noted(falls, Reason::NotRising, row.at, first), key))
}

fn row_kept(alloc: Global, key: Key, draft: &mut Draft) -> Result<(), NoMemory>
    ensures { OnOk result (draft.new ≡ row_kept key draft.old) }
{
    draft.load.last = Some(key);
    let values = replace(&mut draft.row.values, List::new(alloc));
    draft.load.rows.push(Row::from_values(values))?;
    Ok(())
}

fn row_judged<C: Checks>(alloc: Global, checks: &C, draft: &mut Draft) -> Result<(), NoMemory>
    ensures { OnOk result (draft.new ≡ row_judged (option_and_then (slice_get draft.old.tables) draft.old.load.table) draft.old) }
{
    let Some(place) = draft.load.table else {
        return Ok(());
    };
    let Some(table) = draft.tables.items().get(place as usize) else {
        return Ok(());
    };
    if draft.first.is_some() {
        return Ok(());
    }
    let (first, key) = row_checked(
        alloc,
        checks,
        table,
        &draft.row,
        &draft.load.last,
        draft.first,
    )?;
    draft.first = first;
    row_kept(alloc, key, draft)
}

pub fn load_row_ends<C: Checks>(
    alloc: Global,
    checks: &C,
    draft: &mut Draft,
) -> Result<(), NoMemory>
    ensures { OnOk result (draft.new ≡ load_row_ends draft.old) }
{
    let at = draft.row.at;
    record_counted(at, draft);
    row_judged(alloc, checks, draft)
}

pub fn load_ends(alloc: Global, draft: &mut Draft) -> Result<(), NoMemory>
    ensures { OnOk result (draft.new ≡ load_ends draft.old) }
{
    let Some(table) = draft.load.table else {
        return Ok(());
    };
    let load = replace(&mut draft.load, no_load(alloc));
    draft.loads.push(Load {
        table,
        rows: load.rows,
    })?;
    Ok(())
}
