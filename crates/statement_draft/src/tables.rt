//! Limits and tables, as their words come.
ghost use Rattle.std.specs.Prelude.{◌≡◌, ◌≤◌, ◌∷◌, ◌++◌, IfOk, OnOk, IsTrue, replicate, min, if◌then◌else◌};
ghost use Rattle.std.specs.List.{list_any};
ghost use Rattle.std.specs.Prelude.{nat_eq, slice_get};
ghost use Rattle.sql_base.specs.Rows.{width, kinds, key_kinds};
ghost use Rattle.sql_base.specs.Scripts.{parts_of};
ghost use Rattle.sql_base.specs.Keys.{key_lt};
ghost use Rattle.statement_draft.specs.TableEvents.{is_within, with_limit, limit_came, no_table, table_begins, table_came, column_came, added_up_to, kind_came, width_came, column_bytes, key_column_found, key_column_came, check_begins, first_keys_begin, first_key_rises, first_key_ends, table_ends};

use crate::draft::{Draft, NewTable, RowOf, Scope};
use crate::faults::{Reason, noted};
use crate::keys::{first_key, key_kinds, rises, zeros};
use crate::names::{column_named, is_long, is_wide, table_named};
use sql_base::{Column, ColumnKind, Key, Limits, List, Name, NoMemory, Row, TableDef};
use statement_grammar::Limit;
use std::alloc::Global;
use std::mem::replace;

fn is_within(limit: Limit, number: u64) -> bool
    ensures same { result ≡ is_within limit number }
    ensures few { IsTrue result → number ≤ 32768 }
{
    match limit {
        Limit::Quantum => 1 <= number && number <= 1_000,
        Limit::Buffer => 320 <= number && number <= 32_768,
        Limit::Patience => number <= 100,
        Limit::Servers => 1 <= number && number <= 4,
        Limit::Restart => number <= 10,
    }
}

fn with_limit(limit: Limit, number: u32, limits: Limits) -> Limits
    ensures { result ≡ with_limit limit number limits }
{
    let mut limits = limits;
    match limit {
        Limit::Quantum => limits.quantum = number,
        Limit::Buffer => limits.buffer = number,
        Limit::Patience => limits.patience = number,
        Limit::Servers => limits.servers = number,
        Limit::Restart => limits.restart = number,
    }
    limits
}

/// The number, where it lies in the limit's range.
fn kept(limit: Limit, number: u64) -> u32
    ensures { result ≡ (if is_within limit number then number else 0) }
{
    if is_within(limit, number) {
        return number as u32;
    }
    0
}

pub fn limit_came(limit: Limit, number: u64, at: u32, draft: &mut Draft)
    ensures { draft.new ≡ limit_came limit number at draft.old }
{
    let first = noted(is_wide(number), Reason::NumberTooWide, at, draft.first);
    draft.first = noted(!is_within(limit, number), Reason::OverLimit, at, first);
    draft.limits = with_limit(limit, kept(limit, number), draft.limits);
}

pub fn no_table(alloc: Global) -> NewTable
    ensures { result ≡ no_table }
{
    NewTable {
        def: TableDef {
            name: Name::from_vec(Vec::new(alloc)),
            columns: List::new(alloc),
            key: List::new(alloc),
            checks: List::new(alloc),
            firsts: List::new(alloc),
        },
        column: Name::from_vec(Vec::new(alloc)),
        column_at: 0,
        width: 0,
        key_width: 0,
        check_at: 0,
        last: Key::from_vec(Vec::new(alloc)),
    }
}

/// How many partitions the tables have, counted up to 17.
fn parts_up(tables: &[TableDef]) -> usize
    ensures { result ≡ min 17 (parts_of tables.now) }
{
    let mut parts: usize = 0;
    for table in tables {
        parts = 17.min(parts + 1 + 17.min(table.firsts.items().len()));
    }
    parts
}

pub fn table_begins(alloc: Global, at: u32, draft: &mut Draft)
    ensures { draft.new ≡ table_begins at draft.old }
{
    let over = draft.tables.items().len() >= 4 || parts_up(draft.tables.items()) >= 16;
    draft.first = noted(over, Reason::OverLimit, at, draft.first);
    draft.table = no_table(alloc);
}

pub fn table_came(name: Name, at: u32, draft: &mut Draft)
    ensures { draft.new ≡ table_came name at draft.old }
{
    let again = table_named(draft.tables.items(), &name).is_some();
    let first = noted(is_long(&name), Reason::OverLimit, at, draft.first);
    draft.first = noted(again, Reason::Repeated, at, first);
    draft.table.def.name = name;
}

pub fn column_came(name: Name, at: u32, draft: &mut Draft)
    ensures { draft.new ≡ column_came name at draft.old }
{
    let columns = draft.table.def.columns.items();
    let again = column_named(columns, &name).is_some();
    let over = is_long(&name) || columns.len() >= 32;
    let first = noted(over, Reason::OverLimit, at, draft.first);
    draft.first = noted(again, Reason::Repeated, at, first);
    draft.table.column = name;
    draft.table.column_at = at;
}

/// `number` more, counted up to one more than `most`.
fn added_up_to(most: u16, sum: u16, number: u64) -> u16
    requires { most ≤ 256 }
    ensures { result ≡ added_up_to most sum number }
{
    let most = u64::from(most) + 1;
    most.min(u64::from(sum) + most.min(number)) as u16
}

pub fn kind_came(
    alloc: Global,
    kind: ColumnKind,
    number: u64,
    draft: &mut Draft,
) -> Result<(), NoMemory>
    ensures { OnOk result (draft.new ≡ kind_came kind number draft.old) }
{
    let bytes = added_up_to(256, draft.table.width, number);
    let at = draft.table.column_at;
    draft.first = noted(bytes > 256, Reason::OverLimit, at, draft.first);
    draft.table.width = bytes;
    if draft.table.def.columns.items().len() < 32 {
        let name = draft.table.column.clone()?;
        draft.table.def.columns.push(Column { name, kind })?;
    }
    Ok(())
}

pub fn width_came(alloc: Global, number: u64, at: u32, draft: &mut Draft) -> Result<(), NoMemory>
    ensures { OnOk result (draft.new ≡ width_came number at draft.old) }
{
    let over = !(1 <= number && number <= 255);
    let first = noted(is_wide(number), Reason::NumberTooWide, at, draft.first);
    draft.first = noted(over, Reason::OverLimit, at, first);
    let width = number.min(255) as u8;
    kind_came(alloc, ColumnKind::Char(width), number, draft)
}

pub fn contains(places: &[u8], place: u8) -> bool
    ensures { result ≡ list_any (nat_eq place) places.now }
{
    places.iter().any(|p| place == *p)
}

fn width_at(columns: &[Column], place: u8) -> u64
    ensures { result ≡ column_bytes (slice_get columns.now place) }
{
    match columns.get(place as usize) {
        Some(column) => match column.kind {
            ColumnKind::Int => 8,
            ColumnKind::Char(width) => u64::from(width),
        },
        None => 0,
    }
}

fn key_column_found(place: Option<u8>, at: u32, draft: &mut Draft) -> Result<(), NoMemory>
    ensures { OnOk result (draft.new ≡ key_column_found place at draft.old) }
{
    match place {
        None => {
            draft.first = noted(true, Reason::UnknownName, at, draft.first);
            Ok(())
        }
        Some(place) => {
            let width = width_at(draft.table.def.columns.items(), place);
            let bytes = added_up_to(32, draft.table.key_width, width);
            let again = contains(draft.table.def.key.items(), place);
            let first = noted(bytes > 32, Reason::OverLimit, at, draft.first);
            draft.first = noted(again, Reason::Repeated, at, first);
            draft.table.key_width = bytes;
            if !again {
                draft.table.def.key.push(place)?;
            }
            Ok(())
        }
    }
}

pub fn key_column_came(name: Name, at: u32, draft: &mut Draft) -> Result<(), NoMemory>
    ensures { OnOk result (draft.new ≡ key_column_came name at draft.old) }
{
    let place = column_named(draft.table.def.columns.items(), &name);
    draft.first = noted(is_long(&name), Reason::OverLimit, at, draft.first);
    key_column_found(place, at, draft)
}

pub fn check_begins(at: u32, draft: &mut Draft)
    ensures { draft.new ≡ check_begins at draft.old }
{
    let over = draft.table.def.checks.items().len() >= 8;
    draft.first = noted(over, Reason::OverLimit, at, draft.first);
    draft.table.check_at = at;
    draft.scope = Scope::NewTable;
}

pub fn first_keys_begin(alloc: Global, draft: &mut Draft) -> Result<(), NoMemory>
    ensures { OnOk result (draft.new ≡ first_keys_begin draft.old) }
{
    draft.table.last = zeros(alloc, draft.table.key_width)?;
    draft.row.of = RowOf::FirstKey;
    draft.row.kinds = Some(key_kinds(alloc, &draft.table.def)?);
    Ok(())
}

fn first_key_rises(alloc: Global, draft: &mut Draft) -> Result<(), NoMemory>
    ensures { OnOk result (draft.new ≡ first_key_rises draft.old) }
{
    let key = first_key(
        alloc,
        &draft.table.def,
        draft.table.key_width,
        draft.row.values.items(),
    )?;
    let falls = draft.first.is_none() && !rises(&draft.table.last, &key);
    draft.first = noted(falls, Reason::NotRising, draft.row.at, draft.first);
    draft.table.last = key;
    let values = replace(&mut draft.row.values, List::new(alloc));
    draft.table.def.firsts.push(Row::from_values(values))?;
    Ok(())
}

pub fn first_key_ends(alloc: Global, draft: &mut Draft) -> Result<(), NoMemory>
    ensures { OnOk result (draft.new ≡ first_key_ends draft.old) }
{
    let firsts = draft.table.def.firsts.items().len();
    let over = parts_up(draft.tables.items()) + 17.min(firsts) >= 15;
    draft.first = noted(over, Reason::OverLimit, draft.row.at, draft.first);
    first_key_rises(alloc, draft)
}

pub fn table_ends(alloc: Global, draft: &mut Draft) -> Result<(), NoMemory>
    ensures { OnOk result (draft.new ≡ table_ends draft.old) }
{
    let table = replace(&mut draft.table, no_table(alloc));
    if draft.tables.items().len() < 4 {
        draft.tables.push(table.def)?;
    }
    Ok(())
}
