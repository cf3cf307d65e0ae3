//! First keys, and the key columns of a table.

ghost use Rattle.std.specs.Prelude.{◌≡◌, ◌≤◌, ◌<◌, length, slice_get, All, IfOk, Some, true};
ghost use Rattle.sql_base.specs.Rows.{key_kinds, key_width};
ghost use Rattle.sql_base.specs.Tables.{are_leading, first_key};

use sql_base::{ColumnKind, Key, NoMemory, Row, TableDef, append_key_value, width_of};
use std::alloc::Global;

/// The first key that the literals give.
pub fn first_key(alloc: Global, table: &TableDef, first: &Row) -> Result<Key, NoMemory>
    requires key { All (λ c. c < length table.now.columns) table.now.key }
    requires key_bytes { key_width table.now ≤ 32 }
    requires leading { are_leading (key_kinds table.now) first.now ≡ true }
    ensures { IfOk result (λ key. key ≡ first_key table.now first.now) }
{
    let literals = first.values();
    let mut key = Vec::new(alloc);
    for at in 0..literals.len() {
        append_key_value(&mut key, key_kind(table, at), &literals[at])?;
    }
    let zeros = key_width(table).saturating_sub(key.len());
    for _ in 0..zeros {
        key.push(0)?;
    }
    Ok(Key::from_vec(key))
}

/// The kind of a key column, by its place in the key.
pub fn key_kind(table: &TableDef, at: usize) -> ColumnKind
    requires key { All (λ c. c < length table.now.columns) table.now.key }
    requires at { at < length table.now.key }
    ensures { slice_get (key_kinds table.now) at ≡ Some result }
{
    let column = table.key.items()[at] as usize;
    table.columns.items()[column].kind
}

/// How many bytes a key of the table has.
pub fn key_width(table: &TableDef) -> usize
    requires key { All (λ c. c < length table.now.columns) table.now.key }
    requires key_bytes { key_width table.now ≤ 32 }
    ensures { result ≡ key_width table.now }
{
    let mut sum = 0;
    for at in 0..table.key.items().len() {
        sum += width_of(key_kind(table, at));
    }
    sum
}
