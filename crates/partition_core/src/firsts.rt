//! The first keys of a table's partitions.
ghost use Rattle.std.specs.Prelude.{◌≡◌, ◌<◌, ◌≤◌, ◌++◌, length, slice_get, All, IfOk, OnOk, Some, true};
ghost use Rattle.std.specs.List.{AllByRecursion};
ghost use Rattle.sql_base.specs.Rows.{key_kinds, key_value, key_width, padded, width};
ghost use Rattle.sql_base.specs.Tables.{are_leading, first_key, first_keys};

use sql_base::{ColumnKind, Key, List, NoMemory, Row, TableDef, Text, Value};
use std::alloc::Global;

const SIGN: u64 = 1 << 63;

/// The first keys of the table's partitions from the second on.
pub fn first_keys(alloc: Global, table: &TableDef) -> Result<List<Key>, NoMemory>
    requires key { All (λ c. c < length table.now.columns) table.now.key }
    requires key_bytes { key_width table.now ≤ 32 }
    requires leading { All (λ first. are_leading (key_kinds table.now) first ≡ true) table.now.firsts }
    ensures { IfOk result (λ keys. keys ≡ first_keys table.now) }
{
    let mut keys = List::new(alloc);
    for first in table.firsts.items() {
        keys.push(first_key(alloc, table, first)?)?;
    }
    Ok(keys)
}

/// The first key that the literals give.
fn first_key(alloc: Global, table: &TableDef, first: &Row) -> Result<Key, NoMemory>
    requires key { All (λ c. c < length table.now.columns) table.now.key }
    requires key_bytes { key_width table.now ≤ 32 }
    requires leading { are_leading (key_kinds table.now) first.now ≡ true }
    ensures { IfOk result (λ key. key ≡ first_key table.now first.now) }
{
    let literals = first.values();
    let mut key = Vec::new(alloc);
    for at in 0..literals.len() {
        append_key_value(&mut key, key_kind(table, at), &literals[at])?;
    }
    let zeros = key_width(table).saturating_sub(key.len());
    for _ in 0..zeros {
        key.push(0)?;
    }
    Ok(Key::from_vec(key))
}

/// The kind of a key column, by its place in the key.
fn key_kind(table: &TableDef, at: usize) -> ColumnKind
    requires key { All (λ c. c < length table.now.columns) table.now.key }
    requires at { at < length table.now.key }
    ensures { slice_get (key_kinds table.now) at ≡ Some result }
{
    let column = table.key.items()[at] as usize;
    table.columns.items()[column].kind
}

/// How many bytes a key of the table has.
pub fn key_width(table: &TableDef) -> usize
    requires key { All (λ c. c < length table.now.columns) table.now.key }
    requires key_bytes { key_width table.now ≤ 32 }
    ensures { result ≡ key_width table.now }
{
    let mut sum = 0;
    for at in 0..table.key.items().len() {
        sum += width_of(key_kind(table, at));
    }
    sum
}

fn append_key_value(key: &mut Vec<u8>, kind: ColumnKind, value: &Value) -> Result<(), NoMemory>
    ensures { OnOk result (key.new.items ≡ key.old.items ++ key_value kind value.now) }
{
    match value {
        Value::Int(number) => {
            let inverted = number.cast_unsigned() ^ SIGN;
            key.extend_from_slice(&inverted.to_be_bytes())?;
        }
        Value::Text(text) => append_padded(key, text, width_of(kind))?,
    }
    Ok(())
}

fn width_of(kind: ColumnKind) -> usize
    ensures { result ≡ width kind }
{
    match kind {
        ColumnKind::Int => 8,
        ColumnKind::Char(width) => width as usize,
    }
}

fn append_padded(key: &mut Vec<u8>, text: &Text, width: usize) -> Result<(), NoMemory>
    ensures { OnOk result (key.new.items ≡ key.old.items ++ padded width text.now) }
{
    let bytes = text.bytes();
    let blanks = width.saturating_sub(bytes.len());
    key.extend_from_slice(bytes)?;
    for _ in 0..blanks {
        key.push(b' ')?;
    }
    Ok(())
}
