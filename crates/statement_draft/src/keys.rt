//! Keys of rows and first keys of partitions.
ghost use Rattle.std.specs.Prelude.{◌≡◌, ◌∷◌, ◌++◌, [], IfOk, OnOk, replicate, map, slice_get};
ghost use Rattle.sql_base.specs.Keys.{key_lt};
ghost use Rattle.sql_base.specs.Rows.{chosen, kinds, key_kinds, key_value, key_values, key_of, padded, width};
ghost use Rattle.statement_draft.specs.TableEvents.{filled_key};

use sql_base::{Column, ColumnKind, Key, List, NoMemory, TableDef, Text, Value};
use std::alloc::Global;

const SIGN: u64 = 1 << 63;

pub fn zeros(alloc: Global, count: u16) -> Result<Key, NoMemory>
    ensures { IfOk result (λ key. key ≡ replicate count 0) }
{
    Ok(Key::from_vec(vec![in alloc; 0; count as usize]?))
}

/// The text with blanks behind it up to the width.
pub fn padded(alloc: Global, text: &Text, width: u8) -> Result<Text, NoMemory>
    ensures { IfOk result (λ full. full ≡ padded width text.now) }
{
    let mut bytes = text.bytes().to_vec(alloc)?;
    let blanks = (width as usize).saturating_sub(text.bytes().len());
    let blanks = vec![in alloc; b' '; blanks]?;
    bytes.extend_from_slice(blanks.as_slice())?;
    Ok(Text::from_vec(bytes))
}

/// Whether the second key is above the first.
pub fn rises(last: &Key, key: &Key) -> bool
    ensures { result ≡ key_lt last.now key.now }
{
    last.bytes().cmp(key.bytes()).is_lt()
}

fn kinds_of(alloc: Global, columns: &[Column]) -> Result<List<ColumnKind>, NoMemory>
    ensures { IfOk result (λ found. found ≡ map (λ column. column.kind) columns.now) }
{
    let mut found = List::new(alloc);
    for column in columns {
        found.push(column.kind)?;
    }
    Ok(found)
}

/// The kinds of the columns of a table.
pub fn kinds(alloc: Global, table: &TableDef) -> Result<List<ColumnKind>, NoMemory>
    ensures { IfOk result (λ found. found ≡ kinds table.now) }
{
    kinds_of(alloc, table.columns.items())
}

fn kind_at(kinds: &[ColumnKind], place: u8) -> Option<ColumnKind>
    ensures { result ≡ slice_get kinds.now place }
{
    match kinds.get(place as usize) {
        Some(kind) => Some(*kind),
        None => None,
    }
}

/// Adds the kind at a place, if there is one.
#[tactic(auto, using(crate::proofs::Choosing::chosen_one, crate::proofs::Choosing::chosen_nothing))]
fn choose_kind(
    found: &mut List<ColumnKind>,
    kinds: &[ColumnKind],
    place: u8,
) -> Result<(), NoMemory>
    ensures { OnOk result (found.new ≡ found.old ++ chosen (place ∷ []) kinds.now) }
{
    match kind_at(kinds, place) {
        Some(kind) => found.push(kind),
        None => Ok(()),
    }
}

/// The kinds at these places.
#[tactic(auto, using(crate::proofs::Choosing::chosen_step))]
fn chosen_kinds(
    alloc: Global,
    places: &[u8],
    kinds: &[ColumnKind],
) -> Result<List<ColumnKind>, NoMemory>
    ensures { IfOk result (λ found. found ≡ chosen places.now kinds.now) }
{
    let mut found = List::new(alloc);
    for place in places {
        choose_kind(&mut found, kinds, *place)?;
    }
    Ok(found)
}

/// The kinds of the key columns, in the order of the key.
pub fn key_kinds(alloc: Global, table: &TableDef) -> Result<List<ColumnKind>, NoMemory>
    ensures { IfOk result (λ found. found ≡ key_kinds table.now) }
{
    let kinds = kinds(alloc, table)?;
    chosen_kinds(alloc, table.key.items(), kinds.items())
}

fn width_of(kind: ColumnKind) -> u8
    ensures { result ≡ width kind }
{
    match kind {
        ColumnKind::Int => 8,
        ColumnKind::Char(width) => width,
    }
}

fn append_value(
    alloc: Global,
    key: &mut Vec<u8>,
    kind: ColumnKind,
    value: &Value,
) -> Result<(), NoMemory>
    ensures { OnOk result (key.new.items ≡ key.old.items ++ key_value kind value.now) }
{
    match value {
        Value::Int(number) => {
            let inverted = number.cast_unsigned() ^ SIGN;
            key.extend_from_slice(&inverted.to_be_bytes())?;
        }
        Value::Text(text) => {
            let full = padded(alloc, text, width_of(kind))?;
            key.extend_from_slice(full.bytes())?;
        }
    }
    Ok(())
}

/// Appends the values of key columns of these kinds, one after the other.
fn append_values(
    alloc: Global,
    key: &mut Vec<u8>,
    kinds: &[ColumnKind],
    values: &[Value],
) -> Result<(), NoMemory>
    ensures { OnOk result (key.new.items ≡ key.old.items ++ key_values kinds.now values.now) }
{
    match kinds {
        [] => Ok(()),
        [kind, kinds @ ..] => match values {
            [] => Ok(()),
            [value, values @ ..] => {
                append_value(alloc, key, *kind, value)?;
                append_values(alloc, key, kinds, values)
            }
        },
    }
}

fn key_values(alloc: Global, kinds: &[ColumnKind], values: &[Value]) -> Result<Vec<u8>, NoMemory>
    ensures { IfOk result (λ key. key.items ≡ key_values kinds.now values.now) }
{
    let mut key = Vec::new(alloc);
    append_values(alloc, &mut key, kinds, values)?;
    Ok(key)
}

fn value_at(alloc: Global, values: &[Value], place: u8) -> Result<Option<Value>, NoMemory>
    ensures { IfOk result (λ found. found ≡ slice_get values.now place) }
{
    match values.get(place as usize) {
        Some(value) => Ok(Some(value.clone()?)),
        None => Ok(None),
    }
}

/// Adds a copy of the value at a place, if there is one.
#[tactic(auto, using(crate::proofs::Choosing::chosen_one, crate::proofs::Choosing::chosen_nothing))]
fn choose_value(
    alloc: Global,
    found: &mut List<Value>,
    values: &[Value],
    place: u8,
) -> Result<(), NoMemory>
    ensures { OnOk result (found.new ≡ found.old ++ chosen (place ∷ []) values.now) }
{
    match value_at(alloc, values, place)? {
        Some(value) => found.push(value),
        None => Ok(()),
    }
}

/// The values at these places.
#[tactic(auto, using(crate::proofs::Choosing::chosen_step))]
fn chosen_values(alloc: Global, places: &[u8], values: &[Value]) -> Result<List<Value>, NoMemory>
    ensures { IfOk result (λ found. found ≡ chosen places.now values.now) }
{
    let mut found = List::new(alloc);
    for place in places {
        choose_value(alloc, &mut found, values, *place)?;
    }
    Ok(found)
}

/// The first key of a partition, whose literals for leading key columns these are.
pub fn first_key(
    alloc: Global,
    table: &TableDef,
    width: u16,
    values: &[Value],
) -> Result<Key, NoMemory>
    ensures { IfOk result (λ key. key ≡ filled_key width (key_values (key_kinds table.now) values.now)) }
{
    let kinds = key_kinds(alloc, table)?;
    let mut key = key_values(alloc, kinds.items(), values)?;
    let rest = (width as usize).saturating_sub(key.len());
    let zeros = vec![in alloc; 0; rest]?;
    key.extend_from_slice(zeros.as_slice())?;
    Ok(Key::from_vec(key))
}

/// The key of a row.
pub fn key_of(alloc: Global, table: &TableDef, values: &[Value]) -> Result<Key, NoMemory>
    ensures { IfOk result (λ key. key ≡ key_of table.now values.now) }
{
    let kinds = key_kinds(alloc, table)?;
    let values = chosen_values(alloc, table.key.items(), values)?;
    let key = key_values(alloc, kinds.items(), values.items())?;
    Ok(Key::from_vec(key))
}
