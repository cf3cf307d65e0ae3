//! Keys of rows, and what they are made of.

ghost use Rattle.std.specs.Prelude.{◌≡◌, ◌≢◌, ◌<◌, ◌^◌, ◌++◌, bit_xor, length, All, Err, IfOk, None, OnOk, Some, true};
ghost use Rattle.std.specs.Int.{w64, cast_unsigned, to_be_bytes};
ghost use Rattle.sql_base.specs.KeyFaults.{first_key_fault, have_kinds, key_fault, key_fault_at};
ghost use Rattle.sql_base.specs.Rows.{IsRow, key_of, key_value, kinds, padded, width};

use crate::bytes::{Key, Text, is_printable};
use crate::faults::NoMemory;
use crate::tables::{ColumnKind, TableDef};
use crate::values::{Row, Value};
use std::alloc::Global;

const SIGN: u64 = 1 << 63;

/// Why a row has no key.
#[derive(Clone, Copy, Debug, PartialEq, Eq)]
pub enum KeyFault {
    /// The text in this key column is longer than the column.
    TextTooLong { column: u8 },
    /// The text in this key column has a byte outside 32..126.
    NotPrintable { column: u8 },
    NoMemory,
}

impl From<NoMemory> for KeyFault {
    ghost use Rattle.sql_base.specs.declared.keys.KeyFault.TheVariants.{NoMemory};

    ghost from_gives = { λ _ fault. fault ≡ NoMemory };

    fn from(_error: NoMemory) -> KeyFault {
        KeyFault::NoMemory
    }
}

/// The key of values of the table's kinds, or the fault of the first key column that shows one.
pub fn encode_key(alloc: Global, row: &Row, table: &TableDef) -> Result<Key, KeyFault>
    requires row { have_kinds (kinds table.now) row.now ≡ true }
    requires key { All (λ c. c < length table.now.columns) table.now.key }
    ensures key { IfOk result (λ key. key ≡ key_of table.now row.now) }
    ensures sound { IfOk result (λ _. first_key_fault table.now row.now ≡ None) }
    ensures refused { (fault : KeyFault) → result ≡ Err fault → fault ≢ KeyFault.NoMemory → first_key_fault table.now row.now ≡ Some fault }
{
    for column in table.key.items() {
        if let Some(fault) = key_fault_at(*column, row, table) {
            return Err(fault);
        }
    }
    Ok(key_of_values(alloc, row, table)?)
}

// The fault that the row shows in a column.
fn key_fault_at(column: u8, row: &Row, table: &TableDef) -> Option<KeyFault>
    requires row { length row.now ≡ length table.now.columns }
    requires column { column < length table.now.columns }
    ensures { result ≡ key_fault_at table.now row.now column }
{
    let at = column as usize;
    key_fault(column, table.columns.items()[at].kind, &row.values()[at])
}

fn key_fault(column: u8, kind: ColumnKind, value: &Value) -> Option<KeyFault>
    ensures { result ≡ key_fault column kind value.now }
{
    match kind {
        ColumnKind::Int => None,
        ColumnKind::Char(width) => match value {
            Value::Int(_number) => None,
            Value::Text(text) => {
                if text.bytes().len() > width as usize {
                    Some(KeyFault::TextTooLong { column })
                } else if !is_printable(text.bytes()) {
                    Some(KeyFault::NotPrintable { column })
                } else {
                    None
                }
            }
        },
    }
}

/// The key of a row of the table.
pub fn row_key(alloc: Global, row: &Row, table: &TableDef) -> Result<Key, NoMemory>
    requires row { IsRow table.now row.now }
    requires key { All (λ c. c < length table.now.columns) table.now.key }
    ensures { IfOk result (λ key. key ≡ key_of table.now row.now) }
{
    key_of_values(alloc, row, table)
}

fn key_of_values(alloc: Global, row: &Row, table: &TableDef) -> Result<Key, NoMemory>
    requires row { length row.now ≡ length table.now.columns }
    requires key { All (λ c. c < length table.now.columns) table.now.key }
    ensures { IfOk result (λ key. key ≡ key_of table.now row.now) }
{
    let columns = table.columns.items();
    let values = row.values();
    let mut key = Vec::new(alloc);
    for column in table.key.items() {
        let at = *column as usize;
        append_key_value(&mut key, columns[at].kind, &values[at])?;
    }
    Ok(Key::from_vec(key))
}

/// Adds a value as it stands in keys.
pub fn append_key_value(key: &mut Vec<u8>, kind: ColumnKind, value: &Value) -> Result<(), NoMemory>
    ensures { OnOk result (key.new.items ≡ key.old.items ++ key_value kind value.now) }
{
    match value {
        Value::Int(number) => key.extend_from_slice(&key_number(*number))?,
        Value::Text(text) => append_padded(key, text.bytes(), width_of(kind))?,
    }
    Ok(())
}

/// A number as it stands in keys: big-endian, with its sign bit inverted.
pub fn key_number(number: i64) -> [u8; 8]
    ensures { result ≡ to_be_bytes w64 (bit_xor (cast_unsigned w64 number) (2 ^ 63)) }
{
    (number.cast_unsigned() ^ SIGN).to_be_bytes()
}

/// How many bytes a value of a column has in keys and packed rows.
pub fn width_of(kind: ColumnKind) -> usize
    ensures { result ≡ width kind }
{
    match kind {
        ColumnKind::Int => 8,
        ColumnKind::Char(width) => width as usize,
    }
}

/// The text with blanks up to the width.
pub fn padded(alloc: Global, text: &[u8], width: usize) -> Result<Text, NoMemory>
    ensures { IfOk result (λ wide. wide ≡ padded width text.now) }
{
    let mut bytes = Vec::new(alloc);
    append_padded(&mut bytes, text, width)?;
    Ok(Text::from_vec(bytes))
}

/// Adds a text, and blanks up to the width.
pub fn append_padded(bytes: &mut Vec<u8>, text: &[u8], width: usize) -> Result<(), NoMemory>
    ensures { OnOk result (bytes.new.items ≡ bytes.old.items ++ padded width text.now) }
{
    let blanks = width.saturating_sub(text.len());
    bytes.extend_from_slice(text)?;
    for _ in 0..blanks {
        bytes.push(b' ')?;
    }
    Ok(())
}
