//! Rows read back from their bytes.
ghost use Rattle.std.specs.Prelude.{◌≡◌, ◌≢◌, ◌≤◌, ◌↔◌, ℕ, length, sum_by, true, false, IsTrue, IfOk};
ghost use Rattle.std.specs.Int.{w64, cast_signed, from_be_bytes};
ghost use Rattle.sql_base.specs.Rows.{is_printable, unpacked, unpacked_value, width};

use crate::bytes::{Packed, Text, is_printable};
use crate::faults::NoMemory;
use crate::keys::width_of;
use crate::lists::List;
use crate::tables::ColumnKind;
use crate::values::{Row, Value};
use std::alloc::Global;

/// Why bytes were not unpacked.
#[derive(Clone, Copy, Debug, PartialEq, Eq)]
pub enum UnpackFault {
    /// There are not just as many bytes as the columns have.
    WrongLength,
    /// A text has a byte outside 32..126.
    NotPrintable,
    NoMemory,
}

impl From<NoMemory> for UnpackFault {
    ghost use Rattle.sql_base.specs.declared.unpacking.UnpackFault.TheVariants.{NoMemory};

    ghost from_gives = { λ _ fault. fault ≡ NoMemory };

    fn from(_error: NoMemory) -> UnpackFault {
        UnpackFault::NoMemory
    }
}

/// The row of these kinds whose packed columns the bytes are.
pub fn unpack(alloc: Global, packed: &Packed, kinds: &[ColumnKind]) -> Result<Row, UnpackFault>
    ensures row { IfOk result (λ row. unpacked kinds.now packed.now ≡ Some row) }
    ensures wrong_length { (result ≡ Err UnpackFault.WrongLength) ↔ (length packed.now ≢ sum_by width kinds.now) }
    ensures not_printable { result ≡ Err UnpackFault.NotPrintable → unpacked kinds.now packed.now ≡ None }
{
    if !have_length(kinds, packed.bytes().len()) {
        return Err(UnpackFault::WrongLength);
    }
    let mut rest = packed.bytes();
    let mut values = List::new(alloc);
    for kind in kinds {
        let (bytes, others) = rest.split_at(width_of(*kind));
        values.push(unpack_value(alloc, *kind, bytes)?)?;
        rest = others;
    }
    Ok(Row::from_values(values))
}

// Whether values of these kinds have so many bytes.
fn have_length(kinds: &[ColumnKind], length: usize) -> bool
    ensures { IsTrue result ↔ (length ≡ sum_by width kinds.now) }
{
    let mut left = length;
    for kind in kinds {
        match left.checked_sub(width_of(*kind)) {
            Some(after) => left = after,
            None => return false,
        }
    }
    left == 0
}

fn unpack_value(alloc: Global, kind: ColumnKind, bytes: &[u8]) -> Result<Value, UnpackFault>
    requires { length bytes.now ≡ width kind }
    ensures value { IfOk result (λ value. unpacked_value kind bytes.now ≡ Some value) }
    ensures right_length { result ≢ Err UnpackFault.WrongLength }
    ensures not_printable { result ≡ Err UnpackFault.NotPrintable → unpacked_value kind bytes.now ≡ None }
{
    match kind {
        ColumnKind::Int => Ok(Value::Int(unpack_int(bytes))),
        ColumnKind::Char(_) => Ok(Value::Text(unpack_text(alloc, bytes)?)),
    }
}

fn unpack_int(bytes: &[u8]) -> i64
    requires { length bytes.now ≡ 8 }
    ensures { result ≡ cast_signed w64 (from_be_bytes w64 bytes.now) }
{
    let number = <[u8; 8]>::try_from(bytes).unwrap();
    u64::from_be_bytes(number).cast_signed()
}

fn unpack_text(alloc: Global, bytes: &[u8]) -> Result<Text, UnpackFault>
    ensures text { IfOk result (λ text. text ≡ bytes.now) }
    ensures printable { IfOk result (λ _. is_printable bytes.now ≡ true) }
    ensures right_length { result ≢ Err UnpackFault.WrongLength }
    ensures not_printable { result ≡ Err UnpackFault.NotPrintable → is_printable bytes.now ≡ false }
{
    if !is_printable(bytes) {
        return Err(UnpackFault::NotPrintable);
    }
    let bytes = bytes.to_vec(alloc).map_err(NoMemory::from)?;
    Ok(Text::from_vec(bytes))
}
