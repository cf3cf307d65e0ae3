//! Rows as bytes.
ghost use Rattle.std.specs.Prelude.{◌≡◌, ◌<◌, ◌++◌, length, All, IfOk, OnOk};
ghost use Rattle.sql_base.specs.Rows.{packed, packed_value};

use crate::bytes::Packed;
use crate::faults::NoMemory;
use crate::values::{Row, Value};
use std::alloc::Global;

/// How many bytes a number has. Room for so many is taken for each column; longer texts make it grow.
const NUMBER_WIDTH: usize = 8;

/// The packed row of the named columns, in their order. Columns count from 0.
pub fn pack(alloc: Global, row: &Row, columns: &[u8]) -> Result<Packed, NoMemory>
    requires { All (λ c. c < length row.now) columns.now }
    ensures { IfOk result (λ bytes. bytes ≡ packed columns.now row.now) }
{
    let values = row.values();
    let mut bytes = Vec::with_capacity(alloc, columns.len().saturating_mul(NUMBER_WIDTH))?;
    for column in columns {
        append_value(&mut bytes, &values[*column as usize])?;
    }
    Ok(Packed::from_vec(bytes))
}

fn append_value(bytes: &mut Vec<u8>, value: &Value) -> Result<(), NoMemory>
    ensures { OnOk result (bytes.new.items ≡ bytes.old.items ++ packed_value value.now) }
{
    match value {
        Value::Int(number) => bytes.extend_from_slice(&number.to_be_bytes())?,
        Value::Text(text) => bytes.extend_from_slice(text.bytes())?,
    }
    Ok(())
}
