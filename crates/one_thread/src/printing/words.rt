//! The printed words and numbers of a line.
ghost use Rattle.std.specs.Prelude.{◌≡◌, ◌<◌, ◌++◌, ◌∷◌, [], OnOk, decimal, flat_map};
ghost use Rattle.one_thread.specs.Text.{hex_digit, int_text, key_text, quoted, value_text};

use itoa::Buffer;
use sql_base::{Key, NoMemory, Value};

/// Adds a blank and the number in decimal.
pub fn put_number(out: &mut Vec<u8>, number: u64) -> Result<(), NoMemory>
    ensures { OnOk result (out.new.items ≡ out.old.items ++ 0x20 ∷ decimal number) }
{
    let mut digits = Buffer::new();
    out.push(b' ')?;
    out.extend_from_slice(digits.format(number).as_bytes())?;
    Ok(())
}

/// Adds a blank and the number, which may take more than 64 bits, in decimal.
pub fn put_wide_number(out: &mut Vec<u8>, number: u128) -> Result<(), NoMemory>
    ensures { OnOk result (out.new.items ≡ out.old.items ++ 0x20 ∷ decimal number) }
{
    let mut digits = Buffer::new();
    out.push(b' ')?;
    out.extend_from_slice(digits.format(number).as_bytes())?;
    Ok(())
}

/// Adds the session and the ordinal of an attempt, each behind a blank.
pub fn put_name(out: &mut Vec<u8>, session: u32, ordinal: u32) -> Result<(), NoMemory>
    ensures { OnOk result (out.new.items ≡ out.old.items ++ 0x20 ∷ decimal session ++ 0x20 ∷ decimal ordinal) }
{
    put_number(out, u64::from(session))?;
    put_number(out, u64::from(ordinal))
}

/// Adds a blank and the key in hexadecimal.
pub fn put_key(out: &mut Vec<u8>, key: &Key) -> Result<(), NoMemory>
    ensures { OnOk result (out.new.items ≡ out.old.items ++ 0x20 ∷ key_text key.now) }
{
    out.push(b' ')?;
    for byte in key.bytes() {
        out.push(hex_digit(*byte / 16))?;
        out.push(hex_digit(*byte % 16))?;
    }
    Ok(())
}

/// Adds each value behind a blank.
pub fn put_values(out: &mut Vec<u8>, values: &[Value]) -> Result<(), NoMemory>
    ensures { OnOk result (out.new.items ≡ out.old.items ++ flat_map (λ value. 0x20 ∷ value_text value) values.now) }
{
    for value in values {
        put_value(out, value)?;
    }
    Ok(())
}

fn put_value(out: &mut Vec<u8>, value: &Value) -> Result<(), NoMemory>
    ensures { OnOk result (out.new.items ≡ out.old.items ++ 0x20 ∷ value_text value.now) }
{
    out.push(b' ')?;
    match value {
        Value::Int(number) => put_int(out, *number),
        Value::Text(text) => put_text(out, text.bytes()),
    }
}

/// Adds the number in decimal.
pub fn put_int(out: &mut Vec<u8>, number: i64) -> Result<(), NoMemory>
    ensures { OnOk result (out.new.items ≡ out.old.items ++ int_text number) }
{
    let mut digits = Buffer::new();
    out.extend_from_slice(digits.format(number).as_bytes())?;
    Ok(())
}

/// Adds the text between quotes.
pub fn put_text(out: &mut Vec<u8>, text: &[u8]) -> Result<(), NoMemory>
    ensures { OnOk result (out.new.items ≡ out.old.items ++ 0x27 ∷ flat_map quoted text.now ++ 0x27 ∷ []) }
{
    out.push(b'\'')?;
    for byte in text {
        put_quoted(out, *byte)?;
    }
    out.push(b'\'')?;
    Ok(())
}

fn put_quoted(out: &mut Vec<u8>, byte: u8) -> Result<(), NoMemory>
    ensures { OnOk result (out.new.items ≡ out.old.items ++ quoted byte) }
{
    if byte == b'\'' {
        out.push(b'\'')?;
    }
    out.push(byte)?;
    Ok(())
}

fn hex_digit(digit: u8) -> u8
    requires { digit < 16 }
    ensures { result ≡ hex_digit digit }
{
    if digit < 10 {
        b'0' + digit
    } else {
        b'a' + (digit - 10)
    }
}
