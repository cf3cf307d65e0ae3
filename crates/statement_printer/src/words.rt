//! The bytes of one word.
ghost use Rattle.std.specs.Prelude.{◌≡◌, ◌≤◌, ◌++◌, ◌∷◌, [], OnOk, length, flat_map};
ghost use Rattle.statement_words.specs.Spans.{quoted, sign_spelling};
ghost use Rattle.statement_words.specs.declared.tokens.Word.TheVariants as word;
ghost use Rattle.statement_printer.specs.Bytes.{bytes_of, sign_gap, with_gap};
ghost use Rattle.statement_printer.specs.Printing.{int_words, key, length_unblanked, name, sign};

use itoa::Buffer;
use sql_base::NoMemory;
use statement_words::{Keyword, Sign, spelling};

pub fn put_key(out: &mut Vec<u8>, keyword: Keyword) -> Result<(), NoMemory>
    ensures { OnOk result (out.new.items ≡ out.old.items ++ with_gap (key keyword)) }
{
    out.extend_from_slice(spelling(keyword))?;
    out.push(b' ')?;
    Ok(())
}

/// Adds two keywords.
pub fn put_keys(out: &mut Vec<u8>, first: Keyword, second: Keyword) -> Result<(), NoMemory>
    ensures { OnOk result (out.new.items ≡ out.old.items ++ bytes_of (key first ∷ key second ∷ [])) }
{
    put_key(out, first)?;
    put_key(out, second)
}

pub fn put_name(out: &mut Vec<u8>, bytes: &[u8]) -> Result<(), NoMemory>
    ensures { OnOk result (out.new.items ≡ out.old.items ++ with_gap (name bytes.now)) }
{
    out.extend_from_slice(bytes)?;
    out.push(b' ')?;
    Ok(())
}

fn sign_bytes(sign: Sign) -> &'static [u8]
    ensures { result.now ≡ sign_spelling sign }
{
    match sign {
        Sign::Open => b"(".as_slice(),
        Sign::Close => b")".as_slice(),
        Sign::Comma => b",".as_slice(),
        Sign::Semicolon => b";".as_slice(),
        Sign::Plus => b"+".as_slice(),
        Sign::Minus => b"-".as_slice(),
        Sign::Times => b"*".as_slice(),
        Sign::Over => b"/".as_slice(),
        Sign::Equal => b"=".as_slice(),
        Sign::Unequal => b"<>".as_slice(),
        Sign::Less => b"<".as_slice(),
        Sign::AtMost => b"<=".as_slice(),
        Sign::Greater => b">".as_slice(),
        Sign::AtLeast => b">=".as_slice(),
    }
}

fn sign_gap(sign: Sign) -> u8
    ensures { result ≡ sign_gap sign }
{
    match sign {
        Sign::Semicolon => b'\n',
        Sign::Open => b' ',
        Sign::Close => b' ',
        Sign::Comma => b' ',
        Sign::Plus => b' ',
        Sign::Minus => b' ',
        Sign::Times => b' ',
        Sign::Over => b' ',
        Sign::Equal => b' ',
        Sign::Unequal => b' ',
        Sign::Less => b' ',
        Sign::AtMost => b' ',
        Sign::Greater => b' ',
        Sign::AtLeast => b' ',
    }
}

pub fn put_sign(out: &mut Vec<u8>, s: Sign) -> Result<(), NoMemory>
    ensures { OnOk result (out.new.items ≡ out.old.items ++ with_gap (sign s)) }
{
    out.extend_from_slice(sign_bytes(s))?;
    out.push(sign_gap(s))?;
    Ok(())
}

pub fn put_number(out: &mut Vec<u8>, number: u64) -> Result<(), NoMemory>
    ensures { OnOk result (out.new.items ≡ out.old.items ++ with_gap (word.Number number)) }
{
    let mut digits = Buffer::new();
    out.extend_from_slice(digits.format(number).as_bytes())?;
    out.push(b' ')?;
    Ok(())
}

/// Adds the number, behind a `-` where it is negative.
pub fn put_int(out: &mut Vec<u8>, number: i64) -> Result<(), NoMemory>
    ensures { OnOk result (out.new.items ≡ out.old.items ++ bytes_of (int_words number)) }
{
    if number < 0 {
        put_sign(out, Sign::Minus)?;
    }
    put_number(out, number.unsigned_abs())
}

fn put_quoted(out: &mut Vec<u8>, byte: u8) -> Result<(), NoMemory>
    ensures { OnOk result (out.new.items ≡ out.old.items ++ quoted byte) }
{
    if byte == b'\'' {
        out.push(b'\'')?;
    }
    out.push(byte)?;
    Ok(())
}

fn put_all_quoted(out: &mut Vec<u8>, text: &[u8]) -> Result<(), NoMemory>
    ensures { OnOk result (out.new.items ≡ out.old.items ++ flat_map quoted text.now) }
{
    for byte in text {
        put_quoted(out, *byte)?;
    }
    Ok(())
}

pub fn put_text(out: &mut Vec<u8>, text: &[u8]) -> Result<(), NoMemory>
    ensures { OnOk result (out.new.items ≡ out.old.items ++ with_gap (word.Text text.now)) }
{
    out.push(b'\'')?;
    put_all_quoted(out, text)?;
    out.push(b'\'')?;
    out.push(b' ')?;
    Ok(())
}

/// How many bytes stand up to the last one that is no blank.
pub fn kept(text: &[u8]) -> usize
    ensures same { result ≡ length_unblanked text.now }
    ensures within { result ≤ length text.now }
{
    match text {
        [] => 0,
        [byte, rest @ ..] => {
            let behind = kept(rest);
            if *byte == b' ' && behind == 0 {
                0
            } else {
                behind + 1
            }
        }
    }
}
