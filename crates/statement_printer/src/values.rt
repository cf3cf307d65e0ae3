//! The bytes of values and of the names of columns.
ghost use Rattle.std.specs.Prelude.{◌≡◌, ◌++◌, ◌∷◌, [], OnOk, flat_map};
ghost use Rattle.statement_words.specs.declared.tokens.Sign.TheVariants as signs;
ghost use Rattle.statement_printer.specs.Bytes.{bytes_of};
ghost use Rattle.statement_printer.specs.Printing.{column_words, first_words, literal_words, row_words, sign, value_words, with_commas};

use crate::words::{kept, put_int, put_name, put_sign, put_text};
use sql_base::{Column, NoMemory, Row, Value};
use statement_words::Sign;

/// Adds the name of the column at a place.
pub fn put_column(out: &mut Vec<u8>, columns: &[Column], place: u8) -> Result<(), NoMemory>
    ensures { OnOk result (out.new.items ≡ out.old.items ++ bytes_of (column_words columns.now place)) }
{
    match columns.get(place as usize) {
        Some(column) => put_name(out, column.name.bytes()),
        None => put_name(out, &[]),
    }
}

fn put_another_column(out: &mut Vec<u8>, columns: &[Column], place: u8) -> Result<(), NoMemory>
    ensures { OnOk result (out.new.items ≡ out.old.items ++ bytes_of (sign signs.Comma ∷ column_words columns.now place)) }
{
    put_sign(out, Sign::Comma)?;
    put_column(out, columns, place)
}

fn put_other_columns(out: &mut Vec<u8>, columns: &[Column], places: &[u8]) -> Result<(), NoMemory>
    ensures { OnOk result (out.new.items ≡ out.old.items ++ bytes_of (flat_map (λ x. sign signs.Comma ∷ column_words columns.now x) places.now)) }
{
    for place in places {
        put_another_column(out, columns, *place)?;
    }
    Ok(())
}

/// Adds the names of the columns at these places.
pub fn put_columns(out: &mut Vec<u8>, columns: &[Column], places: &[u8]) -> Result<(), NoMemory>
    ensures { OnOk result (out.new.items ≡ out.old.items ++ bytes_of (with_commas (column_words columns.now) places.now)) }
{
    match places {
        [] => Ok(()),
        [place, rest @ ..] => {
            put_column(out, columns, *place)?;
            put_other_columns(out, columns, rest)
        }
    }
}

fn put_literal(out: &mut Vec<u8>, value: &Value) -> Result<(), NoMemory>
    ensures { OnOk result (out.new.items ≡ out.old.items ++ bytes_of (literal_words value.now)) }
{
    match value {
        Value::Int(number) => put_int(out, *number),
        Value::Text(text) => put_text(out, text.bytes()),
    }
}

fn put_another_literal(out: &mut Vec<u8>, value: &Value) -> Result<(), NoMemory>
    ensures { OnOk result (out.new.items ≡ out.old.items ++ bytes_of (sign signs.Comma ∷ literal_words value.now)) }
{
    put_sign(out, Sign::Comma)?;
    put_literal(out, value)
}

fn put_another_literals(out: &mut Vec<u8>, values: &[Value]) -> Result<(), NoMemory>
    ensures { OnOk result (out.new.items ≡ out.old.items ++ bytes_of (flat_map (λ x. sign signs.Comma ∷ literal_words x) values.now)) }
{
    for value in values {
        put_another_literal(out, value)?;
    }
    Ok(())
}

fn put_literals(out: &mut Vec<u8>, values: &[Value]) -> Result<(), NoMemory>
    ensures { OnOk result (out.new.items ≡ out.old.items ++ bytes_of (with_commas literal_words values.now)) }
{
    match values {
        [] => Ok(()),
        [value, rest @ ..] => {
            put_literal(out, value)?;
            put_another_literals(out, rest)
        }
    }
}

/// Adds a row of FIRST KEY.
#[tactic(auto, unfolding(crate::specs::Printing::first_words))]
pub fn put_first(out: &mut Vec<u8>, row: &Row) -> Result<(), NoMemory>
    ensures { OnOk result (out.new.items ≡ out.old.items ++ bytes_of (first_words row.now)) }
{
    put_sign(out, Sign::Open)?;
    put_literals(out, row.values())?;
    put_sign(out, Sign::Close)
}

fn put_value(out: &mut Vec<u8>, value: &Value) -> Result<(), NoMemory>
    ensures { OnOk result (out.new.items ≡ out.old.items ++ bytes_of (value_words value.now)) }
{
    match value {
        Value::Int(number) => put_int(out, *number),
        Value::Text(text) => {
            let bytes = text.bytes();
            put_text(out, &bytes[..kept(bytes)])
        }
    }
}

fn put_another_value(out: &mut Vec<u8>, value: &Value) -> Result<(), NoMemory>
    ensures { OnOk result (out.new.items ≡ out.old.items ++ bytes_of (sign signs.Comma ∷ value_words value.now)) }
{
    put_sign(out, Sign::Comma)?;
    put_value(out, value)
}

fn put_another_values(out: &mut Vec<u8>, values: &[Value]) -> Result<(), NoMemory>
    ensures { OnOk result (out.new.items ≡ out.old.items ++ bytes_of (flat_map (λ x. sign signs.Comma ∷ value_words x) values.now)) }
{
    for value in values {
        put_another_value(out, value)?;
    }
    Ok(())
}

fn put_values(out: &mut Vec<u8>, values: &[Value]) -> Result<(), NoMemory>
    ensures { OnOk result (out.new.items ≡ out.old.items ++ bytes_of (with_commas value_words values.now)) }
{
    match values {
        [] => Ok(()),
        [value, rest @ ..] => {
            put_value(out, value)?;
            put_another_values(out, rest)
        }
    }
}

/// Adds a row of LOAD or INSERT.
#[tactic(auto, unfolding(crate::specs::Printing::row_words))]
pub fn put_row(out: &mut Vec<u8>, row: &Row) -> Result<(), NoMemory>
    ensures { OnOk result (out.new.items ≡ out.old.items ++ bytes_of (row_words row.now)) }
{
    put_sign(out, Sign::Open)?;
    put_values(out, row.values())?;
    put_sign(out, Sign::Close)
}
