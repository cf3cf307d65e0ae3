//! What bounds leave of one key column, as bytes of a key.

ghost use Rattle.std.specs.Prelude.{◌≡◌, ◌≤ℤ◌, ◌-◌, ◌^◌, ◌++◌, map, negsuc, pos, replicate, unwrap_or, IfOk, OnOk};
ghost use Rattle.range_finder.specs.Range.{on_both};
ghost use Rattle.sql_base.specs.Keys.{key_eq, key_lt};
ghost use Rattle.sql_base.specs.Rows.{key_value};
ghost use Rattle.sql_base.specs.declared.tables.ColumnKind.TheVariants.{Int, Char};
ghost use Rattle.sql_base.specs.declared.values.Value.TheVariants as value;
ghost use Rattle.key_ranges.specs.Bounds.{bound_of};
ghost use Rattle.key_ranges.specs.Spans.{span_left};

use crate::bounds::ColumnBound;
use crate::numbers::numbers_left;
use crate::texts::{Side, is_below, text_left};
use sql_base::{ColumnKind, Key, NoMemory, Value, append_key_value};
use std::alloc::Global;

/// The bytes of a key column from low to high, and whether that is one value.
#[derive(Drop)]
pub struct Span {
    pub low: Key,
    pub high: Key,
    pub is_one: bool,
}

/// What the bounds leave of the column, or none where that is nothing.
pub fn span_left(
    alloc: Global,
    bounds: &[ColumnBound],
    column: u8,
    kind: ColumnKind,
) -> Result<Option<Span>, NoMemory>
    ensures { IfOk result (λ span. span ≡ span_left (map bound_of bounds.now) column kind) }
{
    match kind {
        ColumnKind::Int => number_span(alloc, bounds, column),
        ColumnKind::Char(width) => text_span(alloc, bounds, column, width),
    }
}

fn number_span(alloc: Global, bounds: &[ColumnBound], column: u8) -> Result<Option<Span>, NoMemory>
    ensures { IfOk result (λ span. span ≡ span_left (map bound_of bounds.now) column Int) }
{
    let left = numbers_left(bounds, column);
    if left.is_empty() {
        return Ok(None);
    }
    Ok(Some(Span {
        low: number_key(alloc, left.low)?,
        high: number_key(alloc, left.high)?,
        is_one: left.is_one(),
    }))
}

fn number_key(alloc: Global, number: i128) -> Result<Key, NoMemory>
    requires least { negsuc (2 ^ 63 - 1) ≤ℤ number }
    requires greatest { number ≤ℤ pos (2 ^ 63 - 1) }
    ensures { IfOk result (λ key. key ≡ key_value Int (value.Int number)) }
{
    let mut key = Vec::new(alloc);
    append_key_value(&mut key, ColumnKind::Int, &Value::Int(number as i64))?;
    Ok(Key::from_vec(key))
}

fn text_span(
    alloc: Global,
    bounds: &[ColumnBound],
    column: u8,
    width: u8,
) -> Result<Option<Span>, NoMemory>
    ensures { IfOk result (λ span. span ≡ span_left (map bound_of bounds.now) column (Char width)) }
{
    let low = text_left(alloc, bounds, column, width, Side::Low)?;
    let high = text_left(alloc, bounds, column, width, Side::High)?;
    if are_crossed(&low, &high) {
        return Ok(None);
    }
    let is_one = are_one(&low, &high);
    Ok(Some(Span {
        low: or_filled(alloc, low, width as usize, 0x00)?,
        high: or_filled(alloc, high, width as usize, 0xFF)?,
        is_one,
    }))
}

fn are_crossed(low: &Option<Key>, high: &Option<Key>) -> bool
    ensures { result ≡ on_both (λ l h. key_lt h l) low.now high.now }
{
    match low {
        Some(low) => match high {
            Some(high) => is_below(high, low),
            None => false,
        },
        None => false,
    }
}

fn are_one(low: &Option<Key>, high: &Option<Key>) -> bool
    ensures { result ≡ on_both key_eq low.now high.now }
{
    match low {
        Some(low) => match high {
            Some(high) => low.bytes().cmp(high.bytes()).is_eq(),
            None => false,
        },
        None => false,
    }
}

fn or_filled(alloc: Global, key: Option<Key>, width: usize, byte: u8) -> Result<Key, NoMemory>
    ensures { IfOk result (λ found. found ≡ unwrap_or key (replicate width byte)) }
{
    match key {
        Some(key) => Ok(key),
        None => {
            let mut bytes = Vec::new(alloc);
            fill(&mut bytes, width, byte)?;
            Ok(Key::from_vec(bytes))
        }
    }
}

/// Adds so many of a byte.
pub fn fill(bytes: &mut Vec<u8>, count: usize, byte: u8) -> Result<(), NoMemory>
    ensures { OnOk result (bytes.new.items ≡ bytes.old.items ++ replicate count byte) }
{
    for _ in 0..count {
        bytes.push(byte)?;
    }
    Ok(())
}
