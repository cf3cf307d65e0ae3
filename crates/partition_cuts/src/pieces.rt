//! The pieces of a range.

ghost use Rattle.std.specs.Prelude.{◌≡◌, ◌≤◌, ◌<◌, ◌+◌, ◌++◌, length, replicate, All, IfOk, OnOk, option_to_list, true};
ghost use Rattle.std.specs.List.{AllByRecursion};
ghost use Rattle.sql_base.specs.Rows.{key_kinds, key_width};
ghost use Rattle.sql_base.specs.Tables.{are_leading};
ghost use Rattle.sql_base.specs.Keys.{key_max, key_min};
ghost use Rattle.partition_map.specs.Map.{cut, high_of, low_of, piece_of};

use crate::below::just_below;
use crate::firsts::{first_key, key_width};
use partition_map::Piece;
use sql_base::{Key, KeyRange, List, NoMemory, TableDef};
use std::alloc::Global;

/// The pieces of a range, in rising partitions.
pub fn cut(alloc: Global, table: &TableDef, range: &KeyRange) -> Result<List<Piece>, NoMemory>
    requires key { All (λ c. c < length table.now.columns) table.now.key }
    requires key_bytes { key_width table.now ≤ 32 }
    requires firsts { length table.now.firsts ≤ 15 }
    requires leading { All (λ first. are_leading (key_kinds table.now) first ≡ true) table.now.firsts }
    ensures { IfOk result (λ pieces. pieces ≡ cut table.now range.now) }
{
    let mut pieces = List::new(alloc);
    for part in 0..table.firsts.items().len() + 1 {
        let piece = piece_of(alloc, table, range, part)?;
        append(&mut pieces, piece)?;
    }
    Ok(pieces)
}

fn append(pieces: &mut List<Piece>, piece: Option<Piece>) -> Result<(), NoMemory>
    ensures { OnOk result (pieces.new ≡ pieces.old ++ option_to_list piece) }
{
    match piece {
        Some(piece) => pieces.push(piece),
        None => Ok(()),
    }
}

/// The piece of the range in a partition, if there is one.
fn piece_of(
    alloc: Global,
    table: &TableDef,
    range: &KeyRange,
    part: usize,
) -> Result<Option<Piece>, NoMemory>
    requires key { All (λ c. c < length table.now.columns) table.now.key }
    requires key_bytes { key_width table.now ≤ 32 }
    requires part { part ≤ length table.now.firsts }
    requires firsts { length table.now.firsts ≤ 15 }
    requires leading { All (λ first. are_leading (key_kinds table.now) first ≡ true) table.now.firsts }
    ensures { IfOk result (λ piece. piece ≡ piece_of table.now range.now part) }
{
    let low = greater(alloc, &range.low, low_of(alloc, table, part)?)?;
    let high = lesser(alloc, &range.high, high_of(alloc, table, part)?)?;
    if low.bytes().cmp(high.bytes()).is_le() {
        Ok(Some(Piece {
            part: part as u32,
            range: KeyRange { low, high },
        }))
    } else {
        Ok(None)
    }
}

fn greater(alloc: Global, own: &Key, other: Key) -> Result<Key, NoMemory>
    ensures { IfOk result (λ key. key ≡ key_max own.now other) }
{
    if own.bytes().cmp(other.bytes()).is_lt() {
        Ok(other)
    } else {
        Ok(own.clone()?)
    }
}

fn lesser(alloc: Global, own: &Key, other: Key) -> Result<Key, NoMemory>
    ensures { IfOk result (λ key. key ≡ key_min own.now other) }
{
    if other.bytes().cmp(own.bytes()).is_lt() {
        Ok(other)
    } else {
        Ok(own.clone()?)
    }
}

fn low_of(alloc: Global, table: &TableDef, part: usize) -> Result<Key, NoMemory>
    requires part { part ≤ length table.now.firsts }
    requires key { All (λ c. c < length table.now.columns) table.now.key }
    requires key_bytes { key_width table.now ≤ 32 }
    requires leading { All (λ first. are_leading (key_kinds table.now) first ≡ true) table.now.firsts }
    ensures { IfOk result (λ key. key ≡ low_of table.now part) }
{
    if part == 0 {
        filled(alloc, key_width(table), 0x00)
    } else {
        first_key(alloc, table, &table.firsts.items()[part - 1])
    }
}

fn high_of(alloc: Global, table: &TableDef, part: usize) -> Result<Key, NoMemory>
    requires key { All (λ c. c < length table.now.columns) table.now.key }
    requires key_bytes { key_width table.now ≤ 32 }
    requires leading { All (λ first. are_leading (key_kinds table.now) first ≡ true) table.now.firsts }
    ensures { IfOk result (λ key. key ≡ high_of table.now part) }
{
    match table.firsts.items().get(part) {
        Some(first) => {
            let mut bytes = first_key(alloc, table, first)?.bytes().to_vec(alloc)?;
            just_below(&mut bytes);
            Ok(Key::from_vec(bytes))
        }
        None => filled(alloc, key_width(table), 0xFF),
    }
}

/// So many of a byte.
pub fn filled(alloc: Global, width: usize, byte: u8) -> Result<Key, NoMemory>
    ensures { IfOk result (λ key. key ≡ replicate width byte) }
{
    let mut bytes = Vec::new(alloc);
    for _ in 0..width {
        bytes.push(byte)?;
    }
    Ok(Key::from_vec(bytes))
}
