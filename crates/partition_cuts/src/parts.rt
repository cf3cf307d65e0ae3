//! The partition of a key.

ghost use Rattle.std.specs.Prelude.{◌≡◌, ◌≤◌, ◌<◌, length, replicate, All, true};
ghost use Rattle.std.specs.Cmp.Lexicographic.{slice_cmp};
ghost use Rattle.std.specs.Ordering.{nat_cmp};
ghost use Rattle.sql_base.specs.Keys.{key_le};
ghost use Rattle.sql_base.specs.Rows.{key_kinds, key_value, key_width, padded, width};
ghost use Rattle.sql_base.specs.Tables.{are_leading, first_key, is_literal_of};
ghost use Rattle.partition_map.specs.Map.{part_of};

use crate::firsts::key_kind;
use sql_base::{ColumnKind, Key, Row, TableDef, Value, key_number, width_of};
use std::cmp::Ordering;

/// The partition in which a key of the table lies.
pub fn part_of(table: &TableDef, key: &Key) -> u32
    requires key { All (λ c. c < length table.now.columns) table.now.key }
    requires firsts { length table.now.firsts ≤ 15 }
    requires leading { All (λ first. are_leading (key_kinds table.now) first ≡ true) table.now.firsts }
    requires long { length key.now ≡ key_width table.now }
    ensures { result ≡ part_of table.now key.now }
{
    let mut part = 0;
    for first in table.firsts.items() {
        if is_at_most(table, first, key.bytes()) {
            part += 1;
        }
    }
    part
}

/// Whether the first key that the literals give is at most the key.
fn is_at_most(table: &TableDef, first: &Row, key: &[u8]) -> bool
    requires key { All (λ c. c < length table.now.columns) table.now.key }
    requires leading { are_leading (key_kinds table.now) first.now ≡ true }
    requires long { length key.now ≡ key_width table.now }
    ensures { result ≡ key_le (first_key table.now first.now) key.now }
{
    let literals = first.values();
    let mut rest = key;
    for at in 0..literals.len() {
        let kind = key_kind(table, at);
        let (front, behind) = rest.split_at(width_of(kind));
        match compare_literal(kind, &literals[at], front) {
            Ordering::Less => return true,
            Ordering::Greater => return false,
            Ordering::Equal => rest = behind,
        }
    }
    true
}

fn compare_literal(kind: ColumnKind, literal: &Value, front: &[u8]) -> Ordering
    requires literal { is_literal_of kind literal.now ≡ true }
    requires long { length front.now ≡ width kind }
    ensures { result ≡ slice_cmp nat_cmp (key_value kind literal.now) front.now }
{
    match literal {
        Value::Int(number) => key_number(*number).as_slice().cmp(front),
        Value::Text(text) => compare_padded(text.bytes(), front),
    }
}

/// Compares a text, padded with blanks to the length of the other side.
fn compare_padded(text: &[u8], front: &[u8]) -> Ordering
    requires short { length text.now ≤ length front.now }
    ensures { result ≡ slice_cmp nat_cmp (padded (length front.now) text.now) front.now }
{
    let (start, behind) = front.split_at(text.len());
    match text.cmp(start) {
        Ordering::Less => Ordering::Less,
        Ordering::Greater => Ordering::Greater,
        Ordering::Equal => compare_blanks(behind),
    }
}

fn compare_blanks(rest: &[u8]) -> Ordering
    ensures { result ≡ slice_cmp nat_cmp (replicate (length rest.now) 32) rest.now }
{
    for byte in rest {
        match b' '.cmp(byte) {
            Ordering::Less => return Ordering::Less,
            Ordering::Greater => return Ordering::Greater,
            Ordering::Equal => {}
        }
    }
    Ordering::Equal
}
