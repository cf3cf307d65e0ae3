//! The texts that bound a column from below and from above.

ghost use Rattle.std.specs.Prelude.{◌≡◌, map, IfOk};
ghost use Rattle.range_finder.specs.Range.{best};
ghost use Rattle.sql_base.specs.Keys.{key_lt};
ghost use Rattle.key_ranges.specs.Bounds.{bound_of};
ghost use Rattle.key_ranges.specs.Texts.{better, bounding, fitting_text, kept_better, literal_text, sets, texts_of};

use crate::bounds::ColumnBound;
use sql_base::{CompareOp, Key, NoMemory, Value, append_padded, is_printable};
use std::alloc::Global;

/// An end of a range.
#[derive(Clone, Copy, Debug, PartialEq, Eq)]
pub enum Side {
    Low,
    High,
}

/// The text that bounds the column on the side, if there is one.
pub fn text_left(
    alloc: Global,
    bounds: &[ColumnBound],
    column: u8,
    width: u8,
    side: Side,
) -> Result<Option<Key>, NoMemory>
    ensures { IfOk result (λ text. text ≡ best (better side) (texts_of side column width (map bound_of bounds.now))) }
{
    let mut kept = None;
    for bound in bounds {
        let text = bounding(alloc, bound, column, width, side)?;
        kept = keep_better(kept, text, side);
    }
    Ok(kept)
}

// The text that one bound sets.
fn bounding(
    alloc: Global,
    bound: &ColumnBound,
    column: u8,
    width: u8,
    side: Side,
) -> Result<Option<Key>, NoMemory>
    ensures { IfOk result (λ text. text ≡ bounding side column width (bound_of bound.now)) }
{
    if bound.column == column {
        literal_text(alloc, bound.op, &bound.literal, width, side)
    } else {
        Ok(None)
    }
}

// The text that a comparison with the literal sets.
fn literal_text(
    alloc: Global,
    op: CompareOp,
    literal: &Value,
    width: u8,
    side: Side,
) -> Result<Option<Key>, NoMemory>
    ensures { IfOk result (λ text. text ≡ literal_text side width op literal.now) }
{
    match literal {
        Value::Int(_number) => Ok(None),
        Value::Text(text) => {
            if sets(side, op) {
                fitting_text(alloc, text.bytes(), width)
            } else {
                Ok(None)
            }
        }
    }
}

// The text, padded to the width, if it fits.
fn fitting_text(alloc: Global, text: &[u8], width: u8) -> Result<Option<Key>, NoMemory>
    ensures { IfOk result (λ found. found ≡ fitting_text width text.now) }
{
    if text.len() > width as usize || !is_printable(text) {
        return Ok(None);
    }
    let mut bytes = Vec::new(alloc);
    append_padded(&mut bytes, text, width as usize)?;
    Ok(Some(Key::from_vec(bytes)))
}

fn sets(side: Side, op: CompareOp) -> bool
    ensures { result ≡ sets side op }
{
    match side {
        Side::Low => match op {
            CompareOp::Eq => true,
            CompareOp::Ne => false,
            CompareOp::Lt => false,
            CompareOp::Le => false,
            CompareOp::Gt => true,
            CompareOp::Ge => true,
        },
        Side::High => match op {
            CompareOp::Eq => true,
            CompareOp::Ne => false,
            CompareOp::Lt => true,
            CompareOp::Le => true,
            CompareOp::Gt => false,
            CompareOp::Ge => false,
        },
    }
}

fn keep_better(kept: Option<Key>, text: Option<Key>, side: Side) -> Option<Key>
    ensures { result ≡ kept_better side kept text }
{
    match kept {
        Some(kept) => match text {
            Some(text) => Some(better(kept, text, side)),
            None => Some(kept),
        },
        None => text,
    }
}

fn better(a: Key, b: Key, side: Side) -> Key
    ensures { result ≡ better side a b }
{
    match side {
        Side::Low => { if is_below(&a, &b) { b } else { a } }
        Side::High => { if is_below(&b, &a) { b } else { a } }
    }
}

pub fn is_below(a: &Key, b: &Key) -> bool
    ensures { result ≡ key_lt a.now b.now }
{
    a.bytes().cmp(b.bytes()).is_lt()
}
