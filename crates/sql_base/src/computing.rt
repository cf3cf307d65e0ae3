//! Numbers computed and values compared, as expressions do it.

ghost use Rattle.std.specs.Prelude.{◌≡◌, slice_index_or};
ghost use Rattle.sql_base.specs.Val.{arith, holds, number_in, or_overflow, text_cmp};

use crate::expressions::{ArithOp, CompareOp};
use crate::faults::EvalFault;
use std::cmp::Ordering;

fn or_overflow(number: Option<i64>) -> Result<i64, EvalFault>
    ensures { result ≡ or_overflow number }
{
    match number {
        Some(number) => Ok(number),
        None => Err(EvalFault::Overflow),
    }
}

/// The number that two make: Overflow where it has no 64 bits, ZeroDivide for a division by 0, which goes toward zero.
pub fn compute(op: ArithOp, x: i64, y: i64) -> Result<i64, EvalFault>
    ensures { number_in result ≡ arith op x y }
{
    match op {
        ArithOp::Add => or_overflow(x.checked_add(y)),
        ArithOp::Sub => or_overflow(x.checked_sub(y)),
        ArithOp::Mul => or_overflow(x.checked_mul(y)),
        ArithOp::Div => {
            if y == 0 {
                Err(EvalFault::ZeroDivide)
            } else {
                or_overflow(x.checked_div(y))
            }
        }
    }
}

/// Whether the comparison holds of values in this order.
pub fn holds(op: CompareOp, order: Ordering) -> bool
    ensures { result ≡ holds op order }
{
    match op {
        CompareOp::Eq => order.is_eq(),
        CompareOp::Ne => order.is_ne(),
        CompareOp::Lt => order.is_lt(),
        CompareOp::Le => order.is_le(),
        CompareOp::Gt => order.is_gt(),
        CompareOp::Ge => order.is_ge(),
    }
}

fn byte_or_blank(text: &[u8], at: usize) -> u8
    ensures { result ≡ slice_index_or text.now at 32 }
{
    if at < text.len() { text[at] } else { b' ' }
}

/// The order of two texts, the shorter one padded with blanks.
pub fn compare_texts(a: &[u8], b: &[u8]) -> Ordering
    ensures { result ≡ text_cmp a.now b.now }
{
    let common = a.len().max(b.len());
    for i in 0..common {
        let x = byte_or_blank(a, i);
        let y = byte_or_blank(b, i);
        if x != y {
            return x.cmp(&y);
        }
    }
    Ordering::Equal
}
