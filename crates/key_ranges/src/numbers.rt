//! The numbers that bounds leave of a column.

ghost use Rattle.std.specs.Prelude.{◌≡◌, ◌≤ℤ◌, ◌-◌, ◌^◌, if◌then◌else◌, int_lt, map, fold, pos, negsuc};
ghost use Rattle.std.specs.Ordering.{int_eq};
ghost use Rattle.range_finder.specs.Range.{narrowed, at_least, at_most, number_bound, usable};
ghost use Rattle.sql_base.specs.Rows.{in_i64};
ghost use Rattle.sql_base.specs.declared.tables.ColumnKind.TheVariants.{Int};
ghost use Rattle.key_ranges.specs.Bounds.{bound_of};
ghost use Rattle.key_ranges.specs.Intervals.{all_numbers, left_of, numbers_of};

use crate::bounds::ColumnBound;
use sql_base::{CompareOp, Value};

/// The numbers from low to high; they reach one beyond 64 bits.
#[derive(Clone, Copy, Debug)]
pub struct Numbers {
    pub low: i128,
    pub high: i128,
}

impl Numbers {
    pub fn is_empty(self) -> bool
        ensures { result ≡ int_lt self.high self.low }
    {
        self.high < self.low
    }

    pub fn is_one(self) -> bool
        ensures { result ≡ int_eq self.low self.high }
    {
        self.low == self.high
    }
}

/// The numbers of a column that meet the bounds.
pub fn numbers_left(bounds: &[ColumnBound], column: u8) -> Numbers
    ensures numbers { numbers_of result ≡ fold number_bound all_numbers (usable column Int (map bound_of bounds.now)) }
    ensures low { negsuc (2 ^ 63 - 1) ≤ℤ result.low }
    ensures high { result.high ≤ℤ pos (2 ^ 63 - 1) }
{
    let mut left = Numbers {
        low: -9223372036854775808,
        high: 9223372036854775807,
    };
    for bound in bounds {
        left = narrowed_by(bound, column, left);
    }
    left
}

fn narrowed_by(bound: &ColumnBound, column: u8, i: Numbers) -> Numbers
    ensures numbers { numbers_of result ≡ left_of column (bound_of bound.now) (numbers_of i) }
    ensures low { i.low ≤ℤ result.low }
    ensures high { result.high ≤ℤ i.high }
{
    if bound.column == column {
        match &bound.literal {
            Value::Int(n) => left_by(bound.op, *n, i),
            Value::Text(_text) => i,
        }
    } else {
        i
    }
}

fn left_by(op: CompareOp, n: i64, i: Numbers) -> Numbers
    ensures numbers { numbers_of result ≡ (if in_i64 n then narrowed op n (numbers_of i) else numbers_of i) }
    ensures low { i.low ≤ℤ result.low }
    ensures high { result.high ≤ℤ i.high }
{
    narrowed(op, n as i128, i)
}

fn narrowed(op: CompareOp, n: i128, i: Numbers) -> Numbers
    requires least { negsuc (2 ^ 63) ≤ℤ n }
    requires greatest { n ≤ℤ pos (2 ^ 63) }
    ensures numbers { numbers_of result ≡ narrowed op n (numbers_of i) }
    ensures low { i.low ≤ℤ result.low }
    ensures high { result.high ≤ℤ i.high }
{
    match op {
        CompareOp::Eq => at_least(n, at_most(n, i)),
        CompareOp::Ne => i,
        CompareOp::Lt => at_most(n - 1, i),
        CompareOp::Le => at_most(n, i),
        CompareOp::Gt => at_least(n + 1, i),
        CompareOp::Ge => at_least(n, i),
    }
}

fn at_least(n: i128, i: Numbers) -> Numbers
    ensures numbers { numbers_of result ≡ at_least n (numbers_of i) }
    ensures low { i.low ≤ℤ result.low }
    ensures high { result.high ≤ℤ i.high }
{
    Numbers {
        low: if i.low < n { n } else { i.low },
        high: i.high,
    }
}

fn at_most(n: i128, i: Numbers) -> Numbers
    ensures numbers { numbers_of result ≡ at_most n (numbers_of i) }
    ensures low { i.low ≤ℤ result.low }
    ensures high { result.high ≤ℤ i.high }
{
    Numbers {
        low: i.low,
        high: if n < i.high { n } else { i.high },
    }
}
