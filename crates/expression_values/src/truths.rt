//! Whether a predicate is true on a row. Numbers and truth values are handed on by themselves, which a scan feels.

ghost use Rattle.std.specs.Prelude.{◌≡◌, IfSome, Ok, slice_get};
ghost use Rattle.sql_base.specs.Val.{both, column_item, compared, computed, filter_val, val, IsNumber, Outcome};
ghost use Rattle.expression_values.specs.Values.{outcome_in, truth_of};
ghost use Rattle.expression_values.specs.Truths.{Judges, TellsNumber};

use crate::values::{Item, compared, value};
use sql_base::{ArithOp, CompareOp, EvalFault, Expr, Value, compute, holds};

/// The number that an expression gives. It is handed on in two words.
#[derive(Clone, Copy, Debug)]
pub enum Number {
    Is(i64),
    Overflow,
    ZeroDivide,
    /// The expression isn't made of numbers alone, and nothing is known of its value.
    Other,
}

/// Whether an expression is true.
#[derive(Clone, Copy, Debug)]
pub enum Verdict {
    Is(bool),
    Fails(EvalFault),
    /// It gives no truth value.
    Other,
}

fn column_number(row: &[Value], column: u8) -> Option<i64>
    ensures { IfSome result (λ n. column_item (slice_get row.now column) ≡ Ok (IsNumber n)) }
{
    match row.get(column as usize) {
        Some(Value::Int(number)) => Some(*number),
        Some(Value::Text(_)) => None,
        None => None,
    }
}

fn made_number(op: ArithOp, x: i64, y: i64) -> Number
    ensures { TellsNumber result (computed op (IsNumber x) (IsNumber y)) }
{
    match compute(op, x, y) {
        Ok(number) => Number::Is(number),
        Err(EvalFault::Overflow) => Number::Overflow,
        Err(EvalFault::ZeroDivide) => Number::ZeroDivide,
    }
}

// What an operator makes of its operands. The fault of the left one comes first.
fn made_of(op: ArithOp, left: Number, right: Number) -> Number
    ensures { (a : Outcome) (b : Outcome) → TellsNumber left a → TellsNumber right b → TellsNumber result (both (computed op) a b) }
{
    match left {
        Number::Is(x) => match right {
            Number::Is(y) => made_number(op, x, y),
            Number::Overflow => Number::Overflow,
            Number::ZeroDivide => Number::ZeroDivide,
            Number::Other => Number::Other,
        },
        Number::Overflow => Number::Overflow,
        Number::ZeroDivide => Number::ZeroDivide,
        Number::Other => Number::Other,
    }
}

// The number of a literal or a column, which most operands are.
fn plain_number(expr: &Expr, row: &[Value]) -> Option<i64>
    ensures { IfSome result (λ n. val expr.now row.now ≡ Ok (IsNumber n)) }
{
    match expr {
        Expr::Number(number) => Some(*number),
        Expr::Column(column) => column_number(row, *column),
        Expr::Arith(_, _, _) => None,
        Expr::Text(_) => None,
        Expr::Compare(_, _, _) => None,
        Expr::And(_, _) => None,
        Expr::Or(_, _) => None,
        Expr::Not(_) => None,
    }
}

fn plain_side(expr: &Expr, row: &[Value]) -> Number
    ensures { TellsNumber result (val expr.now row.now) }
{
    match plain_number(expr, row) {
        Some(number) => Number::Is(number),
        None => Number::Other,
    }
}

// The number that an operator makes, without the detour over texts and truth values.
fn number_on(expr: &Expr, row: &[Value]) -> Number
    ensures { TellsNumber result (val expr.now row.now) }
{
    match expr {
        Expr::Arith(op, a, b) => match plain_number(a.get(), row) {
            Some(x) => match plain_number(b.get(), row) {
                Some(y) => made_number(*op, x, y),
                None => made_of(*op, plain_side(a.get(), row), number_on(b.get(), row)),
            },
            None => match plain_number(b.get(), row) {
                Some(_) => made_of(*op, number_on(a.get(), row), plain_side(b.get(), row)),
                None => made_of(*op, number_on(a.get(), row), number_on(b.get(), row)),
            },
        },
        Expr::Number(_) => Number::Other,
        Expr::Column(_) => Number::Other,
        Expr::Text(_) => Number::Other,
        Expr::Compare(_, _, _) => Number::Other,
        Expr::And(_, _) => Number::Other,
        Expr::Or(_, _) => Number::Other,
        Expr::Not(_) => Number::Other,
    }
}

fn verdict_in(came: Result<Item<'_>, EvalFault>) -> Verdict
    ensures { Judges result (outcome_in came.entry) }
{
    match came {
        Ok(Item::Truth(truth)) => Verdict::Is(truth),
        Ok(Item::Number(_)) => Verdict::Other,
        Ok(Item::Text(_)) => Verdict::Other,
        Ok(Item::Nothing) => Verdict::Other,
        Err(fault) => Verdict::Fails(fault),
    }
}

#[inline(never)]
fn verdict_on(expr: &Expr, row: &[Value]) -> Verdict
    ensures { Judges result (val expr.now row.now) }
{
    verdict_in(value(expr, row))
}

#[inline(never)]
fn compare_items(op: CompareOp, a: &Expr, b: &Expr, row: &[Value]) -> Verdict
    ensures { Judges result (both (compared op) (val a.now row.now) (val b.now row.now)) }
{
    match value(a, row) {
        Ok(left) => match value(b, row) {
            Ok(right) => verdict_in(compared(op, left, right)),
            Err(fault) => Verdict::Fails(fault),
        },
        Err(fault) => Verdict::Fails(fault),
    }
}

// The number of an expression, of which most are plain.
fn side(expr: &Expr, row: &[Value]) -> Number
    ensures { TellsNumber result (val expr.now row.now) }
{
    match plain_number(expr, row) {
        Some(number) => Number::Is(number),
        None => number_on(expr, row),
    }
}

/// The value of the expression on the row, found as a number where it is made of numbers alone.
pub fn value_on<'a>(expr: &'a Expr, row: &'a [Value]) -> Result<Item<'a>, EvalFault>
    ensures { outcome_in result ≡ val expr.now row.now }
{
    match side(expr, row) {
        Number::Is(number) => Ok(Item::Number(number)),
        Number::Overflow => Err(EvalFault::Overflow),
        Number::ZeroDivide => Err(EvalFault::ZeroDivide),
        Number::Other => value(expr, row),
    }
}

// A comparison. What isn't made of numbers alone is compared by its values.
fn compare(op: CompareOp, a: &Expr, b: &Expr, row: &[Value]) -> Verdict
    ensures { Judges result (both (compared op) (val a.now row.now) (val b.now row.now)) }
{
    match side(a, row) {
        Number::Is(x) => match side(b, row) {
            Number::Is(y) => Verdict::Is(holds(op, x.cmp(&y))),
            Number::Overflow => Verdict::Fails(EvalFault::Overflow),
            Number::ZeroDivide => Verdict::Fails(EvalFault::ZeroDivide),
            Number::Other => compare_items(op, a, b, row),
        },
        Number::Overflow => Verdict::Fails(EvalFault::Overflow),
        Number::ZeroDivide => Verdict::Fails(EvalFault::ZeroDivide),
        Number::Other => compare_items(op, a, b, row),
    }
}

// Whether the expression is true on the row.
fn judge(expr: &Expr, row: &[Value]) -> Verdict
    ensures { Judges result (val expr.now row.now) }
{
    match expr {
        Expr::Compare(op, a, b) => compare(*op, a.get(), b.get(), row),
        Expr::And(a, b) => match judge(a.get(), row) {
            Verdict::Is(true) => judge(b.get(), row),
            Verdict::Is(false) => Verdict::Is(false),
            Verdict::Fails(fault) => Verdict::Fails(fault),
            Verdict::Other => Verdict::Other,
        },
        Expr::Or(a, b) => match judge(a.get(), row) {
            Verdict::Is(false) => judge(b.get(), row),
            Verdict::Is(true) => Verdict::Is(true),
            Verdict::Fails(fault) => Verdict::Fails(fault),
            Verdict::Other => Verdict::Other,
        },
        Expr::Not(a) => match judge(a.get(), row) {
            Verdict::Is(truth) => Verdict::Is(!truth),
            Verdict::Fails(fault) => Verdict::Fails(fault),
            Verdict::Other => Verdict::Other,
        },
        Expr::Number(_) => Verdict::Other,
        Expr::Text(_) => Verdict::Other,
        Expr::Column(_) => Verdict::Other,
        Expr::Arith(_, _, _) => verdict_on(expr, row),
    }
}

/// Whether the expression is true on the row, or its fault. What is no truth value isn't true.
pub fn is_true(expr: &Expr, row: &[Value]) -> Result<bool, EvalFault>
    ensures { result ≡ truth_of (val expr.now row.now) }
{
    match judge(expr, row) {
        Verdict::Is(truth) => Ok(truth),
        Verdict::Fails(fault) => Err(fault),
        Verdict::Other => Ok(false),
    }
}

/// Whether the predicate is true on the row, or its fault. An absent one is true.
pub fn truth(filter: &Option<Expr>, row: &[Value]) -> Result<bool, EvalFault>
    ensures { result ≡ truth_of (filter_val filter.now row.now) }
{
    match filter {
        None => Ok(true),
        Some(expr) => is_true(expr, row),
    }
}
