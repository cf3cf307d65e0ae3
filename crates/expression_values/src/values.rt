//! The value of an expression on a row, evaluated along its tree.

ghost use Rattle.std.specs.Prelude.{◌≡◌, Ok, slice_get};
ghost use Rattle.sql_base.specs.Val.{column_item, compared, computed, val};
ghost use Rattle.expression_values.specs.Values.{item_in, outcome_in};

use sql_base::{ArithOp, CompareOp, EvalFault, Expr, Value, compare_texts, compute, holds};

/// What an expression gives: a number, a text of the expression or the row, a truth value, or nothing where its
/// operands are of wrong kinds.
#[derive(Clone, Copy, Debug)]
pub enum Item<'a> {
    Number(i64),
    Text(&'a [u8]),
    Truth(bool),
    Nothing,
}

fn calculated<'a>(op: ArithOp, a: Item<'a>, b: Item<'a>) -> Result<Item<'a>, EvalFault>
    ensures { outcome_in result ≡ computed op (item_in a.entry) (item_in b.entry) }
{
    match a {
        Item::Number(x) => match b {
            Item::Number(y) => match compute(op, x, y) {
                Ok(number) => Ok(Item::Number(number)),
                Err(fault) => Err(fault),
            },
            Item::Text(_) => Ok(Item::Nothing),
            Item::Truth(_) => Ok(Item::Nothing),
            Item::Nothing => Ok(Item::Nothing),
        },
        Item::Text(_) => Ok(Item::Nothing),
        Item::Truth(_) => Ok(Item::Nothing),
        Item::Nothing => Ok(Item::Nothing),
    }
}

/// What a comparison of two items gives.
pub fn compared<'a>(op: CompareOp, a: Item<'a>, b: Item<'a>) -> Result<Item<'a>, EvalFault>
    ensures { outcome_in result ≡ compared op (item_in a.entry) (item_in b.entry) }
{
    match a {
        Item::Number(x) => match b {
            Item::Number(y) => Ok(Item::Truth(holds(op, x.cmp(&y)))),
            Item::Text(_) => Ok(Item::Nothing),
            Item::Truth(_) => Ok(Item::Nothing),
            Item::Nothing => Ok(Item::Nothing),
        },
        Item::Text(x) => match b {
            Item::Number(_) => Ok(Item::Nothing),
            Item::Text(y) => Ok(Item::Truth(holds(op, compare_texts(x, y)))),
            Item::Truth(_) => Ok(Item::Nothing),
            Item::Nothing => Ok(Item::Nothing),
        },
        Item::Truth(_) => Ok(Item::Nothing),
        Item::Nothing => Ok(Item::Nothing),
    }
}

fn column_value<'a>(row: &'a [Value], column: u8) -> Item<'a>
    ensures { Ok (item_in result) ≡ column_item (slice_get row.now column) }
{
    match row.get(column as usize) {
        Some(Value::Int(number)) => Item::Number(*number),
        Some(Value::Text(text)) => Item::Text(text.bytes()),
        None => Item::Nothing,
    }
}

/// The value of the expression on the row, or its fault. Operands are evaluated from left to right; AND stops at a
/// false left side, OR at a true one.
pub fn value<'a>(expr: &'a Expr, row: &'a [Value]) -> Result<Item<'a>, EvalFault>
    ensures { outcome_in result ≡ val expr.now row.now }
{
    match expr {
        Expr::Number(number) => Ok(Item::Number(*number)),
        Expr::Text(text) => Ok(Item::Text(text.bytes())),
        Expr::Column(column) => Ok(column_value(row, *column)),
        Expr::Arith(op, a, b) => {
            let left = value(a.get(), row)?;
            let right = value(b.get(), row)?;
            calculated(*op, left, right)
        }
        Expr::Compare(op, a, b) => {
            let left = value(a.get(), row)?;
            let right = value(b.get(), row)?;
            compared(*op, left, right)
        }
        Expr::And(a, b) => match value(a.get(), row)? {
            Item::Truth(true) => value(b.get(), row),
            Item::Truth(false) => Ok(Item::Truth(false)),
            Item::Number(_) => Ok(Item::Nothing),
            Item::Text(_) => Ok(Item::Nothing),
            Item::Nothing => Ok(Item::Nothing),
        },
        Expr::Or(a, b) => match value(a.get(), row)? {
            Item::Truth(false) => value(b.get(), row),
            Item::Truth(true) => Ok(Item::Truth(true)),
            Item::Number(_) => Ok(Item::Nothing),
            Item::Text(_) => Ok(Item::Nothing),
            Item::Nothing => Ok(Item::Nothing),
        },
        Expr::Not(a) => match value(a.get(), row)? {
            Item::Truth(truth) => Ok(Item::Truth(!truth)),
            Item::Number(_) => Ok(Item::Nothing),
            Item::Text(_) => Ok(Item::Nothing),
            Item::Nothing => Ok(Item::Nothing),
        },
    }
}
