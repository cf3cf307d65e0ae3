//! The bounds that a predicate sets: columns compared with literals.

ghost use Rattle.std.specs.Prelude.{◌≡◌, ◌++◌, ◌∷◌, [], map, IfOk, OnOk};
ghost use Rattle.range_finder.specs.Range.{bounds_in, shape_of_compare, turned_round};
ghost use Rattle.key_ranges.specs.Bounds.{bound_of, column_in, literal_in, shape};

use sql_base::{CompareOp, Expr, List, NoMemory, Text, Value};
use std::alloc::Global;

/// A column compared with a literal, the column on the left.
#[derive(Debug, Drop)]
pub struct ColumnBound {
    pub column: u8,
    pub op: CompareOp,
    pub literal: Value,
}

/// Adds the bounds of the conjuncts at the top of an expression.
pub fn gather(alloc: Global, bounds: &mut List<ColumnBound>, expr: &Expr) -> Result<(), NoMemory>
    ensures { OnOk result (map bound_of bounds.new ≡ map bound_of bounds.old ++ bounds_in (shape expr.now)) }
{
    match expr {
        Expr::And(a, b) => {
            gather(alloc, bounds, a.get())?;
            gather(alloc, bounds, b.get())
        }
        Expr::Compare(op, a, b) => compared(alloc, bounds, *op, a.get(), b.get()),
        Expr::Number(_number) => Ok(()),
        Expr::Text(_text) => Ok(()),
        Expr::Column(_column) => Ok(()),
        Expr::Arith(_op, _a, _b) => Ok(()),
        Expr::Or(_a, _b) => Ok(()),
        Expr::Not(_a) => Ok(()),
    }
}

fn compared(
    alloc: Global,
    bounds: &mut List<ColumnBound>,
    op: CompareOp,
    left: &Expr,
    right: &Expr,
) -> Result<(), NoMemory>
    ensures { OnOk result (map bound_of bounds.new ≡ map bound_of bounds.old ++ bounds_in (shape_of_compare op (shape left.now) (shape right.now))) }
{
    match column_of(left) {
        Some(column) => match literal_of(alloc, right)? {
            Some(literal) => {
                bounds.push(ColumnBound {
                    column,
                    op,
                    literal,
                })?;
                Ok(())
            }
            None => Ok(()),
        },
        None => match column_of(right) {
            Some(column) => match literal_of(alloc, left)? {
                Some(literal) => {
                    bounds.push(ColumnBound {
                        column,
                        op: turned(op),
                        literal,
                    })?;
                    Ok(())
                }
                None => Ok(()),
            },
            None => Ok(()),
        },
    }
}

fn turned(op: CompareOp) -> CompareOp
    ensures { result ≡ turned_round op }
{
    match op {
        CompareOp::Eq => CompareOp::Eq,
        CompareOp::Ne => CompareOp::Ne,
        CompareOp::Lt => CompareOp::Gt,
        CompareOp::Le => CompareOp::Ge,
        CompareOp::Gt => CompareOp::Lt,
        CompareOp::Ge => CompareOp::Le,
    }
}

fn column_of(expr: &Expr) -> Option<u8>
    ensures { result ≡ column_in (shape expr.now) }
{
    match expr {
        Expr::Column(column) => Some(*column),
        Expr::Number(_number) => None,
        Expr::Text(_text) => None,
        Expr::Arith(_op, _a, _b) => None,
        Expr::Compare(_op, _a, _b) => None,
        Expr::And(_a, _b) => None,
        Expr::Or(_a, _b) => None,
        Expr::Not(_a) => None,
    }
}

fn literal_of(alloc: Global, expr: &Expr) -> Result<Option<Value>, NoMemory>
    ensures { IfOk result (λ literal. literal ≡ literal_in (shape expr.now)) }
{
    match expr {
        Expr::Number(number) => Ok(Some(Value::Int(*number))),
        Expr::Text(text) => Ok(Some(Value::Text(copy_of(text)?))),
        Expr::Column(_column) => Ok(None),
        Expr::Arith(_op, _a, _b) => Ok(None),
        Expr::Compare(_op, _a, _b) => Ok(None),
        Expr::And(_a, _b) => Ok(None),
        Expr::Or(_a, _b) => Ok(None),
        Expr::Not(_a) => Ok(None),
    }
}

fn copy_of(text: &Text) -> Result<Text, NoMemory>
    ensures { IfOk result (λ copy. copy ≡ text.now) }
{
    Ok(text.clone()?)
}
