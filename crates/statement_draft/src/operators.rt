//! Operators of expressions: what they make of their operands, and when they are carried out.
ghost use Rattle.std.specs.Prelude.{◌≡◌, ◌+◌, IfOk, OnOk, is_some, option_map, option_and_then};
ghost use Rattle.sql_base.specs.declared.expressions.Expr.TheVariants as expr;
ghost use Rattle.statement_draft.specs.Faults.{noted};
ghost use Rattle.statement_draft.specs.Expressions.{deeper, bytes_up, of_arith, of_compare, of_truths, op_kind, op_bytes, op_tree, tree_up, binary, negation, is_wrong, joined, turned, operated, operator_ends, inside_ends, top};

use crate::draft::{Draft, NewExpression};
use crate::faults::{Reason, noted};
use crate::kinds::{Kind, Op, Operand, Operator};
use sql_base::{Expr, NoMemory, Text};
use sqlite_items::Boxed;
use std::alloc::Global;

fn deeper(a: u8, b: u8) -> u8
    ensures { result ≡ deeper a b }
{
    a.max(b).min(32) + 1
}

fn of_arith(a: Option<Kind>, b: Option<Kind>) -> Option<Kind>
    ensures { result ≡ of_arith a b }
{
    match (a, b) {
        (Some(Kind::Number), Some(Kind::Number)) => Some(Kind::Number),
        _ => None,
    }
}

fn of_compare(a: Option<Kind>, b: Option<Kind>) -> Option<Kind>
    ensures { result ≡ of_compare a b }
{
    match (a, b) {
        (Some(Kind::Number), Some(Kind::Number)) => Some(Kind::Truth),
        (Some(Kind::Text(_)), Some(Kind::Text(_))) => Some(Kind::Truth),
        _ => None,
    }
}

fn of_truths(a: Option<Kind>, b: Option<Kind>) -> Option<Kind>
    ensures { result ≡ of_truths a b }
{
    match (a, b) {
        (Some(Kind::Truth), Some(Kind::Truth)) => Some(Kind::Truth),
        _ => None,
    }
}

fn op_kind(op: Op, a: Option<Kind>, b: Option<Kind>) -> Option<Kind>
    ensures { result ≡ op_kind op a b }
{
    match op {
        Op::Arith(_) => of_arith(a, b),
        Op::Compare(_) => of_compare(a, b),
        Op::And => of_truths(a, b),
        Op::Or => of_truths(a, b),
    }
}

fn op_bytes(op: Op) -> u8
    ensures { result ≡ op_bytes op }
{
    match op {
        Op::Arith(_) => 1,
        Op::Compare(_) => 1,
        Op::And => 3,
        Op::Or => 3,
    }
}

/// The bytes of two codes and an operator, counted up to 8,193.
fn bytes_of(a: u16, b: u16, more: u8) -> u16
    ensures { result ≡ bytes_up (a + b + more) }
{
    (u32::from(a) + u32::from(b) + u32::from(more)).min(8_193) as u16
}

fn op_tree(alloc: Global, op: Op, a: Expr, b: Expr) -> Result<Expr, NoMemory>
    ensures { IfOk result (λ tree. tree ≡ op_tree op a b) }
{
    match op {
        Op::Arith(op) => Ok(Expr::Arith(op, Boxed::new(alloc, a)?, Boxed::new(alloc, b)?)),
        Op::Compare(op) => Ok(Expr::Compare(op, Boxed::new(alloc, a)?, Boxed::new(alloc, b)?)),
        Op::And => Ok(Expr::And(Boxed::new(alloc, a)?, Boxed::new(alloc, b)?)),
        Op::Or => Ok(Expr::Or(Boxed::new(alloc, a)?, Boxed::new(alloc, b)?)),
    }
}

/// The tree of an operator, where both operands have one and it isn't too deep.
fn joined_tree(
    alloc: Global,
    op: Op,
    deep: bool,
    a: Option<Expr>,
    b: Option<Expr>,
) -> Result<Option<Expr>, NoMemory>
    ensures { IfOk result (λ tree. tree ≡ tree_up deep (option_and_then (λ x. option_map (λ y. op_tree op x y) b) a)) }
{
    if deep {
        return Ok(None);
    }
    match (a, b) {
        (Some(a), Some(b)) => Ok(Some(op_tree(alloc, op, a, b)?)),
        (Some(_), None) => Ok(None),
        (None, _) => Ok(None),
    }
}

fn binary(alloc: Global, op: Op, a: Operand, b: Operand) -> Result<Operand, NoMemory>
    ensures { IfOk result (λ x. x ≡ binary op a b) }
{
    Ok(Operand {
        kind: op_kind(op, a.kind, b.kind),
        depth: deeper(a.depth, b.depth),
        code: bytes_of(a.code, b.code, op_bytes(op)),
        tree: joined_tree(alloc, op, a.depth.max(b.depth) >= 32, a.tree, b.tree)?,
    })
}

fn turned_tree(alloc: Global, deep: bool, a: Option<Expr>) -> Result<Option<Expr>, NoMemory>
    ensures { IfOk result (λ tree. tree ≡ tree_up deep (option_map (λ x. expr.Not x) a)) }
{
    if deep {
        return Ok(None);
    }
    match a {
        Some(a) => Ok(Some(Expr::Not(Boxed::new(alloc, a)?))),
        None => Ok(None),
    }
}

fn negation(alloc: Global, a: Operand) -> Result<Operand, NoMemory>
    ensures { IfOk result (λ x. x ≡ negation a) }
{
    Ok(Operand {
        kind: of_truths(a.kind, a.kind),
        depth: deeper(a.depth, a.depth),
        code: bytes_of(a.code, 0, 1),
        tree: turned_tree(alloc, a.depth >= 32, a.tree)?,
    })
}

fn is_wrong(a: Option<Kind>, b: Option<Kind>, given: Option<Kind>) -> bool
    ensures { result ≡ is_wrong a b given }
{
    a.is_some() && b.is_some() && given.is_none()
}

/// An operator between the two operands on top.
fn joined(alloc: Global, op: Op, at: u32, draft: &mut NewExpression) -> Result<(), NoMemory>
    ensures { OnOk result (draft.new ≡ joined op at draft.old.operands draft.old) }
{
    let Some(b) = draft.operands.pop() else {
        return Ok(());
    };
    let Some(a) = draft.operands.pop() else {
        return draft.operands.push(b);
    };
    let left = a.kind;
    let right = b.kind;
    let x = binary(alloc, op, a, b)?;
    draft.first = noted(
        is_wrong(left, right, x.kind),
        Reason::WrongType,
        at,
        draft.first,
    );
    draft.operands.push(x)
}

/// NOT before the operand on top.
fn turned(alloc: Global, at: u32, draft: &mut NewExpression) -> Result<(), NoMemory>
    ensures { OnOk result (draft.new ≡ turned at draft.old.operands draft.old) }
{
    let Some(a) = draft.operands.pop() else {
        return Ok(());
    };
    let kind = a.kind;
    let x = negation(alloc, a)?;
    draft.first = noted(
        is_wrong(kind, kind, x.kind),
        Reason::WrongType,
        at,
        draft.first,
    );
    draft.operands.push(x)
}

/// Applies the last operator.
pub fn operated(alloc: Global, draft: &mut NewExpression) -> Result<(), NoMemory>
    ensures { OnOk result (draft.new ≡ operated draft.old.operators draft.old) }
{
    match draft.operators.pop() {
        Some(Operator::Not(at)) => turned(alloc, at, draft),
        Some(Operator::Joins(op, at)) => joined(alloc, op, at, draft),
        None => Ok(()),
    }
}

pub fn operator_ends(alloc: Global, draft: &mut Draft) -> Result<(), NoMemory>
    ensures { OnOk result (draft.new ≡ operator_ends draft.old) }
{
    operated(alloc, &mut draft.expression)
}

pub fn inside_ends(draft: &mut Draft)
    ensures { draft.new ≡ inside_ends draft.old }
{
    draft.expression.inside = draft.expression.inside.saturating_sub(1);
}
