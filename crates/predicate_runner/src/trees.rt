//! Expressions made of their operands.

ghost use Rattle.std.specs.Prelude.{◌≡◌, IfOk};
ghost use Rattle.sql_base.specs.declared.expressions.Expr.TheVariants as expr;

use sql_base::{ArithOp, CompareOp, Expr, NoMemory};
use sqlite_items::Boxed;
use std::alloc::Global;

pub fn arith(alloc: Global, op: ArithOp, a: Expr, b: Expr) -> Result<Expr, NoMemory>
    ensures { IfOk result (λ e. e ≡ expr.Arith op a b) }
{
    Ok(Expr::Arith(op, Boxed::new(alloc, a)?, Boxed::new(alloc, b)?))
}

pub fn compare(alloc: Global, op: CompareOp, a: Expr, b: Expr) -> Result<Expr, NoMemory>
    ensures { IfOk result (λ e. e ≡ expr.Compare op a b) }
{
    Ok(Expr::Compare(op, Boxed::new(alloc, a)?, Boxed::new(alloc, b)?))
}

pub fn and(alloc: Global, a: Expr, b: Expr) -> Result<Expr, NoMemory>
    ensures { IfOk result (λ e. e ≡ expr.And a b) }
{
    Ok(Expr::And(Boxed::new(alloc, a)?, Boxed::new(alloc, b)?))
}

pub fn or(alloc: Global, a: Expr, b: Expr) -> Result<Expr, NoMemory>
    ensures { IfOk result (λ e. e ≡ expr.Or a b) }
{
    Ok(Expr::Or(Boxed::new(alloc, a)?, Boxed::new(alloc, b)?))
}

pub fn not(alloc: Global, a: Expr) -> Result<Expr, NoMemory>
    ensures { IfOk result (λ e. e ≡ expr.Not a) }
{
    Ok(Expr::Not(Boxed::new(alloc, a)?))
}
