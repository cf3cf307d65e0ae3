//! Bytes verified as the code of an expression.

ghost use Rattle.std.specs.Prelude.{◌≡◌, ◌≢◌, ◌<◌, ◌≤◌, ◌-◌, length, Some, None, Err, IfOk, if◌then◌else◌};
ghost use Rattle.sql_base.specs.Codes.{code_of};
ghost use Rattle.sql_base.specs.Kinds.{Kind, IsExpr};
ghost use Rattle.sql_base.specs.declared.expressions.Expr.{Expr};
ghost use Rattle.sql_base.specs.declared.expressions.Expr.TheVariants as expr;
ghost use Rattle.predicate_codes.specs.Decoding.{decoded};
ghost use Rattle.predicate_runner.specs.Outlines.{kind_in, operand_in};
ghost use Rattle.predicate_runner.specs.Stepping.{Steps, stepped};

use crate::kinds::{ExprKind, Operand, fit, of_truths};
use crate::steps::{
    CodeFault, counted_in, pop, push, step_arith, step_column, step_compare, step_not, step_number,
    step_text,
};
use crate::trees;
use predicate_codes::{Opcode, opcode_of};
use sql_base::{Code, Expr, NoMemory, TableDef};
use std::alloc::Global;
use std::marker::Model;

// What AND, or else OR, makes of its operands.
fn joined(alloc: Global, is_and: bool, a: Expr, b: Expr) -> Result<Expr, NoMemory>
    ensures { IfOk result (λ e. e ≡ (if is_and then expr.And a b else expr.Or a b)) }
{
    if is_and {
        trees::and(alloc, a, b)
    } else {
        trees::or(alloc, a, b)
    }
}

// AND, or else OR. The right code is read by itself.
#[cycle(reading)]
fn step_right(
    alloc: Global,
    is_and: bool,
    behind: &[u8],
    table: &TableDef,
    room: u32,
    stack: &mut Vec<Operand>,
) -> Result<usize, CodeFault>
    requires { 0 < room }
    ensures ok { IfOk result (λ skip. Steps table.now room (if is_and then Opcode.DoAnd else Opcode.DoOr) behind.now stack.old.items stack.new.items skip) }
    ensures bad { result ≡ Err CodeFault.BadCode → stepped table.now room (if is_and then Opcode.DoAnd else Opcode.DoOr) behind.now stack.old.items ≡ None }
{
    let Some(a) = pop(stack) else {
        return Err(CodeFault::BadCode);
    };
    let Some(right) = counted_in(behind) else {
        return Err(CodeFault::BadCode);
    };
    let b = decoded(alloc, right, table, room - 1)?;
    let kind = of_truths(Some(a.kind), Some(b.kind));
    let below = a.depth.max(b.depth);
    let tree = joined(alloc, is_and, a.tree, b.tree)?;
    push(stack, fit(tree, kind, below, room))?;
    Ok(right.len() + 2)
}

#[cycle(reading)]
fn step(
    alloc: Global,
    op: Opcode,
    behind: &[u8],
    table: &TableDef,
    room: u32,
    stack: &mut Vec<Operand>,
) -> Result<usize, CodeFault>
    requires { 0 < room }
    ensures ok { IfOk result (λ skip. Steps table.now room op behind.now stack.old.items stack.new.items skip) }
    ensures bad { result ≡ Err CodeFault.BadCode → stepped table.now room op behind.now stack.old.items ≡ None }
{
    match op {
        Opcode::PushNumber => step_number(behind, table, room, stack),
        Opcode::PushText => step_text(alloc, behind, table, room, stack),
        Opcode::PushColumn => step_column(behind, table, room, stack),
        Opcode::DoArith(op) => step_arith(alloc, op, behind, table, room, stack),
        Opcode::DoCompare(op) => step_compare(alloc, op, behind, table, room, stack),
        Opcode::DoAnd => step_right(alloc, true, behind, table, room, stack),
        Opcode::DoOr => step_right(alloc, false, behind, table, room, stack),
        Opcode::DoNot => step_not(alloc, behind, table, room, stack),
    }
}

// The expression whose code the bytes are, well typed and at most as deep as there is room.
#[cycle(reading)]
fn decoded(alloc: Global, code: &[u8], table: &TableDef, room: u32) -> Result<Operand, CodeFault>
    ensures ok { IfOk result (λ o. decoded table.now room code.now ≡ Some (operand_in o)) }
    ensures bad { result ≡ Err CodeFault.BadCode → decoded table.now room code.now ≡ None }
{
    if room == 0 {
        return Err(CodeFault::BadCode);
    }
    let mut stack = Vec::new(alloc);
    let mut rest = code;
    while let Some((byte, behind)) = rest.split_first() {
        let Some(op) = opcode_of(*byte) else {
            return Err(CodeFault::BadCode);
        };
        let skip = step(alloc, op, behind, table, room, &mut stack)?;
        rest = &behind[skip..];
    }
    let Some(last) = pop(&mut stack) else {
        return Err(CodeFault::BadCode);
    };
    if stack.is_empty() {
        Ok(last)
    } else {
        Err(CodeFault::BadCode)
    }
}

/// The verified code of an expression with the tree that was read from it. Contracts see that expression with its kind.
#[derive(Debug, Drop)]
pub struct Verified {
    code: Code,
    tree: Expr,
    kind: ExprKind,
}

impl Model for Verified {
    ghost use Rattle.std.specs.Prelude.{◌≡◌};
    ghost use Rattle.sql_base.specs.Codes.{code_of};
    ghost use Rattle.predicate_runner.specs.Outlines.{Checked, kind_in};
    ghost use Rattle.sql_base.specs.contracts.expressions.Expr as e;
    ghost use Rattle.std.specs.Coded.{codes};

    ghost Value = { Checked };

    ghost coded = { Prim.hlevel (codes, e.the_row.coded) };

    ghost view = { λ v. record { tree = v.tree; kind = kind_in v.kind } };

    ghost invariant = { λ v. v.code ≡ code_of v.tree };
}

impl Verified {
    pub fn kind(&self) -> ExprKind
        ensures { kind_in result ≡ self.now.kind }
    {
        self.kind
    }

    pub fn code(&self) -> &[u8]
        ensures { result.now ≡ code_of self.now.tree }
    {
        self.code.bytes()
    }

    pub fn tree(&self) -> &Expr
        ensures { result.now ≡ self.now.tree }
    {
        &self.tree
    }
}

/// The bytes as the code of an expression, exactly where they are the code of a well-typed one within the limits.
pub fn verify(alloc: Global, code: &[u8], table: &TableDef) -> Result<Verified, CodeFault>
    ensures verified { IfOk result (λ v. IsExpr table.now v.kind v.tree × (code.now ≡ code_of v.tree)) }
    ensures bad_code { result ≡ Err CodeFault.BadCode → (kind : Kind) (e : Expr) → IsExpr table.now kind e → code.now ≢ code_of e }
{
    if code.len() > 8192 {
        return Err(CodeFault::BadCode);
    }
    match decoded(alloc, code, table, 32) {
        Ok(operand) => match code.to_vec(alloc) {
            Ok(bytes) => Ok(Verified {
                code: Code::from_vec(bytes),
                tree: operand.tree,
                kind: operand.kind,
            }),
            Err(_) => Err(CodeFault::NoMemory),
        },
        Err(fault) => Err(fault),
    }
}
