//! The instructions of a code, read one at a time: what each leaves of the operands on the stack.

ghost use Rattle.std.specs.Prelude.{◌≡◌, ◌≤◌, ◌∷◌, [], length, map, option_map, ◌+◌, Option, Some, None, Err, IfOk, IfSome, OnOk};
ghost use Rattle.predicate_codes.specs.Decoding.{Operand as Read, counted_at};
ghost use Rattle.predicate_runner.specs.Outlines.{operand_in};
ghost use Rattle.predicate_runner.specs.Stepping.{Steps, seen, stepped};

use crate::kinds::{
    ExprKind, Operand, fit, kind_of_column, kind_of_text, of_arith, of_compare, of_truths,
};
use crate::trees;
use predicate_codes::Opcode;
use sql_base::{ArithOp, CompareOp, Expr, NoMemory, TableDef, Text};
use std::alloc::Global;

/// Why bytes were not taken as a code.
#[derive(Clone, Copy, Debug, PartialEq, Eq)]
pub enum CodeFault {
    /// They are the code of no well-typed expression within the limits.
    BadCode,
    NoMemory,
}

impl From<NoMemory> for CodeFault {
    ghost use Rattle.predicate_runner.specs.declared.steps.CodeFault.TheVariants.{NoMemory};

    ghost from_gives = { λ _ fault. fault ≡ NoMemory };

    fn from(_error: NoMemory) -> CodeFault {
        CodeFault::NoMemory
    }
}

pub fn push(stack: &mut Vec<Operand>, operand: Option<Operand>) -> Result<(), CodeFault>
    ensures ok { OnOk result ((o : Read) × (option_map operand_in operand ≡ Some o) × (seen stack.new.items ≡ o ∷ seen stack.old.items)) }
    ensures bad { result ≡ Err CodeFault.BadCode → option_map operand_in operand ≡ None }
{
    let Some(operand) = operand else {
        return Err(CodeFault::BadCode);
    };
    stack.push(operand).map_err(NoMemory::from)?;
    Ok(())
}

pub fn pop(stack: &mut Vec<Operand>) -> Option<Operand>
    ensures some { IfSome result (λ o. seen stack.old.items ≡ operand_in o ∷ seen stack.new.items) }
    ensures none { result ≡ None → seen stack.old.items ≡ [] }
{
    stack.pop()
}

pub fn step_number(
    behind: &[u8],
    table: &TableDef,
    room: u32,
    stack: &mut Vec<Operand>,
) -> Result<usize, CodeFault>
    ensures ok { IfOk result (λ skip. Steps table.now room Opcode.PushNumber behind.now stack.old.items stack.new.items skip) }
    ensures bad { result ≡ Err CodeFault.BadCode → stepped table.now room Opcode.PushNumber behind.now stack.old.items ≡ None }
{
    if behind.len() < 8 {
        return Err(CodeFault::BadCode);
    }
    let bytes = <[u8; 8]>::try_from(&behind[..8]).unwrap();
    let number = u64::from_be_bytes(bytes).cast_signed();
    push(
        stack,
        fit(Expr::Number(number), Some(ExprKind::Number), 0, room),
    )?;
    Ok(8)
}

pub fn step_text(
    alloc: Global,
    behind: &[u8],
    table: &TableDef,
    room: u32,
    stack: &mut Vec<Operand>,
) -> Result<usize, CodeFault>
    ensures ok { IfOk result (λ skip. Steps table.now room Opcode.PushText behind.now stack.old.items stack.new.items skip) }
    ensures bad { result ≡ Err CodeFault.BadCode → stepped table.now room Opcode.PushText behind.now stack.old.items ≡ None }
{
    match behind.split_first() {
        Some((width, rest)) => {
            let count = *width as usize;
            if rest.len() < count {
                return Err(CodeFault::BadCode);
            }
            let text = &rest[..count];
            let kind = kind_of_text(*width, text);
            let bytes = text.to_vec(alloc).map_err(NoMemory::from)?;
            push(stack, fit(Expr::Text(Text::from_vec(bytes)), kind, 0, room))?;
            Ok(count + 1)
        }
        None => Err(CodeFault::BadCode),
    }
}

pub fn step_column(
    behind: &[u8],
    table: &TableDef,
    room: u32,
    stack: &mut Vec<Operand>,
) -> Result<usize, CodeFault>
    ensures ok { IfOk result (λ skip. Steps table.now room Opcode.PushColumn behind.now stack.old.items stack.new.items skip) }
    ensures bad { result ≡ Err CodeFault.BadCode → stepped table.now room Opcode.PushColumn behind.now stack.old.items ≡ None }
{
    match behind.first() {
        Some(column) => {
            let kind = kind_of_column(table, *column);
            push(stack, fit(Expr::Column(*column), kind, 0, room))?;
            Ok(1)
        }
        None => Err(CodeFault::BadCode),
    }
}

pub fn step_arith(
    alloc: Global,
    op: ArithOp,
    behind: &[u8],
    table: &TableDef,
    room: u32,
    stack: &mut Vec<Operand>,
) -> Result<usize, CodeFault>
    ensures ok { IfOk result (λ skip. Steps table.now room (Opcode.DoArith op) behind.now stack.old.items stack.new.items skip) }
    ensures bad { result ≡ Err CodeFault.BadCode → stepped table.now room (Opcode.DoArith op) behind.now stack.old.items ≡ None }
{
    let Some(b) = pop(stack) else {
        return Err(CodeFault::BadCode);
    };
    let Some(a) = pop(stack) else {
        return Err(CodeFault::BadCode);
    };
    let kind = of_arith(Some(a.kind), Some(b.kind));
    let below = a.depth.max(b.depth);
    let tree = trees::arith(alloc, op, a.tree, b.tree)?;
    push(stack, fit(tree, kind, below, room))?;
    Ok(0)
}

pub fn step_compare(
    alloc: Global,
    op: CompareOp,
    behind: &[u8],
    table: &TableDef,
    room: u32,
    stack: &mut Vec<Operand>,
) -> Result<usize, CodeFault>
    ensures ok { IfOk result (λ skip. Steps table.now room (Opcode.DoCompare op) behind.now stack.old.items stack.new.items skip) }
    ensures bad { result ≡ Err CodeFault.BadCode → stepped table.now room (Opcode.DoCompare op) behind.now stack.old.items ≡ None }
{
    let Some(b) = pop(stack) else {
        return Err(CodeFault::BadCode);
    };
    let Some(a) = pop(stack) else {
        return Err(CodeFault::BadCode);
    };
    let kind = of_compare(Some(a.kind), Some(b.kind));
    let below = a.depth.max(b.depth);
    let tree = trees::compare(alloc, op, a.tree, b.tree)?;
    push(stack, fit(tree, kind, below, room))?;
    Ok(0)
}

pub fn step_not(
    alloc: Global,
    behind: &[u8],
    table: &TableDef,
    room: u32,
    stack: &mut Vec<Operand>,
) -> Result<usize, CodeFault>
    ensures ok { IfOk result (λ skip. Steps table.now room Opcode.DoNot behind.now stack.old.items stack.new.items skip) }
    ensures bad { result ≡ Err CodeFault.BadCode → stepped table.now room Opcode.DoNot behind.now stack.old.items ≡ None }
{
    let Some(a) = pop(stack) else {
        return Err(CodeFault::BadCode);
    };
    let kind = of_truths(Some(a.kind), Some(a.kind));
    let tree = trees::not(alloc, a.tree)?;
    push(stack, fit(tree, kind, a.depth, room))?;
    Ok(0)
}

/// The bytes that have their length in 2 bytes before them.
pub fn counted_in(code: &[u8]) -> Option<&[u8]>
    ensures bytes { option_map (λ bytes. bytes.now) result ≡ counted_at code.now }
    ensures within { IfSome result (λ bytes. length bytes.now + 2 ≤ length code.now) }
{
    if code.len() < 2 {
        return None;
    }
    let count = u16::from_be_bytes([code[0], code[1]]) as usize;
    let rest = &code[2..];
    if rest.len() < count {
        return None;
    }
    Some(&rest[..count])
}
