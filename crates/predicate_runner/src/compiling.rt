//! The code of an expression.

ghost use Rattle.std.specs.Prelude.{◌≡◌, ◌≤◌, ◌<◌, ◌^◌, ◌++◌, ◌∷◌, [], length, true, IfOk, OnOk};
ghost use Rattle.sql_base.specs.Codes.{code_of, counted};
ghost use Rattle.sql_base.specs.Kinds.{Kind, IsExpr};
ghost use Rattle.predicate_codes.specs.Decoding.{byte_of};
ghost use Rattle.predicate_runner.specs.Scaffold.Texts.{has_short_texts};

use predicate_codes::{Opcode, byte_of};
use sql_base::{Code, Expr, NoMemory, TableDef};
use std::alloc::Global;

/// The code of a well-typed expression of the table, within the limits.
pub fn compile(alloc: Global, expr: &Expr, table: &TableDef) -> Result<Code, NoMemory>
    requires { (kind : Kind) × IsExpr table.now kind expr.now }
    ensures { IfOk result (λ code. code ≡ code_of expr.now) }
{
    let mut bytes = Vec::new(alloc);
    append_code(&mut bytes, alloc, expr)?;
    Ok(Code::from_vec(bytes))
}

fn append_code(bytes: &mut Vec<u8>, alloc: Global, expr: &Expr) -> Result<(), NoMemory>
    requires texts { has_short_texts expr.now ≡ true }
    requires short { length (code_of expr.now) ≤ 8192 }
    ensures { OnOk result (bytes.new.items ≡ bytes.old.items ++ code_of expr.now) }
{
    match expr {
        Expr::Number(number) => {
            append_opcode(bytes, Opcode::PushNumber)?;
            bytes.extend_from_slice(&number.to_be_bytes())?;
            Ok(())
        }
        Expr::Text(text) => {
            let text = text.bytes();
            append_opcode(bytes, Opcode::PushText)?;
            bytes.push(text.len() as u8)?;
            bytes.extend_from_slice(text)?;
            Ok(())
        }
        Expr::Column(column) => {
            append_opcode(bytes, Opcode::PushColumn)?;
            bytes.push(*column)?;
            Ok(())
        }
        Expr::Arith(op, a, b) => {
            append_code(bytes, alloc, a.get())?;
            append_code(bytes, alloc, b.get())?;
            append_opcode(bytes, Opcode::DoArith(*op))?;
            Ok(())
        }
        Expr::Compare(op, a, b) => {
            append_code(bytes, alloc, a.get())?;
            append_code(bytes, alloc, b.get())?;
            append_opcode(bytes, Opcode::DoCompare(*op))?;
            Ok(())
        }
        Expr::And(a, b) => {
            append_code(bytes, alloc, a.get())?;
            append_opcode(bytes, Opcode::DoAnd)?;
            let mut right = Vec::new(alloc);
            append_code(&mut right, alloc, b.get())?;
            append_counted(bytes, &right)?;
            Ok(())
        }
        Expr::Or(a, b) => {
            append_code(bytes, alloc, a.get())?;
            append_opcode(bytes, Opcode::DoOr)?;
            let mut right = Vec::new(alloc);
            append_code(&mut right, alloc, b.get())?;
            append_counted(bytes, &right)?;
            Ok(())
        }
        Expr::Not(a) => {
            append_code(bytes, alloc, a.get())?;
            append_opcode(bytes, Opcode::DoNot)?;
            Ok(())
        }
    }
}

fn append_opcode(bytes: &mut Vec<u8>, op: Opcode) -> Result<(), NoMemory>
    ensures { OnOk result (bytes.new.items ≡ bytes.old.items ++ byte_of op ∷ []) }
{
    bytes.push(byte_of(op))?;
    Ok(())
}

/// Adds a code, with its length in 2 bytes before it.
pub fn append_counted(bytes: &mut Vec<u8>, code: &[u8]) -> Result<(), NoMemory>
    requires { length code.now < 2 ^ 16 }
    ensures { OnOk result (bytes.new.items ≡ bytes.old.items ++ counted code.now) }
{
    let count = code.len() as u16;
    bytes.extend_from_slice(&count.to_be_bytes())?;
    bytes.extend_from_slice(code)?;
    Ok(())
}
