//! The instructions of a code, and the bytes with which they begin.

ghost use Rattle.std.specs.Prelude.{◌≡◌};
ghost use Rattle.predicate_codes.specs.Decoding.{byte_of, opcode_of};

use sql_base::{ArithOp, CompareOp};

/// What an instruction of a code does.
#[derive(Clone, Copy, Debug, PartialEq, Eq)]
pub enum Opcode {
    PushNumber,
    PushText,
    PushColumn,
    DoArith(ArithOp),
    DoCompare(CompareOp),
    DoAnd,
    DoOr,
    DoNot,
}

/// The instruction that begins with the byte.
pub fn opcode_of(byte: u8) -> Option<Opcode>
    ensures { result ≡ opcode_of byte }
{
    match byte {
        0x01 => Some(Opcode::PushNumber),
        0x02 => Some(Opcode::PushText),
        0x03 => Some(Opcode::PushColumn),
        0x10 => Some(Opcode::DoArith(ArithOp::Add)),
        0x11 => Some(Opcode::DoArith(ArithOp::Sub)),
        0x12 => Some(Opcode::DoArith(ArithOp::Mul)),
        0x13 => Some(Opcode::DoArith(ArithOp::Div)),
        0x20 => Some(Opcode::DoCompare(CompareOp::Eq)),
        0x21 => Some(Opcode::DoCompare(CompareOp::Ne)),
        0x22 => Some(Opcode::DoCompare(CompareOp::Lt)),
        0x23 => Some(Opcode::DoCompare(CompareOp::Le)),
        0x24 => Some(Opcode::DoCompare(CompareOp::Gt)),
        0x25 => Some(Opcode::DoCompare(CompareOp::Ge)),
        0x30 => Some(Opcode::DoAnd),
        0x31 => Some(Opcode::DoOr),
        0x32 => Some(Opcode::DoNot),
        _ => None,
    }
}

/// The byte with which an instruction begins.
pub fn byte_of(op: Opcode) -> u8
    ensures { result ≡ byte_of op }
{
    match op {
        Opcode::PushNumber => 0x01,
        Opcode::PushText => 0x02,
        Opcode::PushColumn => 0x03,
        Opcode::DoArith(ArithOp::Add) => 0x10,
        Opcode::DoArith(ArithOp::Sub) => 0x11,
        Opcode::DoArith(ArithOp::Mul) => 0x12,
        Opcode::DoArith(ArithOp::Div) => 0x13,
        Opcode::DoCompare(CompareOp::Eq) => 0x20,
        Opcode::DoCompare(CompareOp::Ne) => 0x21,
        Opcode::DoCompare(CompareOp::Lt) => 0x22,
        Opcode::DoCompare(CompareOp::Le) => 0x23,
        Opcode::DoCompare(CompareOp::Gt) => 0x24,
        Opcode::DoCompare(CompareOp::Ge) => 0x25,
        Opcode::DoAnd => 0x30,
        Opcode::DoOr => 0x31,
        Opcode::DoNot => 0x32,
    }
}
