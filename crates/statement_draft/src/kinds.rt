//! What is known of an expression that has been read.
use sql_base::{ArithOp, CompareOp, Expr};

/// The kind of an expression; a text has the width of its literal or column.
#[derive(Clone, Copy, Debug, PartialEq, Eq)]
pub enum Kind {
    Number,
    Text(usize),
    Truth,
}

/// What is known of an expression, or a part of it, that has been read.
#[derive(Debug, Drop)]
pub struct Operand {
    /// None where it isn't well typed.
    pub kind: Option<Kind>,
    /// The depth of its tree, counted up to 33.
    pub depth: u8,
    /// The bytes of its code, counted up to 8,193.
    pub code: u16,
    /// The tree itself, where all its names are known, its numbers have 64 bits and it is at most 32 deep.
    pub tree: Option<Expr>,
}

/// What joins two operands.
#[derive(Clone, Copy, Debug)]
pub enum Op {
    Arith(ArithOp),
    Compare(CompareOp),
    And,
    Or,
}

/// An operator that waits for its right side, with the place of its word.
#[derive(Clone, Copy, Debug)]
pub enum Operator {
    Not(u32),
    Joins(Op, u32),
}
