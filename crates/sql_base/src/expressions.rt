//! Expressions as trees.
use crate::bytes::Text;
use sqlite_items::Boxed;

#[derive(Clone, Copy, Debug, PartialEq, Eq)]
pub enum ArithOp {
    Add,
    Sub,
    Mul,
    Div,
}

#[derive(Clone, Copy, Debug, PartialEq, Eq)]
pub enum CompareOp {
    Eq,
    Ne,
    Lt,
    Le,
    Gt,
    Ge,
}

/// An expression over the columns of one row. Columns count from 0.
#[derive(Debug, Drop)]
pub enum Expr {
    Number(i64),
    Text(Text),
    Column(u8),
    Arith(ArithOp, Boxed<Expr>, Boxed<Expr>),
    Compare(CompareOp, Boxed<Expr>, Boxed<Expr>),
    And(Boxed<Expr>, Boxed<Expr>),
    Or(Boxed<Expr>, Boxed<Expr>),
    Not(Boxed<Expr>),
}
