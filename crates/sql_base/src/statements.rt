//! Statements.
use crate::expressions::Expr;
use crate::lists::List;
use crate::lock_names::{Access, Mode};
use crate::values::Row;

/// One assignment of an UPDATE.
#[derive(Debug, Drop)]
pub struct Assign {
    pub column: u8,
    pub value: Expr,
}

/// A statement on one table. Tables and columns are named by their places, counted from 0.
#[derive(Debug, Drop)]
pub enum Statement {
    Select {
        table: u8,
        columns: List<u8>,
        filter: Option<Expr>,
        access: Access,
    },
    Update {
        table: u8,
        sets: List<Assign>,
        filter: Option<Expr>,
        access: Access,
    },
    Delete {
        table: u8,
        filter: Option<Expr>,
        access: Access,
    },
    Insert {
        table: u8,
        row: Row,
    },
    LockTable {
        table: u8,
        mode: Mode,
    },
}
