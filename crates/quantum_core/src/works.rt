//! What is done with the selected records.
use sql_base::{Assign, Expr, List};

/// What is done with the selected records.
#[derive(Debug, Drop)]
pub enum Doing {
    /// Gives the named columns. Columns count from 0.
    Read(List<u8>),
    /// Gives each column of the list its new value, all taken from the old row.
    Update(List<Assign>),
    Delete,
}

/// The work of a set request: which records it selects, all without a filter, and what it does with them.
#[derive(Debug, Drop)]
pub struct SetWork {
    pub filter: Option<Expr>,
    pub doing: Doing,
}
