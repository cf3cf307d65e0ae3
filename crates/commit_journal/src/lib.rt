//! The journal: the stamps in whose order transactions commit.
#![tactic(auto)]

mod journals;

pub use journals::{CommitFault, Journal};
use sql_base::TxnName;

/// A commit that was drawn: the transaction, the floor that it asked with, and its stamp.
#[derive(Clone, Copy, Debug, PartialEq, Eq)]
pub struct Drawn {
    pub name: TxnName,
    pub floor: u64,
    pub stamp: u64,
}
