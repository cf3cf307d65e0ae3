//! How attempts of a transaction end, and what statements gave.
use crate::bytes::{Key, Packed};
use crate::faults::Fault;
use crate::lists::List;
use crate::tables::ColumnKind;

/// Why a transaction was aborted.
#[derive(Debug, Drop)]
pub enum Abort {
    /// A lock of another stood in the way too often.
    LockedOut,
    /// The path lost a request too often.
    PathLost,
    /// The record of the key faults.
    Faulted { key: Key, fault: Fault },
    /// A record with the key stands already.
    Duplicate { key: Key },
}

/// How an attempt of a transaction ended.
#[derive(Debug, Drop)]
pub enum Outcome {
    Committed { stamp: u64 },
    RolledBack,
    Aborted(Abort),
}

/// What a finished statement gives.
#[derive(Debug, Drop)]
pub enum Given {
    /// Packed rows, with the kinds of their columns.
    Rows {
        kinds: List<ColumnKind>,
        rows: List<Packed>,
    },
    /// How many records were changed, each as often as it was.
    Count(u128),
    Silent,
}
