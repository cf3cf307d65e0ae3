//! Locks: their modes and holders, and how statements look at them.
use crate::bytes::Prefix;

/// The mode of a lock: shared or exclusive.
#[derive(Clone, Copy, Debug, PartialEq, Eq)]
pub enum Mode {
    S,
    X,
}

/// How a statement looks at the locks of others.
#[derive(Clone, Copy, Debug, PartialEq, Eq)]
pub enum Access {
    /// Reads without looking at locks.
    Browse,
    /// Stops before a record that another changes, and keeps no read lock.
    Stable,
    /// Keeps its granule locked to the end of the transaction.
    Repeatable,
}

/// A transaction's attempt: its session, and its place among the attempts of the session. Both count from 1.
#[derive(Clone, Copy, Debug, PartialEq, Eq)]
pub struct TxnName {
    pub session: u32,
    pub ordinal: u32,
}

/// A lock on a granule.
#[derive(Clone, Debug, Drop)]
pub struct Lock {
    pub holder: TxnName,
    pub prefix: Prefix,
    pub mode: Mode,
}
