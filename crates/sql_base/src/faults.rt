//! Want of memory, and the faults of statements and expressions.
use std::alloc::{AllocError, AllocFailed};

/// Want of memory.
#[derive(Clone, Copy, Debug, PartialEq, Eq)]
pub struct NoMemory;

impl From<AllocError> for NoMemory {
    fn from(_error: AllocError) -> NoMemory {
        NoMemory
    }
}

impl<T: Drop> From<AllocFailed<T>> for NoMemory {
    fn from(_error: AllocFailed<T>) -> NoMemory {
        NoMemory
    }
}

/// Why an expression has no value on a row.
#[derive(Clone, Copy, Debug, PartialEq, Eq)]
pub enum EvalFault {
    /// A result outside the 64 bit numbers.
    Overflow,
    /// A division by 0.
    ZeroDivide,
}

/// Why a statement fails at a row.
#[derive(Clone, Copy, Debug, PartialEq, Eq)]
pub enum Fault {
    Overflow,
    ZeroDivide,
    /// The CHECK of this number, counted from 1, is false on the new row.
    CheckFailed { number: u32 },
}

/// Why a quantum stopped before the end of its subset.
#[derive(Clone, Copy, Debug, PartialEq, Eq)]
pub enum Cause {
    /// It handled as many candidates as QUANTUM allows.
    Visits,
    /// The next candidate is blocked by a lock.
    Lock,
    /// The next candidate faults.
    Fault,
    /// The next row doesn't fit the buffer.
    Buffer,
}
