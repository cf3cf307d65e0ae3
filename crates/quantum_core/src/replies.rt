//! What a quantum answers.
use sql_base::{Cause, Fault, Key, List, Lock, Packed};

/// What a quantum answers.
#[derive(Debug, Drop)]
pub enum QuantumReply {
    /// The subset is handled to its end.
    Ended {
        rows: List<Packed>,
        changed: u32,
    },
    /// The quantum stopped after the key `last`.
    Redrive {
        last: Key,
        cause: Cause,
        rows: List<Packed>,
        changed: u32,
    },
    /// The first candidate is blocked.
    Locked(Lock),
    /// The first candidate faults.
    Failed {
        key: Key,
        fault: Fault,
    },
}
