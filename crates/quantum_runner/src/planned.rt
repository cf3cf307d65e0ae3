//! The changes of a quantum, judged before the first of them is made.
use quantum_core::QuantumReply;
use sql_base::{List, Lock, Row};

/// A change that stands out: the lock on the record's key, and its new row, or none where it is deleted.
#[derive(Debug, Drop)]
pub struct Planned {
    pub lock: Lock,
    pub now: Option<Row>,
}

/// What a walk over the cells gives: the reply, and the changes to be made.
#[derive(Debug, Drop)]
pub struct Walk {
    pub reply: QuantumReply,
    pub plans: List<Planned>,
}
