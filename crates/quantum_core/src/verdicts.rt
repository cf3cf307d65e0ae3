//! What a selected record comes to.
use sql_base::{Fault, Lock, Packed, Row};

/// What a selected record comes to.
#[derive(Debug, Drop)]
pub enum Effect {
    /// Its named columns go into the reply.
    Gives(Packed),
    /// It becomes this row.
    Becomes(Row),
    /// It is deleted.
    Goes,
}

/// The verdict on a candidate.
#[derive(Debug, Drop)]
pub enum Verdict {
    /// The lock of another transaction stands against it.
    Blocked(Lock),
    /// Its predicate, a new value or a CHECK faults.
    Faulty(Fault),
    /// It doesn't meet the predicate.
    PassedOver,
    /// It meets the predicate.
    Selected(Effect),
}
