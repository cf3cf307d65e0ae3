//! Attempts and tables as they are shown.
use sql_base::{Given, List, Outcome};

/// An attempt of a transaction as it is shown.
#[derive(Debug, Drop)]
pub struct Shown {
    /// Sessions count from 1.
    pub session: u32,
    /// The place of the attempt among those of its session, from 1.
    pub ordinal: u32,
    pub outcome: Outcome,
    /// What each of its statements gave, in their order.
    pub given: List<Given>,
}
