//! A run between two actions.
use crate::processes::DiskProcess;
use crate::seats::Seat;
use commit_journal::Journal;
use run_record::Act;
use sql_base::List;

/// The sessions and partitions of a run, its journal, and what was done so far.
#[derive(Drop)]
pub struct World<Q> {
    /// The sessions, in their order.
    pub seats: Vec<Seat<Q>>,
    /// The partitions of all tables, in their order.
    pub processes: Vec<DiskProcess>,
    pub journal: Journal,
    pub acts: List<Act>,
}
