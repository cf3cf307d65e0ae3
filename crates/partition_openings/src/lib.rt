//! The partitions of all tables as a run begins.
#![tactic(auto)]

mod openings;

pub use openings::open;
