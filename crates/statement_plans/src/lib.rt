//! What a statement asks of the partitions of its table.
#![tactic(auto)]

mod begins;
mod plans;
mod targets;

pub use plans::plan;
