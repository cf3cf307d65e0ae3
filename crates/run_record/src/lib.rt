//! The record of a run: what every partition, the journal and every session kept, and what holds of it.
#![tactic(auto)]

mod records;

pub use records::{Act, RunRecord};
