//! The text and the summary of the record of a run.
#![tactic(auto)]

mod endings;
mod entries;
mod finished;
mod summing;
mod tables;
mod texts;
mod trying;

pub use summing::summary;
pub use texts::text;
