//! One quantum: what it works on, what it comes to for each record, and what it answers.
#![tactic(auto)]

mod replies;
mod verdicts;
mod works;

pub use replies::QuantumReply;
pub use verdicts::{Effect, Verdict};
pub use works::{Doing, SetWork};
