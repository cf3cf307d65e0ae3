//! The logs that a session may have: its actions, what came of them, and the grammar of both.
#![tactic(auto)]

mod logs;
mod plans;

pub use logs::{Action, Answer, LogEntry};
pub use plans::{Plan, Sent};
