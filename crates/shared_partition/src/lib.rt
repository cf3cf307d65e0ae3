//! A partition that threads share: each call takes the turn once, and is at most one event of its one history.
#![tactic(auto)]

mod picked;
mod shared;
mod spelled;

pub use picked::Picked;
pub use shared::SharedPartition;
pub use spelled::SpelledPartition;
