//! What a partition is: its state, what one request makes of it, and what a history leaves.
#![tactic(auto)]

mod entries;
mod lives;

pub use entries::Entry;
pub use lives::Live;
