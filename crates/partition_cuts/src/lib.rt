//! The partition map at work: first keys checked, the partition of a key, and the pieces of a range.
#![tactic(auto)]

mod below;
mod checks;
mod firsts;
mod parts;
mod pieces;

pub use below::just_below;
pub use checks::{MapFault, check_map};
pub use firsts::first_key;
pub use parts::part_of;
pub use pieces::cut;
