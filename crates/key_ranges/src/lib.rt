//! The range of keys that a predicate leaves, found.
#![tactic(auto)]

mod bounds;
mod finding;
mod numbers;
mod spans;
mod texts;

pub use finding::key_range;
