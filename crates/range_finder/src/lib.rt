//! The range of keys that a predicate leaves.
#![tactic(auto)]
