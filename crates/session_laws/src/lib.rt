//! Laws of a session's machine: where its log leads it, and that such logs are those of the grammar.
#![tactic(auto)]

pub mod laws;
