//! What plans ask of partitions, and what partitions reply.
#![tactic(auto)]

mod laws;

pub use laws::{plans_spelled, plans_suit, replies_fit, replies_spelled};
