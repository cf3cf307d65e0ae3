//! Why runs end: each redrive comes with a key that has fewer keys of the script above it.
#![tactic(auto)]

mod laws;

pub use laws::{actions_fall, keys_held, redrives_advance};
