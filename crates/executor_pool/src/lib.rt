//! Threads run a script: one job for each session, and some that serve the mail of each partition.
#![tactic(auto)]

mod ending;
mod jobs;
mod journals;
mod pool;
mod processes;
mod returned;
mod runs;
mod sendings;
mod servers;
mod sessions;
mod tokens;

pub use pool::run_pool_with;
pub use runs::run_pool;
