//! That a session which runs alone shows what one thread shows.
#![tactic(auto)]

mod laws;

pub use laws::alone_is_one_thread;
