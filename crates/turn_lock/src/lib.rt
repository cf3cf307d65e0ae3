//! A lock that threads take in turns, round a value that has a history.
//!
//! Each thread has a pass of its own. `try_turn` and `turn` hand out the value, whose history begins with all that the
//! pass has seen, and `give` takes it back with at most one entry more. `close_with` takes all the passes and gives the
//! value: its history is made of just the entries that the passes added, each once.
#![tactic(auto)]

mod close;
mod held;
mod lock;
mod make;
mod pass;
mod stands_for;
mod view;

pub use held::Held;
pub use lock::{Busy, TurnLock};
pub use make::NoMemory;
pub use pass::Pass;
pub use stands_for::StandsFor;
