//! Reads a script from its bytes: the one that they spell, or the first fault with its line and column.
#![tactic(auto)]

mod faults;
mod positions;
mod reading;

pub use faults::{ReadFault, ScriptFault};
pub use reading::{one_script, read_script};
pub use statement_draft::{Checks, Reason};
