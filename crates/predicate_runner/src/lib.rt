//! Codes of expressions at work: compiled, verified and run.
#![tactic(auto)]

mod compiling;
mod items;
mod kinds;
mod running;
mod steps;
mod trees;
mod verifying;

pub use compiling::{append_counted, compile};
pub use items::Item;
pub use kinds::{ExprKind, kind_of};
pub use running::{holds_on, run};
pub use steps::{CodeFault, counted_in};
pub use verifying::{Verified, verify};
