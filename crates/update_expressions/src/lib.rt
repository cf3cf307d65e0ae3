//! SET lists: compiled, verified, and applied to rows.
#![tactic(auto)]

mod applying;
mod compiling;
mod faults;
mod verifying;

pub use applying::{ApplyFault, apply};
pub use compiling::compile_sets;
pub use faults::SetFault;
pub use verifying::{VerifiedSet, VerifiedSets, verify_sets};
