//! Scripts that are made from a number, the same one from the same number.
#![tactic(auto)]

mod accounts;
mod draws;
mod laws;
mod making;
mod works;

pub use laws::made_scripts_meet_rules;
pub use making::{make, make_script};
