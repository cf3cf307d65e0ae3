//! The value of an expression on a row, and whether it is true, evaluated along the tree.
#![tactic(auto)]

mod truths;
mod values;

pub use truths::{is_true, truth, value_on};
pub use values::Item;
