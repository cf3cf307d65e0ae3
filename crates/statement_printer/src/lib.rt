//! The bytes of a script as it is printed: one blank behind each word, and a line's end behind each `;`.
#![tactic(auto)]

mod expressions;
mod script;
mod statements;
mod tables;
mod values;
mod words;

pub use script::{print_script, print_statement};
