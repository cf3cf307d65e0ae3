//! What is made of a script's words, and the first fault of them.
#![tactic(auto)]

mod assignments;
mod checks;
mod draft;
mod expressions;
mod faults;
mod keys;
mod kinds;
mod laws;
mod names;
mod operators;
mod reader;
mod rows;
mod statements;
mod tables;

pub use checks::Checks;
pub use draft::{
    Draft, NameAt, NewExpression, NewLoad, NewRow, NewStatement, NewTable, RowOf, Scope,
    StatementKind,
};
pub use faults::{Fault, Reason};
pub use kinds::{Kind, Op, Operand, Operator};
pub use laws::drafts_are_true;
pub use reader::read;
