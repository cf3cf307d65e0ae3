//! One quantum at work: the records that it handles are read, given new rows or deleted in a store of cells and locks.
#![tactic(auto)]

mod candidates;
mod copies;
mod judges;
mod planned;
mod progress;
mod stores;
mod tables;
mod walks;
mod works;

pub use planned::{Planned, Walk};
pub use stores::{Store, carry_out, quantum};
pub use tables::CheckedTable;
pub use walks::walk;
pub use works::{Task, Work};
