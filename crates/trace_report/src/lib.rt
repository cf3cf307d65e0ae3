//! Reports over the record of a run: collectors see each entry of its histories, and say their texts.
#![tactic(auto)]

mod counts;
mod entries;
mod lines;
mod lock_book;
mod quantum_table;
mod reports;
mod rows;

pub use counts::Counts;
pub use lines::Lines;
pub use lock_book::LockBook;
pub use quantum_table::QuantumTable;
pub use reports::report;
