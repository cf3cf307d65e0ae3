//! The plain evaluator: what one thread makes of a script, without quanta, locks, messages or partitions.
#![tactic(auto)]

mod answering;
mod cells;
mod changes;
mod inserting;
pub mod laws;
mod loading;
mod places;
mod printing;
mod scans;
mod shown;
mod statements;
mod touched;
mod transactions;
mod worlds;

pub use answering::answer;
pub use changes::fails;
pub use printing::print_run;
pub use shown::Shown;
