//! A bounded mail between the sessions and the servers of a partition, whose tokens tell what was posted and what was taken.
#![tactic(auto)]

mod fault;
mod hand;
pub mod laws;
mod letter;
mod mail;
mod make;

pub use fault::{GatherFault, NoMemory};
pub use letter::Letter;
pub use mail::{CAPACITY, Mail, Poster, Taker};
