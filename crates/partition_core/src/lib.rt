//! A partition and its history: what the Disk Process of one partition keeps, and how it serves a request.
#![tactic(auto)]

mod begins;
mod changes;
mod codes;
mod contents;
mod continues;
mod ends;
mod firsts;
mod inserts;
mod judges;
mod keys;
mod lives;
mod notes;
mod openings;
mod partitions;
mod shapes;

pub use partitions::{Partition, Pick, Served};
