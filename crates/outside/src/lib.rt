//! The outside of the program: where its bytes come from and go to, the wire that may lose a
//! message, the gate that a test may hold, and what collects entries of a log.
#![tactic(auto)]

mod calls;
mod collector;
mod failure;
mod gate;
mod sink;
mod source;
mod wire;

pub use collector::{Collector, Seen};
pub use failure::{Failed, NoMemory};
pub use gate::{Gate, Point, QuietGate};
pub use sink::Sink;
pub use sink::memory::MemorySink;
pub use sink::standard::StdSink;
pub use source::Source;
pub use source::memory::MemorySource;
pub use source::standard::StdSource;
pub use wire::{Cycle, Listed, Passage, Wire};
