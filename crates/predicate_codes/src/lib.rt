//! Which bytes are the code of an expression, a filter or a SET list, and the laws of these codes.
#![tactic(auto)]

pub mod laws;
mod opcodes;

pub use opcodes::{Opcode, byte_of, opcode_of};
