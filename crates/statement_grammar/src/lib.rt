//! The grammar of a script as a machine: a stack of what must come, one word at a time.
#![tactic(auto)]

mod declarations;
mod expressions;
mod following;
mod grammar;
mod laws;
mod machine;
mod stack;
mod statements;
mod symbols;
mod words_at;

pub use following::SCRIPT;
pub use laws::unexpected_begins_no_script;
pub use machine::{Shape, advance, finish, put, read_shape};
pub use stack::Stack;
pub use symbols::{End, Fixed, Limit, NameRole, NumberRole, Part, Symbol};
pub use words_at::{is_key, is_name, is_sign};
