//! The words of a script: keywords, names, numbers, texts and signs, each with the bytes that it stands on.
#![tactic(auto)]

mod faults;
mod keywords;
mod names;
mod numbers;
mod scan;
mod signs;
mod texts;
mod tokens;

pub use faults::{WordFault, WordReason};
pub use keywords::{Keyword, keyword_of, spelling};
pub use scan::{SCRIPT_LIMIT, words};
pub use tokens::{Sign, Token, Word};
