//! What is printed is read back: words, texts of records, expressions and whole scripts.
#![tactic(auto)]

mod laws;

pub use laws::{
    printed_expressions_are_read, printed_scripts_are_read, printed_texts_are_padded,
    printed_words_are_read,
};
