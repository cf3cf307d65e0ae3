//! Tokens with their places.
use crate::keywords::Keyword;
use sql_base::{Name, Text};

/// `( ) , ; + - * / = <> < <= > >=`
#[derive(Clone, Copy, Debug, PartialEq, Eq)]
pub enum Sign {
    Open,
    Close,
    Comma,
    Semicolon,
    Plus,
    Minus,
    Times,
    Over,
    Equal,
    Unequal,
    Less,
    AtMost,
    Greater,
    AtLeast,
}

/// A word of a script. A text is what stands between its quotes, each doubled quote as one.
#[derive(Debug, Drop)]
pub enum Word {
    Keyword(Keyword),
    Name(Name),
    Number(u64),
    Text(Text),
    Sign(Sign),
}

/// A word on the bytes from `first` on and before `end`, counted from 0.
#[derive(Debug, Drop)]
pub struct Token {
    pub word: Word,
    pub first: u32,
    pub end: u32,
}
