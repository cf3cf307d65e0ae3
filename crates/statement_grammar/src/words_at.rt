//! What a word is.
ghost use Rattle.std.specs.Prelude.{◌≡◌};
ghost use Rattle.statement_grammar.specs.WordsAt.{is_key, is_sign, is_fixed, is_name, is_number, is_literal};

use crate::symbols::Fixed;
use statement_words::{Keyword, Sign, Word};

pub fn is_key(word: &Word, wanted: Keyword) -> bool
    ensures { result ≡ is_key word.now wanted }
{
    match word {
        Word::Keyword(found) => *found == wanted,
        _ => false,
    }
}

pub fn is_sign(word: &Word, wanted: Sign) -> bool
    ensures { result ≡ is_sign word.now wanted }
{
    match word {
        Word::Sign(found) => *found == wanted,
        _ => false,
    }
}

/// Whether the word is this fixed one.
pub fn is_fixed(word: &Word, fixed: Fixed) -> bool
    ensures { result ≡ is_fixed word.now fixed }
{
    match fixed {
        Fixed::Keyword(wanted) => is_key(word, wanted),
        Fixed::Sign(wanted) => is_sign(word, wanted),
    }
}

pub fn is_name(word: &Word) -> bool
    ensures { result ≡ is_name word.now }
{
    match word {
        Word::Name(_) => true,
        _ => false,
    }
}

pub fn is_number(word: &Word) -> bool
    ensures { result ≡ is_number word.now }
{
    match word {
        Word::Number(_) => true,
        _ => false,
    }
}

/// Whether the word is a number or a text.
pub fn is_literal(word: &Word) -> bool
    ensures { result ≡ is_literal word.now }
{
    match word {
        Word::Number(_) => true,
        Word::Text(_) => true,
        _ => false,
    }
}
