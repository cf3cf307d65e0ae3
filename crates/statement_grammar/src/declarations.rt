//! What follows the word that begins a part of a limit, a table or its records.
ghost use Rattle.std.specs.Prelude.{◌≡◌, ◌∷◌, [], option_map};
ghost use Rattle.statement_words.specs.declared.tokens.Sign.TheVariants as signs;
ghost use Rattle.statement_grammar.specs.declared.symbols.NumberRole.TheVariants as numbers;
ghost use Rattle.statement_grammar.specs.Grammar.{number, sign, limit_key, limit_behind, table_behind, kind_behind, column_or_key_behind, more_keys_behind, more_checks_behind, check_behind, first_keys_behind, more_firsts_behind, row_behind, literal_behind, more_literals_behind, loads_behind, more_rows_behind};

use crate::following::{
    BUFFER, CHAR_KIND, CHECK, COLUMN, FIRST_KEYS, KEY, LOADS, MORE_CHECKS, MORE_FIRSTS, MORE_KEYS,
    MORE_LITERALS, MORE_ROWS, NEGATIVE, PATIENCE, QUANTUM, RESTART, ROW, SERVERS, TABLE,
};
use crate::symbols::{Limit, Symbol};
use crate::words_at::{is_key, is_literal, is_name, is_sign};
use statement_words::{Keyword, Sign, Word};

fn limit_key(limit: Limit) -> Keyword
    ensures { result ≡ limit_key limit }
{
    match limit {
        Limit::Quantum => Keyword::Quantum,
        Limit::Buffer => Keyword::Buffer,
        Limit::Patience => Keyword::Patience,
        Limit::Servers => Keyword::Servers,
        Limit::Restart => Keyword::Restart,
    }
}

/// What follows the number's word, by the limit.
fn limit_rest(limit: Limit) -> &'static [Symbol]
    ensures { result.now ≡ number (numbers.Limit limit) ∷ sign signs.Semicolon ∷ [] }
{
    match limit {
        Limit::Quantum => &QUANTUM,
        Limit::Buffer => &BUFFER,
        Limit::Patience => &PATIENCE,
        Limit::Servers => &SERVERS,
        Limit::Restart => &RESTART,
    }
}

pub fn limit_behind(limit: Limit, word: &Word) -> Option<&'static [Symbol]>
    ensures { option_map (λ s. s.now) result ≡ limit_behind limit word.now }
{
    if is_key(word, limit_key(limit)) {
        return Some(limit_rest(limit));
    }
    None
}

pub fn table_behind(word: &Word) -> Option<&'static [Symbol]>
    ensures { option_map (λ s. s.now) result ≡ table_behind word.now }
{
    if is_key(word, Keyword::Table) {
        return Some(&TABLE);
    }
    None
}

pub fn kind_behind(word: &Word) -> Option<&'static [Symbol]>
    ensures { option_map (λ s. s.now) result ≡ kind_behind word.now }
{
    if is_key(word, Keyword::Int) {
        return Some(&[]);
    }
    if is_key(word, Keyword::Char) {
        return Some(&CHAR_KIND);
    }
    None
}

pub fn column_or_key_behind(word: &Word) -> Option<&'static [Symbol]>
    ensures { option_map (λ s. s.now) result ≡ column_or_key_behind word.now }
{
    if is_name(word) {
        return Some(&COLUMN);
    }
    if is_key(word, Keyword::Primary) {
        return Some(&KEY);
    }
    None
}

pub fn more_keys_behind(word: &Word) -> Option<&'static [Symbol]>
    ensures { option_map (λ s. s.now) result ≡ more_keys_behind word.now }
{
    if is_sign(word, Sign::Comma) {
        return Some(&MORE_KEYS);
    }
    None
}

pub fn more_checks_behind(word: &Word) -> Option<&'static [Symbol]>
    ensures { option_map (λ s. s.now) result ≡ more_checks_behind word.now }
{
    if is_sign(word, Sign::Comma) {
        return Some(&MORE_CHECKS);
    }
    None
}

pub fn check_behind(word: &Word) -> Option<&'static [Symbol]>
    ensures { option_map (λ s. s.now) result ≡ check_behind word.now }
{
    if is_key(word, Keyword::Check) {
        return Some(&CHECK);
    }
    None
}

pub fn first_keys_behind(word: &Word) -> Option<&'static [Symbol]>
    ensures { option_map (λ s. s.now) result ≡ first_keys_behind word.now }
{
    if is_key(word, Keyword::First) {
        return Some(&FIRST_KEYS);
    }
    None
}

pub fn more_firsts_behind(word: &Word) -> Option<&'static [Symbol]>
    ensures { option_map (λ s. s.now) result ≡ more_firsts_behind word.now }
{
    if is_sign(word, Sign::Comma) {
        return Some(&MORE_FIRSTS);
    }
    None
}

pub fn row_behind(word: &Word) -> Option<&'static [Symbol]>
    ensures { option_map (λ s. s.now) result ≡ row_behind word.now }
{
    if is_sign(word, Sign::Open) {
        return Some(&ROW);
    }
    None
}

pub fn literal_behind(word: &Word) -> Option<&'static [Symbol]>
    ensures { option_map (λ s. s.now) result ≡ literal_behind word.now }
{
    if is_literal(word) {
        return Some(&[]);
    }
    if is_sign(word, Sign::Minus) {
        return Some(&NEGATIVE);
    }
    None
}

pub fn more_literals_behind(word: &Word) -> Option<&'static [Symbol]>
    ensures { option_map (λ s. s.now) result ≡ more_literals_behind word.now }
{
    if is_sign(word, Sign::Comma) {
        return Some(&MORE_LITERALS);
    }
    None
}

pub fn loads_behind(word: &Word) -> Option<&'static [Symbol]>
    ensures { option_map (λ s. s.now) result ≡ loads_behind word.now }
{
    if is_key(word, Keyword::Load) {
        return Some(&LOADS);
    }
    None
}

pub fn more_rows_behind(word: &Word) -> Option<&'static [Symbol]>
    ensures { option_map (λ s. s.now) result ≡ more_rows_behind word.now }
{
    if is_sign(word, Sign::Comma) {
        return Some(&MORE_ROWS);
    }
    None
}
