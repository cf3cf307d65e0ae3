//! What follows the word that begins a part of a session.
ghost use Rattle.std.specs.Prelude.{◌≡◌, option_map};
ghost use Rattle.statement_grammar.specs.Grammar.{session_behind, work_behind, selected_behind, more_selected_behind, where_behind, sets_behind, more_sets_behind, change_behind, read_behind, mode_behind};

use crate::following::{
    DELETE, INSERT, LOCK, MORE_SELECTED, MORE_SETS, SELECT, SELECTED, SESSION, SETS, UPDATE, WHERE,
    WORK_END,
};
use crate::symbols::Symbol;
use crate::words_at::{is_key, is_name, is_sign};
use statement_words::{Keyword, Sign, Word};

pub fn session_behind(word: &Word) -> Option<&'static [Symbol]>
    ensures { option_map (λ s. s.now) result ≡ session_behind word.now }
{
    if is_key(word, Keyword::Session) {
        return Some(&SESSION);
    }
    None
}

pub fn work_behind(word: &Word) -> Option<&'static [Symbol]>
    ensures { option_map (λ s. s.now) result ≡ work_behind word.now }
{
    if is_key(word, Keyword::Select) {
        return Some(&SELECT);
    }
    if is_key(word, Keyword::Update) {
        return Some(&UPDATE);
    }
    if is_key(word, Keyword::Delete) {
        return Some(&DELETE);
    }
    if is_key(word, Keyword::Insert) {
        return Some(&INSERT);
    }
    if is_key(word, Keyword::Lock) {
        return Some(&LOCK);
    }
    if is_key(word, Keyword::Commit) || is_key(word, Keyword::Rollback) {
        return Some(&WORK_END);
    }
    None
}

pub fn selected_behind(word: &Word) -> Option<&'static [Symbol]>
    ensures { option_map (λ s. s.now) result ≡ selected_behind word.now }
{
    if is_sign(word, Sign::Times) {
        return Some(&[]);
    }
    if is_name(word) {
        return Some(&SELECTED);
    }
    None
}

pub fn more_selected_behind(word: &Word) -> Option<&'static [Symbol]>
    ensures { option_map (λ s. s.now) result ≡ more_selected_behind word.now }
{
    if is_sign(word, Sign::Comma) {
        return Some(&MORE_SELECTED);
    }
    None
}

pub fn where_behind(word: &Word) -> Option<&'static [Symbol]>
    ensures { option_map (λ s. s.now) result ≡ where_behind word.now }
{
    if is_key(word, Keyword::Where) {
        return Some(&WHERE);
    }
    None
}

pub fn sets_behind(word: &Word) -> Option<&'static [Symbol]>
    ensures { option_map (λ s. s.now) result ≡ sets_behind word.now }
{
    if is_key(word, Keyword::Set) {
        return Some(&SETS);
    }
    None
}

pub fn more_sets_behind(word: &Word) -> Option<&'static [Symbol]>
    ensures { option_map (λ s. s.now) result ≡ more_sets_behind word.now }
{
    if is_sign(word, Sign::Comma) {
        return Some(&MORE_SETS);
    }
    None
}

pub fn change_behind(word: &Word) -> Option<&'static [Symbol]>
    ensures { option_map (λ s. s.now) result ≡ change_behind word.now }
{
    if is_key(word, Keyword::Stable) || is_key(word, Keyword::Repeatable) {
        return Some(&[]);
    }
    None
}

pub fn read_behind(word: &Word) -> Option<&'static [Symbol]>
    ensures { option_map (λ s. s.now) result ≡ read_behind word.now }
{
    if is_key(word, Keyword::Browse) {
        return Some(&[]);
    }
    change_behind(word)
}

pub fn mode_behind(word: &Word) -> Option<&'static [Symbol]>
    ensures { option_map (λ s. s.now) result ≡ mode_behind word.now }
{
    if is_key(word, Keyword::Share) || is_key(word, Keyword::Exclusive) {
        return Some(&[]);
    }
    None
}
