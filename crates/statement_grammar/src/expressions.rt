//! What follows the word that begins a part of an expression.
ghost use Rattle.std.specs.Prelude.{◌≡◌, option_map};
ghost use Rattle.statement_grammar.specs.Grammar.{operand_behind, condition_behind, or_behind, and_behind, is_comparison, compare_behind, sum_behind, product_behind};

use crate::following::{
    AND, COMPARE, COMPARISON_REST, INSIDE, INSIDE_CONDITION, NEGATIVE_CONDITION, NEGATIVE_OPERAND,
    NOT, OR, PRODUCT, SUM,
};
use crate::symbols::Symbol;
use crate::words_at::{is_key, is_literal, is_name, is_sign};
use statement_words::{Keyword, Sign, Word};

pub fn operand_behind(word: &Word) -> Option<&'static [Symbol]>
    ensures { option_map (λ s. s.now) result ≡ operand_behind word.now }
{
    if is_literal(word) || is_name(word) {
        return Some(&[]);
    }
    if is_sign(word, Sign::Minus) {
        return Some(&NEGATIVE_OPERAND);
    }
    if is_sign(word, Sign::Open) {
        return Some(&INSIDE);
    }
    None
}

pub fn condition_behind(word: &Word) -> Option<&'static [Symbol]>
    ensures { option_map (λ s. s.now) result ≡ condition_behind word.now }
{
    if is_key(word, Keyword::Not) {
        return Some(&NOT);
    }
    if is_literal(word) || is_name(word) {
        return Some(&COMPARISON_REST);
    }
    if is_sign(word, Sign::Minus) {
        return Some(&NEGATIVE_CONDITION);
    }
    if is_sign(word, Sign::Open) {
        return Some(&INSIDE_CONDITION);
    }
    None
}

pub fn or_behind(word: &Word) -> Option<&'static [Symbol]>
    ensures { option_map (λ s. s.now) result ≡ or_behind word.now }
{
    if is_key(word, Keyword::Or) {
        return Some(&OR);
    }
    None
}

pub fn and_behind(word: &Word) -> Option<&'static [Symbol]>
    ensures { option_map (λ s. s.now) result ≡ and_behind word.now }
{
    if is_key(word, Keyword::And) {
        return Some(&AND);
    }
    None
}

pub fn is_comparison(word: &Word) -> bool
    ensures { result ≡ is_comparison word.now }
{
    is_sign(word, Sign::Equal)
        || is_sign(word, Sign::Unequal)
        || is_sign(word, Sign::Less)
        || is_sign(word, Sign::AtMost)
        || is_sign(word, Sign::Greater)
        || is_sign(word, Sign::AtLeast)
}

pub fn compare_behind(word: &Word) -> Option<&'static [Symbol]>
    ensures { option_map (λ s. s.now) result ≡ compare_behind word.now }
{
    if is_comparison(word) {
        return Some(&COMPARE);
    }
    None
}

pub fn sum_behind(word: &Word) -> Option<&'static [Symbol]>
    ensures { option_map (λ s. s.now) result ≡ sum_behind word.now }
{
    if is_sign(word, Sign::Plus) || is_sign(word, Sign::Minus) {
        return Some(&SUM);
    }
    None
}

pub fn product_behind(word: &Word) -> Option<&'static [Symbol]>
    ensures { option_map (λ s. s.now) result ≡ product_behind word.now }
{
    if is_sign(word, Sign::Times) || is_sign(word, Sign::Over) {
        return Some(&PRODUCT);
    }
    None
}
