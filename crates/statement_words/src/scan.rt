//! The tokens of a text, from its front to its end.
ghost use Rattle.std.specs.Prelude.{◌≡◌, ◌+◌, ◌<◌, ◌≤◌, ◌^◌, length, drop, IfOk};
ghost use Rattle.std.specs.List.{AllByRecursion};
ghost use Rattle.statement_words.specs.Reading.{Gives};
ghost use Rattle.statement_words.specs.Spans.{IsFormed, Stand};
ghost use Rattle.statement_words.specs.Words.{is_separator, word_at, fresh, words_of};

use crate::faults::{WordFault, WordReason};
use crate::names::name_at;
use crate::numbers::number_at;
use crate::signs::sign_at;
use crate::texts::text_at;
use crate::tokens::{Token, Word};
use sql_base::List;
use std::alloc::Global;

/// The most bytes that a script may have.
pub const SCRIPT_LIMIT: usize = 4_194_304;

fn is_separator(byte: u8) -> bool
    ensures { result ≡ is_separator byte }
{
    byte == b' ' || byte == b'\t' || byte == b'\n' || byte == b'\r'
}

/// The longest word at the front of the bytes, which begin at `at`, and how many bytes it takes.
#[tactic(auto, unfolding(crate::specs::Words::word_at))]
fn word_at(alloc: Global, at: u32, bytes: &[u8]) -> Result<(Word, u32), WordFault>
    requires { at + length bytes.now < 2 ^ 31 }
    ensures within { IfOk result (λ x. x.1 ≤ length bytes.now) }
    ensures same { Gives (λ x. record { word = x.0; len = x.1 }) result (word_at at bytes.now) }
{
    match bytes {
        [] => Err(WordFault::At {
            reason: WordReason::BadByte,
            at,
        }),
        [first, rest @ ..] => {
            if first.is_ascii_alphabetic() {
                name_at(alloc, bytes)
            } else if first.is_ascii_digit() {
                number_at(at, bytes)
            } else if *first == b'\'' {
                text_at(alloc, at, rest)
            } else {
                sign_at(at, bytes)
            }
        }
    }
}

/// Takes the separator or the word at `at`. The result says how many bytes stand behind its first one.
fn take_piece(
    alloc: Global,
    tokens: &mut List<Token>,
    at: u32,
    text: &[u8],
) -> Result<u32, WordFault>
    requires short { length text.now < 2 ^ 31 }
    requires within { at < length text.now }
    ensures within { IfOk result (λ skip. at + skip < length text.now) }
    ensures same { Gives (λ skip. record { tokens = tokens.new; skip = skip }) result
        (fresh at tokens.old (drop at text.now)) }
{
    if is_separator(text[at as usize]) {
        return Ok(0);
    }
    let (word, len) = word_at(alloc, at, &text[at as usize..])?;
    tokens.push(Token {
        word,
        first: at,
        end: at + len,
    })?;
    Ok(len.saturating_sub(1))
}

/// The tokens of the bytes, or their first fault. No byte inside a token is visited again.
#[tactic(auto, unfolding(crate::specs::Words::words_from))]
fn tokens_of(alloc: Global, text: &[u8]) -> Result<List<Token>, WordFault>
    requires { length text.now < 2 ^ 31 }
    ensures { Gives (λ x. x) result (words_of text.now) }
{
    let mut tokens = List::new(alloc);
    let mut at = 0;
    while at < text.len() {
        let skip = take_piece(alloc, &mut tokens, at as u32, text)?;
        at += 1 + skip as usize;
    }
    Ok(tokens)
}

/// The words of a script, or the first fault of its bytes.
pub fn words(alloc: Global, text: &[u8]) -> Result<List<Token>, WordFault>
    requires { length text.now ≤ SCRIPT_LIMIT }
    // Which words they are, and which fault it is.
    ensures same { Gives (λ x. x) result (words_of text.now) }
    // Each stands on bytes that are a way to write it, one behind the other.
    ensures stand { IfOk result (λ tokens. Stand text.now 0 tokens (length text.now)) }
    // Each is in its form: what a name, a number and a text may be.
    ensures formed { IfOk result (AllByRecursion IsFormed) }
{
    tokens_of(alloc, text)
}
