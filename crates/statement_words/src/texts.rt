//! Texts at the front of bytes.
ghost use Rattle.std.specs.Prelude.{[], ◌≡◌, ◌+◌, ◌<◌, ◌≤◌, ◌^◌, length, IfOk, true, false};
ghost use Rattle.statement_words.specs.Reading.{Gives};
ghost use Rattle.statement_words.specs.Words.{text_step, text_from, text_at};

use crate::faults::{WordFault, WordReason};
use crate::tokens::Word;
use sql_base::{List, Text};
use std::alloc::Global;

/// The most bytes that a text may have.
const TEXT_LIMIT: usize = 255;

/// One byte of a text that begins at `at`, with `len` bytes of it before: whether the text goes on,
/// and whether a quote was just read.
fn text_step(
    text: &mut List<u8>,
    quoted: bool,
    at: u32,
    len: u32,
    byte: u8,
) -> Result<(bool, bool), WordFault>
    requires { at + len < 2 ^ 32 }
    ensures { Gives (λ x. record { goes = x.0; state = record { text = text.new; quoted = x.1 } }) result
        (text_step at len (record { text = text.old; quoted = quoted }) byte) }
{
    if quoted {
        if byte != b'\'' {
            return Ok((false, false));
        }
        text.push(byte)?;
        return Ok((true, false));
    }
    match byte {
        b'\'' => Ok((true, true)),
        b'\n' => Err(WordFault::At {
            reason: WordReason::OpenText,
            at,
        }),
        32..=126 => {
            text.push(byte)?;
            Ok((true, false))
        }
        _ => Err(WordFault::At {
            reason: WordReason::BadByte,
            at: at + len,
        }),
    }
}

/// A text from behind its opening quote, which stands at `at`, and how many bytes it takes.
#[tactic(auto, unfolding(crate::specs::Words::text_from))]
fn text_from(alloc: Global, at: u32, bytes: &[u8]) -> Result<(List<u8>, u32), WordFault>
    requires { at + length bytes.now < 2 ^ 31 }
    ensures within { IfOk result (λ x. x.1 ≤ 1 + length bytes.now) }
    ensures same { Gives (λ x. record { text = x.0; len = x.1 }) result
        (text_from at 1 (record { text = []; quoted = false }) bytes.now) }
{
    let mut text = List::new(alloc);
    let mut quoted = false;
    let mut len: u32 = 1;
    for byte in bytes {
        let (goes, after) = text_step(&mut text, quoted, at, len, *byte)?;
        if !goes {
            return Ok((text, len));
        }
        quoted = after;
        len += 1;
    }
    if quoted {
        return Ok((text, len));
    }
    Err(WordFault::At {
        reason: WordReason::OpenText,
        at,
    })
}

/// The text at the front, from behind its opening quote, which stands at `at`.
#[tactic(auto, unfolding(crate::specs::Words::text_at))]
pub fn text_at(alloc: Global, at: u32, bytes: &[u8]) -> Result<(Word, u32), WordFault>
    requires { at + length bytes.now < 2 ^ 31 }
    ensures within { IfOk result (λ x. x.1 ≤ 1 + length bytes.now) }
    ensures same { Gives (λ x. record { word = x.0; len = x.1 }) result (text_at at bytes.now) }
{
    let (text, len) = text_from(alloc, at, bytes)?;
    if text.items().len() > TEXT_LIMIT {
        return Err(WordFault::At {
            reason: WordReason::TextTooLong,
            at,
        });
    }
    Ok((Word::Text(Text::from_vec(text.into_vec())), len))
}
