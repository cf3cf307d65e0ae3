//! Signs at the front of bytes.
ghost use Rattle.std.specs.Prelude.{◌≡◌, ◌≤◌, length, IfOk};
ghost use Rattle.statement_words.specs.Reading.{Gives};
ghost use Rattle.statement_words.specs.Words.{sign_at};

use crate::faults::{WordFault, WordReason};
use crate::tokens::{Sign, Word};

/// The longest sign at the front of the bytes, which begin at `at`, and how many bytes it takes.
#[tactic(auto, unfolding(crate::specs::Words::sign_at))]
pub fn sign_at(at: u32, bytes: &[u8]) -> Result<(Word, u32), WordFault>
    ensures within { IfOk result (λ x. x.1 ≤ length bytes.now) }
    ensures same { Gives (λ x. record { word = x.0; len = x.1 }) result (sign_at at bytes.now) }
{
    let (sign, len) = match bytes {
        [b'(', ..] => (Sign::Open, 1),
        [b')', ..] => (Sign::Close, 1),
        [b',', ..] => (Sign::Comma, 1),
        [b';', ..] => (Sign::Semicolon, 1),
        [b'+', ..] => (Sign::Plus, 1),
        [b'-', ..] => (Sign::Minus, 1),
        [b'*', ..] => (Sign::Times, 1),
        [b'/', ..] => (Sign::Over, 1),
        [b'=', ..] => (Sign::Equal, 1),
        [b'<', b'=', ..] => (Sign::AtMost, 2),
        [b'<', b'>', ..] => (Sign::Unequal, 2),
        [b'<', ..] => (Sign::Less, 1),
        [b'>', b'=', ..] => (Sign::AtLeast, 2),
        [b'>', ..] => (Sign::Greater, 1),
        _ => {
            return Err(WordFault::At {
                reason: WordReason::BadByte,
                at,
            });
        }
    };
    Ok((Word::Sign(sign), len))
}
