//! Numbers at the front of bytes.
ghost use Rattle.std.specs.Prelude.{◌≡◌, ◌<◌, ◌≤◌, ◌^◌, length, IfOk, nat_lt, if◌then◌else◌};
ghost use Rattle.std.specs.List.{prefix_len};
ghost use Rattle.std.specs.Char.{is_ascii_digit};
ghost use Rattle.statement_words.specs.Reading.{Gives};
ghost use Rattle.statement_words.specs.Words.{decimal, number_at};

use crate::faults::{WordFault, WordReason};
use crate::tokens::Word;

/// The greatest number that a script may hold: with a sign before it, it is the least 64 bit number.
const WIDEST: u64 = 9_223_372_036_854_775_808;

fn digits_len(bytes: &[u8]) -> usize
    ensures same { result ≡ prefix_len is_ascii_digit bytes.now }
    ensures within { result ≤ length bytes.now }
{
    bytes.iter().take_while(|b| b.is_ascii_digit()).count()
}

/// The number that the digits spell, unless it is wider than the widest.
fn decimal(digits: &[u8]) -> Option<u64>
    ensures { result ≡ (if nat_lt (2 ^ 63) (decimal digits.now) then None else Some (decimal digits.now)) }
{
    let mut number: u64 = 0;
    for digit in digits {
        let value = u64::from(digit.saturating_sub(b'0'));
        if number > (WIDEST - value) / 10 {
            return None;
        }
        number = number * 10 + value;
    }
    Some(number)
}

/// The longest number at the front of the bytes, which begin at `at`, and how many bytes it takes.
#[tactic(auto, unfolding(crate::specs::Words::number_at))]
pub fn number_at(at: u32, bytes: &[u8]) -> Result<(Word, u32), WordFault>
    requires { length bytes.now < 2 ^ 31 }
    ensures within { IfOk result (λ x. x.1 ≤ length bytes.now) }
    ensures same { Gives (λ x. record { word = x.0; len = x.1 }) result (number_at at bytes.now) }
{
    let len = digits_len(bytes);
    match decimal(&bytes[..len]) {
        Some(number) => Ok((Word::Number(number), len as u32)),
        None => Err(WordFault::At {
            reason: WordReason::NumberTooWide,
            at,
        }),
    }
}
