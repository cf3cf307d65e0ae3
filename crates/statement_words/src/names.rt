//! Names and keywords at the front of bytes.
ghost use Rattle.std.specs.Prelude.{◌≡◌, ◌<◌, ◌≤◌, ◌^◌, length, IfOk};
ghost use Rattle.std.specs.List.{prefix_len};
ghost use Rattle.statement_words.specs.Reading.{Gives};
ghost use Rattle.sql_base.specs.Names.{is_name_byte};
ghost use Rattle.statement_words.specs.Words.{name_at};

use crate::faults::WordFault;
use crate::keywords::keyword_of;
use crate::tokens::Word;
use sql_base::Name;
use std::alloc::Global;

fn is_name_byte(byte: u8) -> bool
    ensures { result ≡ is_name_byte byte }
{
    byte.is_ascii_alphanumeric() || byte == b'_'
}

fn name_len(bytes: &[u8]) -> usize
    ensures same { result ≡ prefix_len is_name_byte bytes.now }
    ensures within { result ≤ length bytes.now }
{
    bytes.iter().take_while(|b| is_name_byte(**b)).count()
}

/// The longest name or keyword at the front of the bytes, and how many bytes it takes.
#[tactic(auto, unfolding(crate::specs::Words::name_at))]
pub fn name_at(alloc: Global, bytes: &[u8]) -> Result<(Word, u32), WordFault>
    requires { length bytes.now < 2 ^ 31 }
    ensures within { IfOk result (λ x. x.1 ≤ length bytes.now) }
    ensures same { Gives (λ x. record { word = x.0; len = x.1 }) result (name_at bytes.now) }
{
    let len = name_len(bytes);
    let name = &bytes[..len];
    match keyword_of(name) {
        Some(keyword) => Ok((Word::Keyword(keyword), len as u32)),
        None => Ok((Word::Name(Name::from_vec(name.to_vec(alloc)?)), len as u32)),
    }
}
