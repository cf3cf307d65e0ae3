//! Reading a source to its end.
ghost use Rattle.std.specs.Prelude.{◌≡◌, ℕ, List, ◌+◌, ◌≤◌, take, drop, length, IfOk, OnOk, OnErr, IfSome};
ghost use Rattle.std.specs.Io.KnownBytes.{Consumes};
ghost use Rattle.outside.specs.Counter.{Rose};
ghost use Rattle.nonstop_sql.specs.declared.input.ReadError.TheVariants.{Failed, NoMemory};

use outside::{Failed, Source};
use statement_words::SCRIPT_LIMIT;
use std::alloc::{AllocError, Global};

/// The most bytes that are asked for in one read.
const PIECE: usize = 65_536;

/// Why a script was not read.
#[derive(Clone, Copy, Debug, PartialEq, Eq)]
pub enum ReadError {
    Failed,
    NoMemory,
}

impl From<Failed> for ReadError {
    ghost from_gives = { λ _ error. error ≡ Failed };

    fn from(_error: Failed) -> ReadError {
        ReadError::Failed
    }
}

impl From<AllocError> for ReadError {
    ghost from_gives = { λ _ error. error ≡ NoMemory };

    fn from(_error: AllocError) -> ReadError {
        ReadError::NoMemory
    }
}

/// Reads the source to its end, or until it has given one byte more than a script may have.
///
/// After an error the bytes that were read are lost.
pub fn read_to_limit<S: Source>(alloc: Global, source: &mut S) -> Result<Vec<u8>, ReadError>
    ensures within { IfOk result (λ bytes. length bytes.items ≤ 4194305) }
    ensures front { IfOk result (λ bytes.
        IfSome (S.left source.old) (λ left. bytes.items ≡ take 4194305 left)) }
    ensures rest { OnOk result
        (IfSome (S.left source.old) (λ left. S.left source.new ≡ Some (drop 4194305 left))) }

    ensures failed { result ≡ Err ReadError.Failed → Rose (S.faults source.old) (S.faults source.new) }
    ensures lost { OnErr result
        ((bytes : List ℕ) × Consumes (S.left source.old) (S.left source.new) bytes) }
    ensures counted { S.faults source.old ≤ S.faults source.new }
{
    let mut bytes = Vec::new(alloc);
    let mut piece = [0; PIECE];
    while bytes.len() <= SCRIPT_LIMIT {
        let room = PIECE.min(SCRIPT_LIMIT + 1 - bytes.len());
        let count = source.read(&mut piece[..room])?;
        if count == 0 {
            return Ok(bytes);
        }
        bytes.extend_from_slice(&piece[..count])?;
    }
    Ok(bytes)
}
