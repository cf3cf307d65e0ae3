//! Why bytes are no word.
ghost use Rattle.std.specs.Prelude.{◌≡◌};
ghost use Rattle.statement_words.specs.declared.faults.WordFault.TheVariants as faults;

use sql_base::NoMemory;
use std::alloc::{AllocError, AllocFailed};

/// Why the bytes at a place are no word.
#[derive(Clone, Copy, Debug, PartialEq, Eq)]
pub enum WordReason {
    /// A byte that begins no word and separates none, or one that a text can't hold.
    BadByte,
    /// A text that meets the end of its line before its closing quote.
    OpenText,
    /// A number above 9,223,372,036,854,775,808.
    NumberTooWide,
    /// A text of more than 255 bytes.
    TextTooLong,
}

/// Why a script has no words: the first fault of its bytes, or want of memory.
#[derive(Clone, Copy, Debug, PartialEq, Eq)]
pub enum WordFault {
    /// The byte that is at fault, counted from 0.
    At { reason: WordReason, at: u32 },
    NoMemory,
}

impl From<NoMemory> for WordFault {
    ghost from_gives = { λ _ fault. fault ≡ faults.NoMemory };

    fn from(_error: NoMemory) -> WordFault {
        WordFault::NoMemory
    }
}

impl From<AllocError> for WordFault {
    ghost from_gives = { λ _ fault. fault ≡ faults.NoMemory };

    fn from(_error: AllocError) -> WordFault {
        WordFault::NoMemory
    }
}

impl<T: Drop> From<AllocFailed<T>> for WordFault {
    ghost from_gives = { λ _ fault. fault ≡ faults.NoMemory };

    fn from(_error: AllocFailed<T>) -> WordFault {
        WordFault::NoMemory
    }
}
