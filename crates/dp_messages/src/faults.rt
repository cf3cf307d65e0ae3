//! Why bytes are no message.

ghost use Rattle.std.specs.Prelude.{◌≡◌};
ghost use Rattle.dp_messages.specs.declared.faults.BytesFault.TheVariants as faults;

use sql_base::NoMemory;
use std::alloc::{AllocError, AllocFailed};
use thiserror::Error;

/// Why bytes were not read.
#[derive(Clone, Copy, Debug, PartialEq, Eq, Error)]
pub enum BytesFault {
    /// They spell no envelope, or no reply.
    #[error("no message has these bytes")]
    Malformed,
    #[error("out of memory")]
    NoMemory,
}

impl From<NoMemory> for BytesFault {
    ghost from_gives = { λ _ fault. fault ≡ faults.NoMemory };

    fn from(_error: NoMemory) -> BytesFault {
        BytesFault::NoMemory
    }
}

impl From<AllocError> for BytesFault {
    ghost from_gives = { λ _ fault. fault ≡ faults.NoMemory };

    fn from(_error: AllocError) -> BytesFault {
        BytesFault::NoMemory
    }
}

impl<T: Drop> From<AllocFailed<T>> for BytesFault {
    ghost from_gives = { λ _ fault. fault ≡ faults.NoMemory };

    fn from(_error: AllocFailed<T>) -> BytesFault {
        BytesFault::NoMemory
    }
}
