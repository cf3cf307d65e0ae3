//! Why no script was read.
ghost use Rattle.std.specs.Prelude.{◌≡◌};
ghost use Rattle.statement_reader.specs.declared.faults.ReadFault.TheVariants as faults;

use sql_base::NoMemory;
use statement_draft::Reason;
use thiserror::Error;

/// The place at which bytes are no script. Lines count from 1 and end at LF, columns count bytes from 1.
#[derive(Clone, Copy, Debug, PartialEq, Eq)]
pub struct ScriptFault {
    pub line: u32,
    pub column: u32,
    pub reason: Reason,
}

/// Why no script was read: a fault of the bytes, or want of memory.
#[derive(Clone, Copy, Debug, PartialEq, Eq, Error)]
pub enum ReadFault {
    #[error("line {} column {}: {:?}", .0.line, .0.column, .0.reason)]
    Script(ScriptFault),
    #[error("out of memory")]
    NoMemory,
}

impl From<NoMemory> for ReadFault {
    ghost from_gives = { λ _ fault. fault ≡ faults.NoMemory };

    fn from(_error: NoMemory) -> ReadFault {
        ReadFault::NoMemory
    }
}
