//! A collector of the locks that were asked for.
ghost use Rattle.std.specs.Prelude.{◌≡◌, []};
ghost use Rattle.trace_report.specs.LockBook.{lock_book};

use crate::rows::put_rows;
use outside::{Collector, NoMemory, Seen};
use std::alloc::Global;

/// How many numbers a line has.
const WIDTH: usize = 5;

/// The kind of the reply Locked.
const LOCKED: u8 = 3;

/// Prints a line for each entry that asked for a lock, or was answered Locked: its partition, session, ordinal, mode
/// and reply.
#[derive(Debug, Drop)]
pub struct LockBook {
    numbers: Vec<u64>,
}

impl LockBook {
    /// A collector that saw nothing. It takes no memory.
    pub fn new(alloc: Global) -> LockBook
        ensures { ⟦<LockBook as Collector>⟧.collecting result ≡ lock_book [] }
    {
        LockBook {
            numbers: Vec::new(alloc),
        }
    }
}

impl Collector for LockBook {
    ghost collecting = { λ it. lock_book it.numbers.items };

    fn see(&mut self, entry: &Seen) -> Result<(), NoMemory> {
        if entry.mode == 0 && entry.reply != LOCKED {
            return Ok(());
        }
        self.numbers.extend_from_slice(&[
            entry.part as u64,
            entry.opener as u64,
            entry.ordinal as u64,
            entry.mode as u64,
            entry.reply as u64,
        ])?;
        Ok(())
    }

    fn text(&self, out: &mut Vec<u8>) -> Result<(), NoMemory> {
        out.extend_from_slice(b"LOCKS\n")?;
        put_rows(out, WIDTH, &self.numbers)
    }
}
