//! A collector of all numbers of each entry.
ghost use Rattle.std.specs.Prelude.{◌≡◌, []};
ghost use Rattle.trace_report.specs.Lines.{lines};

use crate::rows::put_rows;
use outside::{Collector, NoMemory, Seen};
use std::alloc::Global;

/// How many numbers an entry has.
const WIDTH: usize = 11;

/// Prints a line of all its numbers for each entry that it saw.
#[derive(Debug, Drop)]
pub struct Lines {
    numbers: Vec<u64>,
}

impl Lines {
    /// A collector that saw nothing. It takes no memory.
    pub fn new(alloc: Global) -> Lines
        ensures { ⟦<Lines as Collector>⟧.collecting result ≡ lines [] }
    {
        Lines {
            numbers: Vec::new(alloc),
        }
    }
}

impl Collector for Lines {
    ghost collecting = { λ it. lines it.numbers.items };

    fn see(&mut self, entry: &Seen) -> Result<(), NoMemory> {
        self.numbers.extend_from_slice(&[
            entry.part as u64,
            entry.place,
            entry.opener as u64,
            entry.sync,
            entry.ordinal as u64,
            entry.request as u64,
            entry.reply as u64,
            entry.cause as u64,
            entry.rows as u64,
            entry.changed as u64,
            entry.mode as u64,
        ])?;
        Ok(())
    }

    fn text(&self, out: &mut Vec<u8>) -> Result<(), NoMemory> {
        out.extend_from_slice(b"LINES\n")?;
        put_rows(out, WIDTH, &self.numbers)
    }
}
