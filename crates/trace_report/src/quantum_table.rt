//! A collector of the quanta.
ghost use Rattle.std.specs.Prelude.{◌≡◌, []};
ghost use Rattle.trace_report.specs.QuantumTable.{quantum_table};

use crate::rows::put_rows;
use outside::{Collector, NoMemory, Seen};
use std::alloc::Global;

/// How many numbers a line has.
const WIDTH: usize = 5;

/// The kinds of the replies Ended and Redrive, one of which each quantum is answered that handled something.
const ENDED: u8 = 1;

const REDRIVE: u8 = 2;

/// Prints a line for each entry that was answered Ended or Redrive: its partition, place, rows, changed records and
/// cause.
#[derive(Debug, Drop)]
pub struct QuantumTable {
    numbers: Vec<u64>,
}

impl QuantumTable {
    /// A collector that saw nothing. It takes no memory.
    pub fn new(alloc: Global) -> QuantumTable
        ensures { ⟦<QuantumTable as Collector>⟧.collecting result ≡ quantum_table [] }
    {
        QuantumTable {
            numbers: Vec::new(alloc),
        }
    }
}

impl Collector for QuantumTable {
    ghost collecting = { λ it. quantum_table it.numbers.items };

    fn see(&mut self, entry: &Seen) -> Result<(), NoMemory> {
        if entry.reply != ENDED && entry.reply != REDRIVE {
            return Ok(());
        }
        self.numbers.extend_from_slice(&[
            entry.part as u64,
            entry.place,
            entry.rows as u64,
            entry.changed as u64,
            entry.cause as u64,
        ])?;
        Ok(())
    }

    fn text(&self, out: &mut Vec<u8>) -> Result<(), NoMemory> {
        out.extend_from_slice(b"QUANTA\n")?;
        put_rows(out, WIDTH, &self.numbers)
    }
}
