//! Runs with a trace: what collectors say behind the text, and what they keep.
ghost use Rattle.std.specs.Prelude.{◌+◌, [], ◌∷◌, decimal, slice_index};

use super::*;
use crate::run_cases::Paths;
use crate::run_rows::{COMMIT, LOAD, SCAN, TABLE};
use crate::run_tests::{joined, wires_of, words_of};
use itoa::Buffer;
use outside::{MemorySink, MemorySource, Seen};
use std::alloc::Global;
use std::test::Fail;

/// A table of five rows, read two rows at a time.
const SCRIPT: [&str; 6] = ["QUANTUM 2;", TABLE, LOAD, "SESSION;", SCAN, COMMIT];

const TEXT: [&str; 12] = [
    "TXN 1 1 COMMITTED 1",
    "ROW 1 1 1 1 10",
    "ROW 1 1 1 2 20",
    "ROW 1 1 1 3 30",
    "ROW 1 1 1 4 40",
    "ROW 1 1 1 5 50",
    "TABLE t",
    "REC 1 10",
    "REC 2 20",
    "REC 3 30",
    "REC 4 40",
    "REC 5 50",
];

/// A Begin and two Continues, of which two redrive with cause Visits, and the two requests of the commit.
const TRACE: [&str; 17] = [
    "LINES",
    "0 0 1 1 1 1 2 1 2 0 1",
    "0 1 1 2 1 4 2 1 2 0 0",
    "0 2 1 3 1 4 1 0 1 0 0",
    "0 3 1 4 1 8 8 0 0 0 0",
    "0 4 1 5 1 9 7 0 0 0 0",
    "COUNTS",
    "1 1",
    "2 2",
    "7 1",
    "8 1",
    "LOCKS",
    "0 1 1 1 2",
    "QUANTA",
    "0 0 2 0 1",
    "0 1 2 0 1",
    "0 2 1 0 0",
];

/// The status of a run of the script, and what its sink took.
fn ran(
    alloc: Global,
    words: &[&str],
    collectors: &mut Vec<Box<dyn Collector>>,
) -> Result<(u8, Vec<u8>), Fail> {
    let words = words_of(alloc, words)?;
    let wires = wires_of(alloc, Paths::Carry)?;
    let mut source = MemorySource::new(joined(alloc, &SCRIPT)?, Vec::new(alloc));
    let mut sink = MemorySink::new(alloc, 1_000, Vec::new(alloc))?;
    let outcome = run(
        alloc,
        words.as_slice(),
        &mut source,
        &mut sink,
        &QuietGate,
        wires,
        collectors,
    );
    Ok((outcome.status, sink.taken().to_vec(alloc)?))
}

/// Words, the status of their run, and whether what the collectors say follows the text.
const CASES: [(&[&str], u8, bool); 5] = [
    (&["nsq", "steps"], 0, false),
    (&["nsq", "steps", "--trace"], 0, true),
    (&["nsq", "steps", "1", "--trace", "0"], 0, true),
    (&["nsq", "steps", "--trace", "0", "--trace"], 2, false),
    (&["nsq", "check", "--trace"], 2, false),
];

#[test]
fn what_collectors_say_follows_the_text(rt: HostRuntime) -> Result<(), Fail> {
    let alloc = rt.alloc();
    for (words, status, traced) in &CASES {
        let mut collectors: Vec<Box<dyn Collector>> = Vec::new(alloc);
        collectors.push(Box::new(alloc, Lines::new(alloc))?)?;
        collectors.push(Box::new(alloc, Counts::new())?)?;
        collectors.push(Box::new(alloc, LockBook::new(alloc))?)?;
        collectors.push(Box::new(alloc, QuantumTable::new(alloc))?)?;
        let mut expected = Vec::new(alloc);
        if *status == 0 {
            expected.extend_from_slice(&joined(alloc, &TEXT)?)?;
        }
        if *traced {
            expected.extend_from_slice(&joined(alloc, &TRACE)?)?;
        }
        let (ended, taken) = ran(alloc, *words, &mut collectors)?;
        assert_eq!(rt; ended, *status);
        assert_eq!(rt; taken.as_slice(), expected.as_slice());
    }
    Ok(())
}

/// A collector of how many rows it saw.
#[derive(Drop)]
struct RowCount {
    rows: u64,
}

impl Collector for RowCount {
    ghost collecting = { λ it. record {
      content = it.rows ∷ [];
      step = λ entry content. (slice_index content 0 + entry.rows) ∷ [];
      form = λ content. decimal (slice_index content 0);
    } };

    fn see(&mut self, entry: &Seen) -> Result<(), outside::NoMemory> {
        match self.rows.checked_add(entry.rows as u64) {
            Some(rows) => {
                self.rows = rows;
                Ok(())
            }
            None => Err(outside::NoMemory),
        }
    }

    fn text(&self, out: &mut Vec<u8>) -> Result<(), outside::NoMemory> {
        let mut digits = Buffer::new();
        out.extend_from_slice(digits.format(self.rows).as_bytes())?;
        Ok(())
    }
}

#[test]
fn collectors_go_on_from_what_they_had(rt: HostRuntime) -> Result<(), Fail> {
    let alloc = rt.alloc();
    let mut collectors: Vec<Box<dyn Collector>> = Vec::new(alloc);
    collectors.push(Box::new(alloc, RowCount { rows: 100 })?)?;
    let (status, _taken) = ran(alloc, &["nsq", "steps", "--trace"], &mut collectors)?;
    assert_eq!(rt; status, 0);
    let mut said = Vec::new(alloc);
    for collector in &collectors {
        collector.text(&mut said)?;
    }
    assert_eq!(rt; said.as_slice(), b"105".as_slice());
    Ok(())
}
