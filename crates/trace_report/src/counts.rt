//! A collector of how often each kind of reply came.
ghost use Rattle.std.specs.Prelude.{◌≡◌, [], ◌++◌, OnOk, OnErr, unwrap_or};
ghost use Rattle.std.specs.Io.{StartsWith};
ghost use Rattle.trace_report.specs.Counts.{begun, counts, count_line, count_lines, with_kind};

use itoa::Buffer;
use outside::{Collector, NoMemory, Seen};
use std::alloc::AllocError;

/// How many kinds of replies there are.
const KINDS: usize = 20;

/// Prints how often each kind of reply came, in rising kind, without those that never came.
#[derive(Debug, Drop)]
pub struct Counts {
    counts: Option<[u64; KINDS]>,
}

impl Counts {
    /// A collector that saw nothing.
    pub fn new() -> Counts
        ensures { ⟦<Counts as Collector>⟧.collecting result ≡ counts [] }
    {
        Counts { counts: None }
    }
}

impl Collector for Counts {
    ghost collecting = { λ it. counts (unwrap_or it.counts []) };

    fn see(&mut self, entry: &Seen) -> Result<(), NoMemory> {
        self.counts = Some(with_kind(entry.reply as usize, begun(self.counts)));
        Ok(())
    }

    fn text(&self, out: &mut Vec<u8>) -> Result<(), NoMemory> {
        out.extend_from_slice(b"COUNTS\n")?;
        match &self.counts {
            Some(counts) => put_counts(out, counts),
            None => Ok(()),
        }
    }
}

/// The counts so far, twenty of them.
fn begun(counts: Option<[u64; KINDS]>) -> [u64; KINDS]
    ensures { result ≡ begun (unwrap_or counts []) }
{
    match counts {
        Some(counts) => counts,
        None => [0; KINDS],
    }
}

/// The counts with that of the kind one higher. One that stands at the end of its numbers stays.
fn with_kind(kind: usize, counts: [u64; KINDS]) -> [u64; KINDS]
    ensures { result ≡ with_kind kind counts }
{
    let mut counts = counts;
    if 1 <= kind && kind <= KINDS {
        counts[kind - 1] = counts[kind - 1].saturating_add(1);
    }
    counts
}

/// Appends a line for each count that isn't 0: its kind and the count. Kinds count from 1.
fn put_counts(out: &mut Vec<u8>, counts: &[u64]) -> Result<(), NoMemory>
    ensures ok { OnOk result (out.new.items ≡ out.old.items ++ count_lines 1 counts.now) }
    ensures err { OnErr result (StartsWith out.new.items out.old.items) }
{
    let mut kind = 1;
    for count in counts {
        if *count != 0 {
            put_count(out, kind, *count)?;
        }
        kind += 1;
    }
    Ok(())
}

/// Appends a line of a kind and its count.
fn put_count(out: &mut Vec<u8>, kind: u128, count: u64) -> Result<(), NoMemory>
    ensures ok { OnOk result (out.new.items ≡ out.old.items ++ count_line kind count) }
    ensures err { OnErr result (StartsWith out.new.items out.old.items) }
{
    let mut digits = Buffer::new();
    out.extend_from_slice(digits.format(kind).as_bytes())?;
    out.push(b' ').map_err(AllocError::from)?;
    out.extend_from_slice(digits.format(count).as_bytes())?;
    out.push(b'\n').map_err(AllocError::from)?;
    Ok(())
}
