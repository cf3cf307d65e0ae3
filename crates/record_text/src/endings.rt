//! How an attempt ended, by its entries.
ghost use Rattle.std.specs.Prelude.{◌≡◌, IfOk, None};
ghost use Rattle.std.specs.List.{range_with_len};
ghost use Rattle.record_text.specs.Scaffold.Reading.{drawn, first_failure, is_locked_out, last_failure, most_parts, outcome_by, outcome_of};

use crate::entries::{failure_behind, stamp_of};
use session_grammar::LogEntry;
use sql_base::{Abort, NoMemory, Outcome};

/// The tables of a script have no more partitions together.
const MOST_PARTS: u32 = 16;

// The stamp that the attempt drew.
fn drawn(entries: &[LogEntry]) -> Option<u64>
    ensures { result ≡ drawn entries.now }
{
    for entry in entries {
        if let Some(stamp) = stamp_of(entry) {
            return Some(stamp);
        }
    }
    None
}

// How the last answer of a partition before its End fails the attempt, if it does.
fn last_failure(part: u32, entries: &[LogEntry]) -> Result<Option<Abort>, NoMemory>
    ensures { IfOk result (λ failed. failed ≡ last_failure part None entries.now) }
{
    let mut found = None;
    for entry in entries {
        found = failure_behind(part, found, entry)?;
    }
    Ok(found)
}

// The failure of the lowest partition that failed.
fn first_failure(entries: &[LogEntry]) -> Result<Option<Abort>, NoMemory>
    ensures { IfOk result (λ failed. failed ≡ first_failure entries.now (range_with_len 0 most_parts)) }
{
    for part in 0..MOST_PARTS {
        if let Some(abort) = last_failure(part, entries)? {
            return Ok(Some(abort));
        }
    }
    Ok(None)
}

fn outcome_by(stamp: Option<u64>, failed: Option<Abort>) -> Outcome
    ensures { result ≡ outcome_by stamp failed }
{
    match stamp {
        Some(stamp) => Outcome::Committed { stamp },
        None => match failed {
            Some(abort) => Outcome::Aborted(abort),
            None => Outcome::RolledBack,
        },
    }
}

/// How an attempt with these entries ended.
pub(crate) fn outcome_of(entries: &[LogEntry]) -> Result<Outcome, NoMemory>
    ensures { IfOk result (λ outcome. outcome ≡ outcome_of entries.now) }
{
    let failed = first_failure(entries)?;
    Ok(outcome_by(drawn(entries), failed))
}

/// Whether another attempt may follow one that ended so.
pub(crate) fn is_locked_out(outcome: &Outcome) -> bool
    ensures { result ≡ is_locked_out outcome.now }
{
    match outcome {
        Outcome::Aborted(Abort::LockedOut) => true,
        Outcome::Aborted(_) => false,
        Outcome::Committed { .. } => false,
        Outcome::RolledBack => false,
    }
}
