//! What an entry of a log tells.
ghost use Rattle.std.specs.Prelude.{◌≡◌, ◌≤◌, length, IfOk};
ghost use Rattle.session_grammar.specs.Rows.{failure, is_end};
ghost use Rattle.record_text.specs.Scaffold.Reading.{closes, closes_reply, failure_behind, ordinal_of, own_length, stamp_of};

use dp_messages::{Ask, Reply};
use session_grammar::{Answer, LogEntry};
use sql_base::{Abort, Key, NoMemory};
use std::alloc::Global;

// The attempt of an entry.
fn ordinal_of(entry: &LogEntry) -> u32
    ensures { result ≡ ordinal_of entry.now }
{
    match entry {
        LogEntry::Asked { request, .. } => request.ordinal,
        LogEntry::Drew { name, .. } => name.ordinal,
    }
}

/// How many entries at the front of a log are of one attempt.
pub(crate) fn own_length(ordinal: u32, log: &[LogEntry]) -> usize
    ensures length { result ≡ own_length ordinal log.now }
    ensures within { result ≤ length log.now }
{
    for (place, entry) in log.iter().enumerate() {
        if ordinal_of(entry) != ordinal {
            return place;
        }
    }
    log.len()
}

/// The stamp that was drawn.
pub(crate) fn stamp_of(entry: &LogEntry) -> Option<u64>
    ensures { result ≡ stamp_of entry.now }
{
    match entry {
        LogEntry::Drew {
            answer: Answer::Stamp(stamp),
            ..
        } => Some(*stamp),
        LogEntry::Drew { .. } => None,
        LogEntry::Asked { .. } => None,
    }
}

fn is_end(ask: &Ask) -> bool
    ensures { result ≡ is_end ask.now }
{
    matches!(ask, Ask::EndCommit { .. } | Ask::EndUndo)
}

fn key_copy(key: &Key) -> Result<Key, NoMemory>
    ensures { IfOk result (λ copy. copy ≡ key.now) }
{
    Ok(key.clone()?)
}

// How an answer fails its attempt, if it does.
fn failure(answer: &Answer) -> Result<Option<Abort>, NoMemory>
    ensures { IfOk result (λ abort. abort ≡ failure answer.now) }
{
    match answer {
        Answer::PathFailed => Ok(Some(Abort::PathLost)),
        Answer::Reply(Reply::Locked(_)) => Ok(Some(Abort::LockedOut)),
        Answer::Reply(Reply::Failed { key, fault }) => Ok(Some(Abort::Faulted {
            key: key_copy(key)?,
            fault: *fault,
        })),
        Answer::Reply(Reply::DuplicateKey { key }) => Ok(Some(Abort::Duplicate {
            key: key_copy(key)?,
        })),
        Answer::Reply(_) | Answer::Stamp(_) => Ok(None),
    }
}

/// How the last answer of the partition fails the attempt, with one entry more.
pub(crate) fn failure_behind(
    part: u32,
    found: Option<Abort>,
    entry: &LogEntry,
) -> Result<Option<Abort>, NoMemory>
    ensures { IfOk result (λ after. after ≡ failure_behind part found entry.now) }
{
    match entry {
        LogEntry::Asked {
            part: asked,
            request,
            answer,
            ..
        } => {
            if *asked == part && !is_end(&request.ask) {
                failure(answer)
            } else {
                Ok(found)
            }
        }
        LogEntry::Drew { .. } => Ok(found),
    }
}

fn closes_reply(reply: &Reply) -> bool
    ensures { result ≡ closes_reply reply.now }
{
    !matches!(reply, Reply::Locked(_) | Reply::Redrive { .. })
}

/// Whether an entry is the last of a subset or request that was done.
pub(crate) fn closes(entry: &LogEntry) -> bool
    ensures { result ≡ closes entry.now }
{
    match entry {
        LogEntry::Asked {
            answer: Answer::Reply(reply),
            ..
        } => closes_reply(reply),
        LogEntry::Asked { .. } => false,
        LogEntry::Drew { .. } => false,
    }
}
