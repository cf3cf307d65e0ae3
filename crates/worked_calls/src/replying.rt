//! What a partition of t (k INT, v INT, PRIMARY KEY (k)) is to reply.
use crate::asking::key_bytes;
use dp_messages::Reply;
use sql_base::{Cause, Fault, Key, List, Lock, Mode, Packed};

/// What is to be replied. A number is that of a key, and rows are packed.
#[derive(Clone, Copy)]
pub enum Wanted<'a> {
    Ended(&'a [&'a [u8]], u32),
    /// Subset 1 stops after a key.
    Redrive(u8, Cause, &'a [&'a [u8]], u32),
    /// The lock of a session's first attempt.
    Locked(u32, &'a [u8], Mode),
    Failed(u8, Fault),
    Row(&'a [u8]),
    NoRow,
    Done,
    Floor(u64),
    Duplicate(u8),
    AfterEnd(u32),
    AfterPrepare(u64),
    StillLive(u32),
    NotKnown,
    NotPrepared,
    StampLow(u64),
    NoSubset,
    WrongKey(u8),
    BadCode,
    BadShape,
    TooManySubsets,
    /// A quantum that stops in the subset of this number.
    Stops(u32),
}

fn is_key(key: &Key, number: u8) -> bool {
    key.bytes() == key_bytes(number).as_slice()
}

fn are_rows(rows: &List<Packed>, wanted: &[&[u8]]) -> bool {
    let mut same = rows.items().len() == wanted.len();
    for (row, bytes) in rows.items().iter().zip(wanted) {
        same = same && row.bytes() == *bytes;
    }
    same
}

fn is_lock(lock: &Lock, session: u32, prefix: &[u8], mode: Mode) -> bool {
    lock.holder.session == session
        && lock.holder.ordinal == 1
        && lock.prefix.bytes() == prefix
        && lock.mode == mode
}

/// Whether the reply gives rows, a row, a lock or a fault, and just those that are wanted.
fn gives(reply: &Reply, wanted: Wanted<'_>) -> bool {
    match (reply, wanted) {
        (Reply::Ended { rows, changed }, Wanted::Ended(want, count)) => {
            *changed == count && are_rows(rows, want)
        }
        (
            Reply::Redrive {
                subset,
                last,
                cause,
                rows,
                changed,
            },
            Wanted::Redrive(number, why, want, count),
        ) => {
            *subset == 1
                && is_key(last, number)
                && *cause == why
                && *changed == count
                && are_rows(rows, want)
        }
        (Reply::Redrive { subset, .. }, Wanted::Stops(number)) => *subset == number,
        (Reply::Locked(lock), Wanted::Locked(session, prefix, mode)) => {
            is_lock(lock, session, prefix, mode)
        }
        (Reply::Failed { key, fault }, Wanted::Failed(number, why)) => {
            is_key(key, number) && *fault == why
        }
        (Reply::Row(row), Wanted::Row(want)) => row.bytes() == want,
        (Reply::DuplicateKey { key }, Wanted::Duplicate(number)) => is_key(key, number),
        _ => false,
    }
}

/// Whether the reply says nothing more than the one that is wanted, but for a number.
fn tells(reply: &Reply, wanted: Wanted<'_>) -> bool {
    match (reply, wanted) {
        (Reply::Floor(floor), Wanted::Floor(want)) => *floor == want,
        (Reply::AfterEnd { ended }, Wanted::AfterEnd(want)) => *ended == want,
        (Reply::AfterPrepare { floor }, Wanted::AfterPrepare(want)) => *floor == want,
        (Reply::StillLive { ordinal }, Wanted::StillLive(want)) => *ordinal == want,
        (Reply::StampLow { floor }, Wanted::StampLow(want)) => *floor == want,
        (Reply::WrongKey { kept }, Wanted::WrongKey(number)) => is_key(kept, number),
        (Reply::NoRow, Wanted::NoRow)
        | (Reply::Done, Wanted::Done)
        | (Reply::NotKnown, Wanted::NotKnown)
        | (Reply::NotPrepared, Wanted::NotPrepared)
        | (Reply::NoSubset, Wanted::NoSubset)
        | (Reply::BadCode, Wanted::BadCode)
        | (Reply::BadShape, Wanted::BadShape)
        | (Reply::TooManySubsets, Wanted::TooManySubsets) => true,
        _ => false,
    }
}

/// Whether the reply is the one that is wanted.
pub fn is_wanted(reply: &Reply, wanted: Wanted<'_>) -> bool {
    gives(reply, wanted) || tells(reply, wanted)
}
