//! An entry of a history, as collectors see it.
ghost use Rattle.std.specs.Prelude.{◌≡◌, ◌<◌, ◌^◌, length};
ghost use Rattle.run_record.specs.Seen.{cause_number, mode_number, reply_cause, reply_number, request_mode, request_number, seen_entry, under};
ghost use Rattle.run_record.specs.Tiles.{reply_changed, reply_rows};

use dp_messages::{Ask, Reply};
use outside::Seen;
use partition_state::Entry;
use sql_base::{Access, Cause, Mode};

/// The entry at a place in the history of a partition, both counted from 0.
pub fn seen_of(part: u32, place: u64, entry: &Entry) -> Seen
    requires { length (reply_rows entry.now.reply) < 2 ^ 32 }
    ensures { result ≡ seen_entry part place entry.now }
{
    Seen {
        part,
        place,
        opener: entry.opener,
        sync: entry.sync,
        ordinal: entry.request.ordinal,
        request: request_number(&entry.request.ask),
        reply: reply_number(&entry.reply),
        cause: reply_cause(&entry.reply),
        rows: row_count(&entry.reply),
        changed: changed(&entry.reply),
        mode: request_mode(&entry.request.ask),
    }
}

/// The kind of a request.
fn request_number(ask: &Ask) -> u8
    ensures { result ≡ request_number ask.now }
{
    match ask {
        Ask::BeginRead { .. } => 1,
        Ask::BeginUpdate { .. } => 2,
        Ask::BeginDelete { .. } => 3,
        Ask::Continue { .. } => 4,
        Ask::ReadKey { .. } => 5,
        Ask::Insert { .. } => 6,
        Ask::LockGranule { .. } => 7,
        Ask::Prepare => 8,
        Ask::EndCommit { .. } => 9,
        Ask::EndUndo => 10,
    }
}

/// The kind of a reply.
fn reply_number(reply: &Reply) -> u8
    ensures { result ≡ reply_number reply.now }
{
    match reply {
        Reply::Ended { .. } => 1,
        Reply::Redrive { .. } => 2,
        Reply::Locked(_) => 3,
        Reply::Failed { .. } => 4,
        Reply::Row(_) => 5,
        Reply::NoRow => 6,
        Reply::Done => 7,
        Reply::Floor(_) => 8,
        Reply::DuplicateKey { .. } => 9,
        Reply::AfterEnd { .. } => 10,
        Reply::AfterPrepare { .. } => 11,
        Reply::StillLive { .. } => 12,
        Reply::NotKnown => 13,
        Reply::NotPrepared => 14,
        Reply::StampLow { .. } => 15,
        Reply::NoSubset => 16,
        Reply::WrongKey { .. } => 17,
        Reply::BadCode => 18,
        Reply::BadShape => 19,
        Reply::TooManySubsets => 20,
    }
}

fn cause_number(cause: &Cause) -> u8
    ensures { result ≡ cause_number cause.now }
{
    match cause {
        Cause::Visits => 1,
        Cause::Lock => 2,
        Cause::Fault => 3,
        Cause::Buffer => 4,
    }
}

/// The cause of a redrive, or 0.
fn reply_cause(reply: &Reply) -> u8
    ensures { result ≡ reply_cause reply.now }
{
    match reply {
        Reply::Redrive { cause, .. } => cause_number(cause),
        _ => 0,
    }
}

/// How many rows a reply brings.
fn row_count(reply: &Reply) -> u32
    requires { length (reply_rows reply.now) < 2 ^ 32 }
    ensures { result ≡ length (reply_rows reply.now) }
{
    match reply {
        Reply::Ended { rows, .. } => rows.items().len() as u32,
        Reply::Redrive { rows, .. } => rows.items().len() as u32,
        Reply::Row(_) => 1,
        _ => 0,
    }
}

/// How many records a request changed, as its reply counts them.
fn changed(reply: &Reply) -> u32
    ensures { result ≡ reply_changed reply.now }
{
    match reply {
        Reply::Ended { changed, .. } => *changed,
        Reply::Redrive { changed, .. } => *changed,
        _ => 0,
    }
}

fn mode_number(mode: &Mode) -> u8
    ensures { result ≡ mode_number mode.now }
{
    match mode {
        Mode::S => 1,
        Mode::X => 2,
    }
}

/// The mode of the lock that a subset asks for under an access.
fn under(access: &Access, mode: &Mode) -> u8
    ensures { result ≡ under access.now mode.now }
{
    match access {
        Access::Repeatable => mode_number(mode),
        Access::Stable => 0,
        Access::Browse => 0,
    }
}

/// The mode of the lock that a request asks for, or 0.
fn request_mode(ask: &Ask) -> u8
    ensures { result ≡ request_mode ask.now }
{
    match ask {
        Ask::BeginRead { access, .. } => under(access, &Mode::S),
        Ask::BeginUpdate { access, .. } => under(access, &Mode::X),
        Ask::BeginDelete { access, .. } => under(access, &Mode::X),
        Ask::ReadKey { access, .. } => under(access, &Mode::S),
        Ask::Insert { .. } => mode_number(&Mode::X),
        Ask::LockGranule { mode, .. } => mode_number(mode),
        Ask::Continue { .. } => 0,
        Ask::Prepare => 0,
        Ask::EndCommit { .. } => 0,
        Ask::EndUndo => 0,
    }
}
