//! Actions of a session, and the entries of its log.
use dp_messages::{Reply, Request};
use sql_base::TxnName;

/// What a session does next.
#[derive(Debug, Drop)]
pub enum Action<'a> {
    /// It sends the request to the partition. Partitions of all tables count from 0.
    Send {
        part: u32,
        sync: u64,
        request: &'a Request,
    },
    /// It draws the commit of its transaction, above the floor.
    Commit {
        name: TxnName,
        floor: u64,
    },
    /// It has done all its transactions.
    Finished,
}

/// What came of an action.
#[derive(Debug, Drop)]
pub enum Answer {
    /// The partition's reply.
    Reply(Reply),
    /// The path lost the request as often as it is sent.
    PathFailed,
    /// The stamp that was drawn.
    Stamp(u64),
}

/// An entry of a session's log.
#[derive(Debug, Drop)]
pub enum LogEntry {
    /// A request that was sent, how often the path lost it, and what came of it.
    Asked {
        part: u32,
        sync: u64,
        request: Request,
        losses: u32,
        answer: Answer,
    },
    /// A commit that was drawn.
    Drew {
        name: TxnName,
        floor: u64,
        answer: Answer,
    },
}
