//! The record of a run.
use commit_journal::Drawn;
use outside::Passage;
use partition_state::Entry;
use session_grammar::LogEntry;
use sql_base::{List, Row};

/// One action of a scheduled run. Sessions count from 1, the partitions of all tables from 0.
#[derive(Debug, Drop)]
pub enum Act {
    /// A session's request is given to its wire.
    Send {
        session: u32,
        part: u32,
        sync: u64,
        passage: Passage,
    },
    /// A session takes the reply that it waits for.
    Take {
        session: u32,
    },
    /// A session serves the End itself that its path lost as often as it is sent.
    ByHand {
        session: u32,
        part: u32,
        sync: u64,
    },
    /// A session draws its commit.
    Draw {
        session: u32,
    },
    /// A partition serves the oldest message of its mail.
    Serve {
        part: u32,
        opener: u32,
        sync: u64,
    },
}

/// All that is kept of a run. The partitions began with the LOAD rows of the script.
#[derive(Debug, Drop)]
pub struct RunRecord {
    /// The history of each partition, in the order of the partitions.
    pub histories: List<List<Entry>>,
    /// The rows of each partition at the end, in key order.
    pub rows: List<List<Row>>,
    /// The commits, in the order in which they were drawn.
    pub journal: List<Drawn>,
    /// The log of each session, in the order of the sessions.
    pub logs: List<List<LogEntry>>,
    /// The actions of a scheduled run, in their order; none of a run with threads.
    pub acts: List<Act>,
}
