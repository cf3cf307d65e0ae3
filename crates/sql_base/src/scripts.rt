//! Scripts with their limits, loads and sessions.
use crate::lists::List;
use crate::statements::Statement;
use crate::tables::TableDef;
use crate::values::Row;

/// The limits of a run.
#[derive(Clone, Copy, Debug, PartialEq, Eq)]
pub struct Limits {
    /// How many candidates one quantum handles at the most, 1 to 1,000.
    pub quantum: u32,
    /// The bytes of one reply's rows, each with 2 bytes more, 320 to 32,768.
    pub buffer: u32,
    /// How often a request goes out again after Locked, 0 to 100.
    pub patience: u32,
    /// The threads that serve one partition, 1 to 4.
    pub servers: u32,
    /// How often an attempt that failed by a lock is run again, 0 to 10.
    pub restart: u32,
}

/// One transaction of a session: its statements, and whether COMMIT WORK or ROLLBACK WORK ends it.
#[derive(Debug, Drop)]
pub struct Work {
    pub statements: List<Statement>,
    pub commit: bool,
}

/// The records that a table begins with, in key order.
#[derive(Debug, Drop)]
pub struct Load {
    pub table: u8,
    pub rows: List<Row>,
}

/// A whole run: what is there at the beginning, and what each session does.
#[derive(Debug, Drop)]
pub struct Script {
    pub limits: Limits,
    pub tables: List<TableDef>,
    pub loads: List<Load>,
    pub sessions: List<List<Work>>,
}
