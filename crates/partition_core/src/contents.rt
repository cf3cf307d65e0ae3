//! What a partition keeps.
use partition_state::{Entry, Live};
use quantum_runner::{CheckedTable, Store, Work};
use sql_base::{ColumnKind, Key, Limits, List, Row};
use subset_blocks::Numbered;
use sync_messages::Openers;

/// What a partition keeps.
#[derive(Debug, Drop)]
pub struct Contents {
    pub table: CheckedTable,
    pub place: u32,
    pub limits: Limits,
    /// How many bytes a key of the table has.
    pub width: usize,
    /// The kinds of the table's columns.
    pub kinds: List<ColumnKind>,
    /// The first keys of the table's partitions from the second on.
    pub firsts: List<Key>,
    /// The rows with which the partition opened.
    pub rows: List<Row>,
    pub store: Store,
    pub blocks: Vec<Numbered<Work>>,
    /// The syncs of each opener, with the place of its last entry in the history.
    pub seats: Openers<usize>,
    /// The last ended ordinal of each opener.
    pub ended: [u32; 8],
    pub lives: Vec<Live>,
    /// The greatest stamp that ended here by commit.
    pub high: u64,
    pub history: Vec<Entry>,
}
