//! Which partition of a table holds a key, and how a range is cut among them.
#![tactic(auto)]

use sql_base::KeyRange;

/// The part of a range that lies in one partition. Partitions count from 0 in their table.
#[derive(Debug, Drop)]
pub struct Piece {
    pub part: u32,
    pub range: KeyRange,
}
