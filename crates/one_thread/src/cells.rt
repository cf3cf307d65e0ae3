//! The records of a table while a transaction runs: each as it is now, and as it was before the transaction.

ghost use Rattle.std.specs.Prelude.{◌≡◌, map, IfOk};
ghost use Rattle.one_thread.specs.Scaffold.Cells.{ended, now_of, replaced};

use crate::changes::copied;
use sql_base::{Key, NoMemory, Row};
use std::alloc::Global;
use std::mem;

/// The record of a key as it was before the transaction.
#[derive(Debug, Drop)]
pub enum Before {
    /// The transaction hasn't changed it.
    Same,
    Was(Row),
    /// There was none.
    Absent,
}

/// What stands at a key, if anything does.
#[derive(Debug, Drop)]
pub struct Cell {
    pub key: Key,
    pub row: Option<Row>,
    pub before: Before,
}

impl Cell {
    /// Has this record, or none, from now on.
    pub fn replace(&mut self, row: Option<Row>)
        ensures { self.new ≡ replaced self.old row }
    {
        let old = mem::replace(&mut self.row, row);
        if let Before::Same = self.before {
            self.before = match old {
                Some(row) => Before::Was(row),
                None => Before::Absent,
            };
        }
    }

    /// A copy of the record.
    pub fn copied_row(&self, alloc: Global) -> Result<Option<Row>, NoMemory>
        ensures { IfOk result (λ copy. copy ≡ now_of self.now) }
    {
        match &self.row {
            Some(row) => Ok(Some(copied(alloc, row)?)),
            None => Ok(None),
        }
    }

    /// Ends the transaction: by commit the record stays as it is now, otherwise it is again as it was before.
    pub fn end(&mut self, commit: bool)
        ensures { self.new ≡ ended commit self.old }
    {
        let before = mem::replace(&mut self.before, Before::Same);
        if !commit {
            match before {
                Before::Same => {}
                Before::Was(row) => self.row = Some(row),
                Before::Absent => self.row = None,
            }
        }
    }
}

/// Ends the transaction at each cell.
pub fn end_all(cells: &mut [Cell], commit: bool)
    ensures { cells.new ≡ map (ended commit) cells.old }
{
    for cell in cells.iter_mut() {
        cell.end(commit);
    }
}
