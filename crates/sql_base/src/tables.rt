//! Tables and their columns.
ghost use Rattle.std.specs.Prelude.{◌≡◌, [], IfOk};

use crate::bytes::Name;
use crate::expressions::Expr;
use crate::faults::NoMemory;
use crate::lists::List;
use crate::values::Row;
use std::alloc::Global;

/// What values a column takes: 64 bit numbers, or texts of one length from 1 to 255.
#[derive(Clone, Copy, Debug, PartialEq, Eq)]
pub enum ColumnKind {
    Int,
    Char(u8),
}

#[derive(Clone, Debug, Drop)]
pub struct Column {
    pub name: Name,
    pub kind: ColumnKind,
}

/// A table as it is declared. Its records lie in one more partition than it has first keys.
#[derive(Debug, Drop)]
pub struct TableDef {
    pub name: Name,
    pub columns: List<Column>,
    /// The places of the key columns, counted from 0, in the order of PRIMARY KEY.
    pub key: List<u8>,
    pub checks: List<Expr>,
    /// The first keys of the partitions from the second on, as the literals written, for leading key columns.
    pub firsts: List<Row>,
}

impl TableDef {
    /// A copy of its own, equal to this one, of a table without CHECKs that lies in one partition.
    pub fn copied(&self, alloc: Global) -> Result<TableDef, NoMemory>
        requires checks { self.now.checks ≡ [] }
        requires firsts { self.now.firsts ≡ [] }
        ensures { IfOk result (λ copy. copy ≡ self.now) }
    {
        Ok(TableDef {
            name: self.name.clone()?,
            columns: self.columns.clone()?,
            key: self.key.clone()?,
            checks: List::new(alloc),
            firsts: List::new(alloc),
        })
    }
}
