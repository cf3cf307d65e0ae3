//! A table with its CHECKs ready to run.
ghost use Rattle.std.specs.Prelude.{◌≡◌, IfOk};
ghost use Rattle.sql_base.specs.OnRows.{first_failing};
ghost use Rattle.sql_base.specs.Rows.{IsRow};
ghost use Rattle.sql_base.specs.Tables.{IsTable};

use crate::copies::copy_table;
use constraint_checks::{compile_checks, first_failing};
use predicate_runner::Verified;
use sql_base::{Fault, List, NoMemory, Row, TableDef};
use std::alloc::Global;
use std::marker::Model;

/// A table with its CHECKs ready to run, which contracts see as the table.
#[derive(Debug, Drop)]
pub struct CheckedTable {
    table: TableDef,
    checks: List<Verified>,
}

impl Model for CheckedTable {
    ghost use Rattle.sql_base.specs.Tables.{IsTable};
    ghost use Rattle.sql_base.specs.contracts.expressions.Expr as e;
    ghost use Rattle.sql_base.specs.declared.tables.TableDef as declared;
    ghost use Rattle.std.specs.Coded.{codes};
    ghost use Rattle.constraint_checks.specs.Judging.{AreChecks};

    ghost Value = { declared.TableDef };

    ghost coded = { Prim.hlevel (codes, e.the_row.coded) };

    ghost view = { λ c. c.table };

    ghost invariant = { λ c. IsTable c.table × AreChecks c.table c.checks };
}

impl CheckedTable {
    /// A copy of the table, with its CHECKs compiled.
    pub fn new(alloc: Global, table: &TableDef) -> Result<CheckedTable, NoMemory>
        requires { IsTable table.now }
        ensures { IfOk result (λ c. c ≡ table.now) }
    {
        let checks = compile_checks(alloc, table)?;
        Ok(CheckedTable {
            table: copy_table(alloc, table)?,
            checks,
        })
    }

    /// The table.
    pub fn table(&self) -> &TableDef
        ensures same { result.now ≡ self.now }
        ensures table { IsTable self.now }
    {
        &self.table
    }

    /// The fault of the first CHECK that faults or is false on a row of the table. CHECKs count from 1.
    pub fn first_failing(&self, row: &Row) -> Option<Fault>
        requires { IsRow self.now row.now }
        ensures { result ≡ first_failing self.now.checks row.now }
    {
        first_failing(&self.checks, row)
    }
}
