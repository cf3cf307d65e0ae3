//! The records of all tables while a transaction runs.

ghost use Rattle.std.specs.Prelude.{◌≡◌, ◌++◌, length, map, IfOk, OnOk};
ghost use Rattle.std.specs.List.{AllByRecursion};
ghost use Rattle.sql_base.specs.Tables.{table_of, IsStatement, IsTable, SuitsTable};
ghost use Rattle.one_thread.specs.Scaffold.Cells.{ended, now_of, nows, AreCells};
ghost use Rattle.one_thread.specs.Scaffold.Statements.{Does};
ghost use Rattle.one_thread.specs.Scaffold.Worlds.{AreAll, Moves};

use crate::cells::Cell;
use crate::scans::push_some;
use crate::statements::run_statement;
use crate::touched::{Touched, end_touched, everywhere, nowhere};
use sql_base::{Abort, Given, List, NoMemory, Row, Statement, TableDef};
use std::alloc::Global;
use std::marker::Model;

/// The cells of a table, in the order of their keys.
#[derive(Debug, Drop)]
pub struct Records {
    cells: Vec<Cell>,
    // Which of them the transaction may have changed.
    touched: Touched,
}

impl Model for Records {
    ghost use Rattle.std.specs.Prelude.{List};
    ghost use Rattle.one_thread.specs.declared.cells.Cell as cell;
    ghost use Rattle.one_thread.specs.Scaffold.Touched.{AreSame};

    ghost Value = { List cell.Cell };

    ghost view = { λ records. records.cells.items };

    ghost invariant = { λ records. AreSame records.touched.first records.touched.end records.cells.items };
}

impl Records {
    pub fn from_cells(cells: Vec<Cell>) -> Records
        ensures { result ≡ cells.items }
    {
        let touched = everywhere(cells.len());
        Records { cells, touched }
    }

    /// Runs a statement on the table of these records.
    fn run(
        &mut self,
        alloc: Global,
        table: &TableDef,
        statement: &Statement,
    ) -> Result<Result<Given, Abort>, NoMemory>
        requires table { IsTable table.now }
        requires suits { SuitsTable table.now statement.now }
        requires now { AreCells table.now now_of self.now }
        ensures { IfOk result (λ came. Does table.now statement.now self.old self.new came) }
    {
        run_statement(alloc, table, statement, &mut self.cells, &mut self.touched)
    }

    /// Ends the transaction.
    fn end(&mut self, commit: bool)
        ensures { self.new ≡ map (ended commit) self.old }
    {
        end_touched(&mut self.cells, self.touched, commit);
        self.touched = nowhere();
    }

    /// Copies of the records alone.
    pub fn rows(&self, alloc: Global) -> Result<List<Row>, NoMemory>
        ensures { IfOk result (λ rows. rows ≡ nows self.now) }
    {
        let mut rows = List::new(alloc);
        for cell in self.cells.iter() {
            push_some(&mut rows, cell.copied_row(alloc)?)?;
        }
        Ok(rows)
    }
}

fn place_of(statement: &Statement) -> usize
    ensures { result ≡ table_of statement.now }
{
    match statement {
        Statement::Select { table, .. } => *table as usize,
        Statement::Update { table, .. } => *table as usize,
        Statement::Delete { table, .. } => *table as usize,
        Statement::Insert { table, .. } => *table as usize,
        Statement::LockTable { table, .. } => *table as usize,
    }
}

/// Runs a statement on its table.
pub fn run_one(
    alloc: Global,
    tables: &[TableDef],
    statement: &Statement,
    world: &mut [Records],
) -> Result<Result<Given, Abort>, NoMemory>
    requires tables { AllByRecursion IsTable tables.now }
    requires statement { IsStatement tables.now statement.now }
    requires now { AreAll now_of tables.now world.now }
    ensures { IfOk result (λ came. Moves tables.now statement.now world.old world.new came) }
{
    let place = place_of(statement);
    let Some(table) = tables.get(place) else {
        unreachable!();
    };
    let came = world[place].run(alloc, table, statement)?;
    Ok(came)
}

/// Ends the transaction at each table.
pub fn end_world(world: &mut [Records], commit: bool)
    ensures { world.new ≡ map (map (ended commit)) world.old }
{
    for records in world.iter_mut() {
        records.end(commit);
    }
}
