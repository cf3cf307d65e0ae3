//! One statement at the cells of its table.

ghost use Rattle.std.specs.Prelude.{◌≡◌, ◌≤◌, length, slice_get, IfOk};
ghost use Rattle.sql_base.specs.Rows.{chosen, kinds, IsRow};
ghost use Rattle.sql_base.specs.Tables.{AreColumns, IsTable, SuitsTable};
ghost use Rattle.range_finder.specs.Range.{range};
ghost use Rattle.one_thread.specs.Scaffold.Cells.{now_of, AreCells};
ghost use Rattle.one_thread.specs.One.{predicate_of};
ghost use Rattle.one_thread.specs.Scaffold.Scans.{ChangesIn, ReadsIn};
ghost use Rattle.one_thread.specs.Scaffold.Inserting.{Inserts};
ghost use Rattle.one_thread.specs.Scaffold.Statements.{Changing, Does, Selects};
ghost use Rattle.one_thread.specs.Scaffold.Touched.{AreSame};

use crate::cells::Cell;
use crate::inserting::insert_row;
use crate::places::window_of;
use crate::scans::{change_cells, push_some, read_cells};
use crate::touched::{Touched, everywhere, widened};
use key_ranges::key_range;
use sql_base::{
    Abort, ColumnKind, Expr, Given, KeyRange, List, NoMemory, Packed, Row, Statement, TableDef,
};
use std::alloc::Global;

// The kind of a column.
fn kind_at(table: &TableDef, column: u8) -> Option<ColumnKind>
    ensures { result ≡ slice_get (kinds table.now) column }
{
    match table.columns.items().get(column as usize) {
        Some(column) => Some(column.kind),
        None => None,
    }
}

// The kinds of the named columns.
fn kinds_of(alloc: Global, table: &TableDef, columns: &[u8]) -> Result<List<ColumnKind>, NoMemory>
    ensures { IfOk result (λ found. found ≡ chosen columns.now (kinds table.now)) }
{
    let mut found = List::new(alloc);
    for column in columns {
        push_some(&mut found, kind_at(table, *column))?;
    }
    Ok(found)
}

// Changes the cells whose keys lie in the range.
fn change_range(
    alloc: Global,
    table: &TableDef,
    statement: &Statement,
    range: &Option<KeyRange>,
    cells: &mut [Cell],
    touched: &mut Touched,
) -> Result<Result<u64, Abort>, NoMemory>
    requires few { length table.now.checks ≤ 8 }
    requires now { AreCells table.now now_of cells.now }
    ensures changes { IfOk result (λ came. ChangesIn table.now statement.now range.now cells.old cells.new came) }
    ensures same { AreSame touched.old.first touched.old.end cells.old → AreSame touched.new.first touched.new.end cells.new }
{
    let window = window_of(cells, range);
    *touched = widened(*touched, window);
    let count = window.end - window.first;
    let (_, from) = cells.split_at_mut(window.first);
    let (inside, _) = from.split_at_mut(count);
    change_cells(alloc, table, statement, inside)
}

// Reads the cells whose keys lie in the range.
fn read_range(
    alloc: Global,
    table: &TableDef,
    columns: &[u8],
    filter: &Option<Expr>,
    range: &Option<KeyRange>,
    cells: &[Cell],
) -> Result<Result<List<Packed>, Abort>, NoMemory>
    requires columns { AreColumns table.now columns.now }
    requires now { AreCells table.now now_of cells.now }
    ensures { IfOk result (λ came. ReadsIn columns.now filter.now range.now cells.now came) }
{
    let window = window_of(cells, range);
    let (_, from) = cells.split_at(window.first);
    let (inside, _) = from.split_at(window.end - window.first);
    read_cells(alloc, columns, filter, inside)
}

// An UPDATE or a DELETE.
fn change(
    alloc: Global,
    table: &TableDef,
    statement: &Statement,
    filter: &Option<Expr>,
    cells: &mut [Cell],
    touched: &mut Touched,
) -> Result<Result<Given, Abort>, NoMemory>
    requires table { IsTable table.now }
    requires change { Changing statement.now }
    requires predicate { filter.now ≡ predicate_of statement.now }
    requires suits { SuitsTable table.now statement.now }
    requires now { AreCells table.now now_of cells.now }
    ensures does { IfOk result (λ came. Does table.now statement.now cells.old cells.new came) }
    ensures same { AreSame touched.old.first touched.old.end cells.old → AreSame touched.new.first touched.new.end cells.new }
{
    let range = key_range(alloc, filter.as_ref(), table)?;
    match change_range(alloc, table, statement, &range, cells, touched)? {
        Ok(count) => Ok(Ok(Given::Count(count as u128))),
        Err(abort) => Ok(Err(abort)),
    }
}

// A SELECT.
fn select(
    alloc: Global,
    table: &TableDef,
    columns: &[u8],
    filter: &Option<Expr>,
    cells: &[Cell],
) -> Result<Result<Given, Abort>, NoMemory>
    requires table { IsTable table.now }
    requires columns { AreColumns table.now columns.now }
    requires now { AreCells table.now now_of cells.now }
    ensures { IfOk result (λ came. Selects table.now columns.now filter.now cells.now came) }
{
    let range = key_range(alloc, filter.as_ref(), table)?;
    match read_range(alloc, table, columns, filter, &range, cells)? {
        Ok(rows) => {
            let kinds = kinds_of(alloc, table, columns)?;
            Ok(Ok(Given::Rows { kinds, rows }))
        }
        Err(abort) => Ok(Err(abort)),
    }
}

// An INSERT, behind which the places of the cells may be others.
fn insert(
    alloc: Global,
    table: &TableDef,
    row: &Row,
    cells: &mut Vec<Cell>,
    touched: &mut Touched,
) -> Result<Result<(), Abort>, NoMemory>
    requires few { length table.now.checks ≤ 8 }
    requires row { IsRow table.now row.now }
    requires key { AreColumns table.now table.now.key }
    requires now { AreCells table.now now_of cells.now.items }
    ensures inserts { IfOk result (λ came. Inserts table.now row.now cells.old.items cells.new.items came) }
    ensures same { AreSame touched.new.first touched.new.end cells.new.items }
{
    let came = insert_row(alloc, table, cells, row);
    *touched = everywhere(cells.len());
    came
}

/// Runs the statement, and gives what it gives or why it aborts its transaction.
pub fn run_statement(
    alloc: Global,
    table: &TableDef,
    statement: &Statement,
    cells: &mut Vec<Cell>,
    touched: &mut Touched,
) -> Result<Result<Given, Abort>, NoMemory>
    requires table { IsTable table.now }
    requires suits { SuitsTable table.now statement.now }
    requires now { AreCells table.now now_of cells.now.items }
    ensures does { IfOk result (λ came. Does table.now statement.now cells.old.items cells.new.items came) }
    ensures same { AreSame touched.old.first touched.old.end cells.old.items → AreSame touched.new.first touched.new.end cells.new.items }
{
    match statement {
        Statement::Select {
            columns,
            filter,
            ..
        } => select(alloc, table, columns.items(), filter, cells.as_slice()),
        Statement::Update { filter, .. } => {
            change(
                alloc,
                table,
                statement,
                filter,
                cells.as_mut_slice(),
                touched,
            )
        }
        Statement::Delete { filter, .. } => {
            change(
                alloc,
                table,
                statement,
                filter,
                cells.as_mut_slice(),
                touched,
            )
        }
        Statement::Insert { row, .. } => match insert(alloc, table, row, cells, touched)? {
            Ok(()) => Ok(Ok(Given::Silent)),
            Err(abort) => Ok(Err(abort)),
        },
        Statement::LockTable { .. } => Ok(Ok(Given::Silent)),
    }
}
