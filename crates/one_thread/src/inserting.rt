//! An INSERT at its place among the cells.

ghost use Rattle.std.specs.Prelude.{◌≡◌, ◌≤◌, length, map, IfOk, OnOk};
ghost use Rattle.sql_base.specs.Keys.{Rise};
ghost use Rattle.sql_base.specs.Rows.{IsRow};
ghost use Rattle.sql_base.specs.Tables.{AreColumns};
ghost use Rattle.one_thread.specs.Scaffold.Cells.{now_of, AreCells};
ghost use Rattle.one_thread.specs.Scaffold.Inserting.{filled, Finds, Inserts};

use crate::cells::{Before, Cell};
use crate::changes::{copied, first_failing};
use crate::places::count_below;
use sql_base::{Abort, Key, NoMemory, Row, TableDef, row_key};
use std::alloc::Global;

/// Where a key stands among the cells.
#[derive(Clone, Copy, Debug)]
pub enum Spot {
    /// A record has it.
    Taken,
    /// A cell has it, at this place, and no record.
    Empty(usize),
    /// No cell has it; a new one belongs at this place.
    New(usize),
}

fn spot_of(cells: &[Cell], key: &[u8]) -> Spot
    requires { Rise (map (λ cell. cell.key) cells.now) }
    ensures { Finds key.now cells.now result }
{
    let at = count_below(cells, key);
    if at == cells.len() {
        return Spot::New(at);
    }
    let cell = &cells[at];
    if !cell.key.bytes().cmp(key).is_eq() {
        return Spot::New(at);
    }
    match cell.row {
        Some(_) => Spot::Taken,
        None => Spot::Empty(at),
    }
}

fn fill(cells: &mut Vec<Cell>, spot: Spot, key: Key, row: Row) -> Result<(), NoMemory>
    requires { Finds key cells.now.items spot }
    ensures { OnOk result (cells.new.items ≡ filled key row spot cells.old.items) }
{
    match spot {
        Spot::Taken => {}
        Spot::Empty(at) => cells[at].replace(Some(row)),
        Spot::New(at) => {
            let cell = Cell {
                key,
                row: Some(row),
                before: Before::Absent,
            };
            cells.insert(at, cell)?;
        }
    }
    Ok(())
}

/// Adds the row, unless a record with its key stands or a CHECK fails on it.
pub fn insert_row(
    alloc: Global,
    table: &TableDef,
    cells: &mut Vec<Cell>,
    row: &Row,
) -> Result<Result<(), Abort>, NoMemory>
    requires few { length table.now.checks ≤ 8 }
    requires row { IsRow table.now row.now }
    requires key { AreColumns table.now table.now.key }
    requires now { AreCells table.now now_of cells.now.items }
    ensures { IfOk result (λ came. Inserts table.now row.now cells.old.items cells.new.items came) }
{
    let key = row_key(alloc, row, table)?;
    let spot = spot_of(cells.as_slice(), key.bytes());
    if let Spot::Taken = spot {
        return Ok(Err(Abort::Duplicate { key }));
    }
    if let Some(fault) = first_failing(table.checks.items(), row.values()) {
        return Ok(Err(Abort::Faulted { key, fault }));
    }
    fill(cells, spot, key, copied(alloc, row)?)?;
    Ok(Ok(()))
}
