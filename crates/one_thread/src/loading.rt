//! The records that the tables of a script begin with.

ghost use Rattle.std.specs.Prelude.{◌≡◌, ◌++◌, ◌<◌, length, map, slice_get, IfOk, OnOk, Some};
ghost use Rattle.std.specs.List.{AllByRecursion};
ghost use Rattle.sql_base.specs.Rows.{IsRow};
ghost use Rattle.sql_base.specs.Scripts.{IsScript};
ghost use Rattle.sql_base.specs.Tables.{AreColumns};
ghost use Rattle.one_thread.specs.Scaffold.Loading.{cell_of, Fit, Opens};
ghost use Rattle.one_thread.specs.One.{load_rows};

use crate::cells::{Before, Cell};
use crate::changes::copied;
use crate::worlds::Records;
use sql_base::{Load, NoMemory, Row, Script, TableDef, row_key};
use std::alloc::Global;

// Adds the rows, whose cells have their keys.
fn add_rows(
    alloc: Global,
    table: &TableDef,
    rows: &[Row],
    cells: &mut Vec<Cell>,
) -> Result<(), NoMemory>
    requires key { AreColumns table.now table.now.key }
    requires rows { AllByRecursion (IsRow table.now) rows.now }
    ensures { OnOk result (cells.new.items ≡ cells.old.items ++ map (cell_of table.now) rows.now) }
{
    for row in rows {
        cells.push(Cell {
            key: row_key(alloc, row, table)?,
            row: Some(copied(alloc, row)?),
            before: Before::Same,
        })?;
    }
    Ok(())
}

// The records that are loaded into the table at this place.
fn load_table(
    alloc: Global,
    table: &TableDef,
    place: usize,
    loads: &[Load],
) -> Result<Records, NoMemory>
    requires key { AreColumns table.now table.now.key }
    requires rows { AllByRecursion (Fit table.now place) loads.now }
    ensures { IfOk result (λ records. records ≡ map (cell_of table.now) (load_rows loads.now place)) }
{
    let mut cells = Vec::new(alloc);
    for load in loads {
        if load.table as usize == place {
            add_rows(alloc, table, load.rows.items(), &mut cells)?;
        }
    }
    Ok(Records::from_cells(cells))
}

/// The records of each table as the script loads them.
pub fn load(alloc: Global, script: &Script) -> Result<Vec<Records>, NoMemory>
    requires { IsScript script.now }
    ensures { IfOk result (λ world. Opens script.now (length script.now.tables) world.items) }
{
    let loads = script.loads.items();
    let mut world = Vec::new(alloc);
    for (place, table) in script.tables.items().iter().enumerate() {
        world.push(load_table(alloc, table, place, loads)?)?;
    }
    Ok(world)
}
