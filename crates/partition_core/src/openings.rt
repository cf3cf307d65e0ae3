//! A partition as it begins.
ghost use Rattle.std.specs.Prelude.{◌≡◌, ◌<◌, ◌≤◌, ◌++◌, ◌∷◌, [], All, length, map, IfOk, OnOk};
ghost use Rattle.sql_base.specs.Rows.{AreRecords, IsRow, kinds};
ghost use Rattle.sql_base.specs.Scripts.{AreLimits};
ghost use Rattle.sql_base.specs.Tables.{IsTable};
ghost use Rattle.key_sequenced.specs.Cells.{AreCells};
ghost use Rattle.partition_state.specs.State.{new_cell, opening};
ghost use Rattle.partition_core.specs.Scaffold.Contents.{kept_of, parts_of, IsServing};
ghost use Rattle.partition_core.specs.Kept.{opened_with};
ghost use Rattle.partition_core.specs.Rooms.{IsKeptBack};

use crate::contents::Contents;
use crate::firsts::{first_keys, key_width};
use key_sequenced::File;
use lock_tables::LockTable;
use quantum_runner::{CheckedTable, Store};
use sql_base::{ColumnKind, Limits, List, NoMemory, Row, TableDef, row_key};
use std::alloc::Global;
use sync_messages::Openers;

impl Contents {
    /// The contents of a partition of the table that holds the rows, with nothing served yet.
    pub fn new(
        alloc: Global,
        table: &TableDef,
        place: u32,
        limits: Limits,
        rows: &[Row],
    ) -> Result<Contents, NoMemory>
        requires table { IsTable table.now }
        requires limits { AreLimits limits }
        requires rows { AreRecords table.now rows.now }
        ensures opened { IfOk result (λ c. kept_of (parts_of c) ≡ opened_with (opening table.now place limits rows.now)) }
        ensures serving { IfOk result (λ c. IsServing (parts_of c)) }
        ensures room { IfOk result IsKeptBack }
    {
        Ok(Contents {
            table: CheckedTable::new(alloc, table)?,
            place,
            limits,
            width: key_width(table),
            kinds: copy_kinds(alloc, table)?,
            firsts: first_keys(alloc, table)?,
            rows: copy_rows(alloc, rows)?,
            store: Store {
                file: new_file(alloc, table, rows)?,
                locks: LockTable::new(alloc),
            },
            blocks: Vec::new(alloc),
            seats: Openers::new(alloc, 8)?,
            ended: [0; 8],
            lives: Vec::new(alloc),
            high: 0,
            history: Vec::new(alloc),
        })
    }
}

fn copy_kinds(alloc: Global, table: &TableDef) -> Result<List<ColumnKind>, NoMemory>
    ensures { IfOk result (λ copy. copy ≡ kinds table.now) }
{
    let mut copy = List::new(alloc);
    for column in table.columns.items() {
        copy.push(column.kind)?;
    }
    Ok(copy)
}

fn copy_rows(alloc: Global, rows: &[Row]) -> Result<List<Row>, NoMemory>
    ensures { IfOk result (λ copies. copies ≡ rows.now) }
{
    let mut copies = List::new(alloc);
    for row in rows {
        copies.push(copy_row(row)?)?;
    }
    Ok(copies)
}

/// The file of the rows, whose keys rise.
fn new_file(alloc: Global, table: &TableDef, rows: &[Row]) -> Result<File, NoMemory>
    requires table { IsTable table.now }
    requires rows { AreRecords table.now rows.now }
    ensures { IfOk result (λ file. file.cells ≡ map (new_cell table.now) rows.now) }
{
    let mut file = File::new(alloc);
    for row in rows {
        load_row(&mut file, alloc, table, row)?;
    }
    Ok(file)
}

fn load_row(file: &mut File, alloc: Global, table: &TableDef, row: &Row) -> Result<(), NoMemory>
    requires table { IsTable table.now }
    requires row { IsRow table.now row.now }
    requires above { AreCells (file.old.cells ++ new_cell table.now row.now ∷ []) }
    ensures { OnOk result (file.new.cells ≡ file.old.cells ++ new_cell table.now row.now ∷ []) }
{
    let key = row_key(alloc, row, table)?;
    let copy = copy_row(row)?;
    file.reserve(1)?;
    file.load(key, copy);
    Ok(())
}

fn copy_row(row: &Row) -> Result<Row, NoMemory>
    ensures { IfOk result (λ copy. copy ≡ row.now) }
{
    Ok(row.clone()?)
}
