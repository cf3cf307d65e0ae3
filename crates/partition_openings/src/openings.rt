//! The partitions of all tables as they begin.
ghost use Rattle.std.specs.Prelude.{◌≡◌, ◌≤◌, ◌++◌, length, map, IfOk, OnOk};
ghost use Rattle.std.specs.List.{AllByRecursion};
ghost use Rattle.sql_base.specs.Rows.{AreRecords, IsRow, key_of};
ghost use Rattle.sql_base.specs.Scripts.{AreLimits, IsScript};
ghost use Rattle.sql_base.specs.Tables.{IsTable};
ghost use Rattle.partition_core.specs.Kept.{opened_with};
ghost use Rattle.one_thread.specs.One.{load_rows};
ghost use Rattle.run_record.specs.Openings.{openings, rows_in_part};
ghost use Rattle.partition_openings.specs.Openings.{table_openings};

use partition_core::Partition;
use partition_cuts::part_of;
use sql_base::{Limits, List, Load, NoMemory, Row, Script, TableDef, row_key};
use std::alloc::Global;

/// The partitions of all tables, in their order, with the LOAD rows of the script. Nothing has been served by them yet.
pub fn open(alloc: Global, script: &Script) -> Result<Vec<Partition>, NoMemory>
    requires { IsScript script.now }
    ensures { IfOk result (λ partitions. partitions.items ≡ map opened_with (openings script.now)) }
{
    let mut partitions = Vec::new(alloc);
    for (place, table) in script.tables.items().iter().enumerate() {
        let rows = loaded_rows(alloc, script.loads.items(), place)?;
        open_table(alloc, table, script.limits, rows.items(), &mut partitions)?;
    }
    Ok(partitions)
}

/// Adds the partitions of one table.
fn open_table(
    alloc: Global,
    table: &TableDef,
    limits: Limits,
    rows: &[Row],
    partitions: &mut Vec<Partition>,
) -> Result<(), NoMemory>
    requires table { IsTable table.now }
    requires firsts { length table.now.firsts ≤ 15 }
    requires limits { AreLimits limits }
    requires rows { AreRecords table.now rows.now }
    ensures { OnOk result (partitions.new.items ≡ partitions.old.items ++ map opened_with (table_openings limits table.now rows.now)) }
{
    for place in 0..table.firsts.items().len() as u32 + 1 {
        let own = rows_at(alloc, table, place, rows)?;
        let partition = Partition::new(alloc, table, place, limits, own.items())?;
        partitions.push(partition)?;
    }
    Ok(())
}

/// The rows that lie in one partition of their table.
fn rows_at(alloc: Global, table: &TableDef, place: u32, rows: &[Row]) -> Result<List<Row>, NoMemory>
    requires table { IsTable table.now }
    requires firsts { length table.now.firsts ≤ 15 }
    requires rows { AllByRecursion (IsRow table.now) rows.now }
    ensures { IfOk result (λ own. own ≡ rows_in_part table.now place rows.now) }
{
    let mut own = List::new(alloc);
    for row in rows {
        let key = row_key(alloc, row, table)?;
        if part_of(table, &key) == place {
            own.push(copy_of(row)?)?;
        }
    }
    Ok(own)
}

/// The LOAD rows of a table.
fn loaded_rows(alloc: Global, loads: &[Load], table: usize) -> Result<List<Row>, NoMemory>
    ensures { IfOk result (λ rows. rows ≡ load_rows loads.now table) }
{
    let mut rows = List::new(alloc);
    for load in loads {
        if load.table as usize == table {
            push_copies(&mut rows, load.rows.items())?;
        }
    }
    Ok(rows)
}

fn push_copies(rows: &mut List<Row>, more: &[Row]) -> Result<(), NoMemory>
    ensures { OnOk result (rows.new ≡ rows.old ++ more.now) }
{
    for row in more {
        rows.push(copy_of(row)?)?;
    }
    Ok(())
}

fn copy_of(row: &Row) -> Result<Row, NoMemory>
    ensures { IfOk result (λ copy. copy ≡ row.now) }
{
    Ok(row.clone()?)
}
