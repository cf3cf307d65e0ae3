//! A SELECT, an UPDATE or a DELETE at the cells of its range.

ghost use Rattle.std.specs.Prelude.{◌≡◌, ◌≤◌, ◌++◌, [], length, if◌then◌else◌, IfOk, None, OnOk};
ghost use Rattle.std.specs.List.{AllByRecursion, cons_option};
ghost use Rattle.one_thread.specs.Scaffold.Scans.{cell_fate, delete_fate, read_abort, shown, update_fate, Changes, ChangesOne, HasColumns, ScansRows};
ghost use Rattle.expression_values.specs.Values.{truth_of};
ghost use Rattle.sql_base.specs.Val.{filter_val};

use crate::cells::Cell;
use crate::changes::{fault_of, first_failing, updated};
use expression_values::truth;
use sql_base::{
    Abort, Assign, Expr, Fault, List, NoMemory, Packed, Row, Statement, TableDef, pack,
};
use std::alloc::Global;

/// What a change makes of a record.
#[derive(Debug, Drop)]
pub enum Fate {
    /// It is passed over.
    Stays,
    /// It is selected, and the record becomes this one, or goes.
    Becomes(Option<Row>),
    Fails(Fault),
}

fn update_fate(
    alloc: Global,
    table: &TableDef,
    sets: &[Assign],
    filter: &Option<Expr>,
    row: &Row,
) -> Result<Fate, NoMemory>
    requires few { length table.now.checks ≤ 8 }
    ensures { IfOk result (λ fate. fate ≡ update_fate table.now sets.now (truth_of (filter_val filter.now row.now)) row.now) }
{
    match truth(filter, row.values()) {
        Err(fault) => Ok(Fate::Fails(fault_of(fault))),
        Ok(false) => Ok(Fate::Stays),
        Ok(true) => match updated(alloc, table, sets, row.values())? {
            Err(fault) => Ok(Fate::Fails(fault_of(fault))),
            Ok(new) => match first_failing(table.checks.items(), new.values()) {
                Some(fault) => Ok(Fate::Fails(fault)),
                None => Ok(Fate::Becomes(Some(new))),
            },
        },
    }
}

fn delete_fate(filter: &Option<Expr>, row: &Row) -> Fate
    ensures { result ≡ delete_fate (truth_of (filter_val filter.now row.now)) }
{
    match truth(filter, row.values()) {
        Err(fault) => Fate::Fails(fault_of(fault)),
        Ok(false) => Fate::Stays,
        Ok(true) => Fate::Becomes(None),
    }
}

/// What the statement makes of what stands in the cell.
fn cell_fate(
    alloc: Global,
    table: &TableDef,
    statement: &Statement,
    cell: &Cell,
) -> Result<Fate, NoMemory>
    requires few { length table.now.checks ≤ 8 }
    ensures { IfOk result (λ fate. fate ≡ cell_fate table.now statement.now cell.now) }
{
    match &cell.row {
        None => Ok(Fate::Stays),
        Some(row) => match statement {
            Statement::Update { sets, filter, .. } => {
                update_fate(alloc, table, sets.items(), filter, row)
            }
            Statement::Delete { filter, .. } => Ok(delete_fate(filter, row)),
            Statement::Select { .. } => Ok(Fate::Stays),
            Statement::Insert { .. } => Ok(Fate::Stays),
            Statement::LockTable { .. } => Ok(Fate::Stays),
        },
    }
}

// Whether the record was changed.
fn change_cell(
    alloc: Global,
    table: &TableDef,
    statement: &Statement,
    cell: &mut Cell,
) -> Result<Result<bool, Abort>, NoMemory>
    requires few { length table.now.checks ≤ 8 }
    ensures { IfOk result (λ came. ChangesOne table.now statement.now cell.old cell.new came) }
{
    match cell_fate(alloc, table, statement, cell)? {
        Fate::Stays => Ok(Ok(false)),
        Fate::Becomes(row) => {
            cell.replace(row);
            Ok(Ok(true))
        }
        Fate::Fails(fault) => {
            let key = cell.key.clone()?;
            Ok(Err(Abort::Faulted { key, fault }))
        }
    }
}

fn one_if(changed: bool) -> u64
    ensures { result ≡ if changed then 1 else 0 }
{
    if changed { 1 } else { 0 }
}

/// Changes the cells by an UPDATE or a DELETE, up to the first record that fails, and counts the records changed.
pub fn change_cells(
    alloc: Global,
    table: &TableDef,
    statement: &Statement,
    cells: &mut [Cell],
) -> Result<Result<u64, Abort>, NoMemory>
    requires few { length table.now.checks ≤ 8 }
    ensures { IfOk result (λ came. Changes table.now statement.now cells.old cells.new came) }
{
    let mut count = 0;
    for cell in cells.iter_mut() {
        match change_cell(alloc, table, statement, cell)? {
            Ok(changed) => count += one_if(changed),
            Err(abort) => return Ok(Err(abort)),
        }
    }
    Ok(Ok(count))
}

// Adds the named columns of a record that meets the predicate, or says why it fails.
fn read_cell(
    alloc: Global,
    columns: &[u8],
    filter: &Option<Expr>,
    cell: &Cell,
    rows: &mut List<Packed>,
) -> Result<Option<Abort>, NoMemory>
    requires { HasColumns columns.now cell.now }
    ensures abort { IfOk result (λ abort. abort ≡ read_abort filter.now cell.now) }
    ensures rows { IfOk result (λ abort. abort ≡ None → rows.new ≡ rows.old ++ cons_option (shown columns.now filter.now cell.now) []) }
{
    match &cell.row {
        None => Ok(None),
        Some(row) => match truth(filter, row.values()) {
            Ok(true) => {
                rows.push(pack(alloc, row, columns)?)?;
                Ok(None)
            }
            Ok(false) => Ok(None),
            Err(fault) => {
                let key = cell.key.clone()?;
                let fault = fault_of(fault);
                Ok(Some(Abort::Faulted { key, fault }))
            }
        },
    }
}

/// Adds the item, if there is one.
pub fn push_some<T: Drop>(items: &mut List<T>, item: Option<T>) -> Result<(), NoMemory>
    ensures { OnOk result (items.new ≡ items.old ++ cons_option item []) }
{
    if let Some(item) = item {
        items.push(item)?;
    }
    Ok(())
}

/// The named columns of the records that meet the predicate, up to the first record that fails.
pub fn read_cells(
    alloc: Global,
    columns: &[u8],
    filter: &Option<Expr>,
    cells: &[Cell],
) -> Result<Result<List<Packed>, Abort>, NoMemory>
    requires { AllByRecursion (HasColumns columns.now) cells.now }
    ensures { IfOk result (λ came. ScansRows columns.now filter.now cells.now came) }
{
    let mut rows = List::new(alloc);
    for cell in cells {
        let came = read_cell(alloc, columns, filter, cell, &mut rows)?;
        match came {
            None => {}
            Some(abort) => return Ok(Err(abort)),
        }
    }
    Ok(Ok(rows))
}
