//! What an UPDATE and the CHECKs make of one row.

ghost use Rattle.std.specs.Prelude.{◌≡◌, ◌<◌, ◌^◌, Option, is_some, length, option_map, slice_get, slice_set, unwrap_or, IfOk, OnOk};
ghost use Rattle.std.specs.List.{list_any};
ghost use Rattle.sql_base.specs.OnRows.{fault_of, first_failing, check_fault, stored, updated};
ghost use Rattle.sql_base.specs.Rows.{kinds, width};
ghost use Rattle.sql_base.specs.Val.{val};
ghost use Rattle.expression_values.specs.Values.{item_in};

use expression_values::{Item, value_on};
use sql_base::{
    Assign, ColumnKind, EvalFault, Expr, Fault, List, NoMemory, Row, TableDef, Value, padded,
};
use std::alloc::Global;

pub fn fault_of(fault: EvalFault) -> Fault
    ensures { result ≡ fault_of fault }
{
    match fault {
        EvalFault::Overflow => Fault::Overflow,
        EvalFault::ZeroDivide => Fault::ZeroDivide,
    }
}

/// A row of its own, equal to this one.
pub fn copied(alloc: Global, row: &Row) -> Result<Row, NoMemory>
    ensures { IfOk result (λ copy. copy ≡ row.now) }
{
    let values = row.values().to_vec(alloc)?;
    Ok(Row::from_values(List::from_vec(values)))
}

/// The row after its SETs, each taken from the row as it was, or the first fault in written order.
pub fn updated(
    alloc: Global,
    table: &TableDef,
    sets: &[Assign],
    row: &[Value],
) -> Result<Result<Row, EvalFault>, NoMemory>
    ensures { IfOk result (λ made. made ≡ updated table.now sets.now row.now) }
{
    let mut values = row.to_vec(alloc)?;
    for set in sets {
        match value_on(&set.value, row) {
            Ok(item) => store(alloc, table, &mut values, set.column, item)?,
            Err(fault) => return Ok(Err(fault)),
        }
    }
    Ok(Ok(Row::from_values(List::from_vec(values))))
}

fn store(
    alloc: Global,
    table: &TableDef,
    values: &mut Vec<Value>,
    column: u8,
    item: Item,
) -> Result<(), NoMemory>
    ensures { OnOk result (values.new.items ≡ stored table.now column values.old.items (item_in item.entry)) }
{
    match item {
        Item::Number(number) => put(values, column, Value::Int(number)),
        Item::Text(text) => {
            let wide = padded(alloc, text, width_at(table, column))?;
            put(values, column, Value::Text(wide));
        }
        Item::Truth(_) => {}
        Item::Nothing => {}
    }
    Ok(())
}

fn put(values: &mut Vec<Value>, column: u8, value: Value)
    ensures { values.new.items ≡ slice_set values.old.items column value }
{
    let at = column as usize;
    if at < values.len() {
        values[at] = value;
    }
}

fn width_at(table: &TableDef, column: u8) -> usize
    ensures { result ≡ unwrap_or (option_map width (slice_get (kinds table.now) column)) 0 }
{
    match table.columns.items().get(column as usize) {
        Some(column) => match column.kind {
            ColumnKind::Int => 8,
            ColumnKind::Char(width) => width as usize,
        },
        None => 0,
    }
}

/// The fault of the first CHECK that faults or isn't true. CHECKs count from 1.
pub fn first_failing(checks: &[Expr], row: &[Value]) -> Option<Fault>
    requires few { length checks.now < 2 ^ 32 }
    ensures { result ≡ first_failing checks.now row.now }
{
    for (i, check) in checks.iter().enumerate() {
        let fault = check_fault(check, row, i as u32 + 1);
        if fault.is_some() {
            return fault;
        }
    }
    None
}

/// Whether a CHECK faults on the row, or isn't true.
pub fn fails(checks: &[Expr], row: &[Value]) -> bool
    ensures { result ≡ is_some (first_failing checks.now row.now) }
{
    any_fails(checks, row)
}

fn any_fails(checks: &[Expr], row: &[Value]) -> bool
    ensures { result ≡ list_any (λ check. is_some (check_fault 1 (val check row.now))) checks.now }
{
    checks
        .iter()
        .any(|check| check_fault(check, row, 1).is_some())
}

fn check_fault(check: &Expr, row: &[Value], number: u32) -> Option<Fault>
    ensures { result ≡ check_fault number (val check.now row.now) }
{
    match value_on(check, row) {
        Ok(Item::Truth(true)) => None,
        Ok(Item::Truth(false)) => Some(Fault::CheckFailed { number }),
        Ok(Item::Number(_)) => Some(Fault::CheckFailed { number }),
        Ok(Item::Text(_)) => Some(Fault::CheckFailed { number }),
        Ok(Item::Nothing) => Some(Fault::CheckFailed { number }),
        Err(fault) => Some(fault_of(fault)),
    }
}
