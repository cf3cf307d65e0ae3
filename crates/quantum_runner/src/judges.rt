//! The verdict on a candidate.
ghost use Rattle.std.specs.Prelude.{◌≡◌, IfOk, option_copied};
ghost use Rattle.sql_base.specs.Rows.{IsRow};
ghost use Rattle.quantum_core.specs.Verdicts.{barrier, on_met, on_row, verdict};
ghost use Rattle.quantum_runner.specs.Scaffold.Works.{HoldsRow, IsWork, bar_to_change};
ghost use Rattle.std.specs.Prelude.{Some};

use crate::tables::CheckedTable;
use crate::works::Work;
use key_sequenced::Cell;
use lock_tables::LockTable;
use quantum_core::Verdict;
use sql_base::{Access, Key, Lock, Mode, NoMemory, Row, TxnName};
use std::alloc::Global;
use subset_blocks::Block;

/// The verdict on a candidate of the block: the first that applies.
pub fn judge(
    alloc: Global,
    table: &CheckedTable,
    locks: &LockTable,
    block: &Block<Work>,
    cell: &Cell,
) -> Result<Verdict, NoMemory>
    requires work { IsWork table.now block.now.work }
    requires row { HoldsRow table.now cell.now }
    ensures { IfOk result (λ found. found ≡ verdict table.now locks.now.locks block.now cell.entry.now) }
{
    if let Some(lock) = barrier_to(block.access, locks, block.holder, cell.key.bytes()) {
        return Ok(Verdict::Blocked(lock.clone()?));
    }
    match &cell.now {
        Some(row) => judge_row(alloc, table, locks, block, &cell.key, row),
        None => Ok(Verdict::PassedOver),
    }
}

/// The X of another transaction at which the access stops.
fn barrier_to<'a>(
    access: Access,
    locks: &'a LockTable,
    holder: TxnName,
    key: &[u8],
) -> Option<&'a Lock>
    ensures { option_copied result ≡ barrier access locks.now.locks holder key.now }
{
    match access {
        Access::Browse => None,
        Access::Stable => locks.stands_against(holder, key, Mode::S),
        Access::Repeatable => locks.stands_against(holder, key, Mode::S),
    }
}

fn judge_row(
    alloc: Global,
    table: &CheckedTable,
    locks: &LockTable,
    block: &Block<Work>,
    key: &Key,
    row: &Row,
) -> Result<Verdict, NoMemory>
    requires work { IsWork table.now block.now.work }
    requires row { IsRow table.now row.now }
    ensures { IfOk result (λ found. found ≡ on_row table.now locks.now.locks block.now key.now (Some row.now)) }
{
    match block.work.passes(row) {
        Ok(true) => judge_met(alloc, table, locks, block, key, row),
        Ok(false) => Ok(Verdict::PassedOver),
        Err(fault) => Ok(Verdict::Faulty(fault)),
    }
}

/// The verdict on a record that meets the filter.
fn judge_met(
    alloc: Global,
    table: &CheckedTable,
    locks: &LockTable,
    block: &Block<Work>,
    key: &Key,
    row: &Row,
) -> Result<Verdict, NoMemory>
    requires work { IsWork table.now block.now.work }
    requires row { IsRow table.now row.now }
    ensures { IfOk result (λ found. found ≡ on_met table.now locks.now.locks block.now key.now row.now block.now.work.doing) }
{
    match bar_to_change(locks, block, key.bytes()) {
        Some(lock) => Ok(Verdict::Blocked(lock.clone()?)),
        None => block.work.effect(alloc, table, row),
    }
}

/// The lock of another at which a change of the record stops.
fn bar_to_change<'a>(locks: &'a LockTable, block: &Block<Work>, key: &[u8]) -> Option<&'a Lock>
    ensures { option_copied result ≡ bar_to_change locks.now.locks block.now.holder key.now block.now.work.doing }
{
    if block.work.changes() {
        locks.stands_against(block.holder, key, Mode::X)
    } else {
        None
    }
}
