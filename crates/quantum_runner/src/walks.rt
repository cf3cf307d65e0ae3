//! The walk over the cells of a file, up to the end of a quantum.
ghost use Rattle.std.specs.Prelude.{◌<◌, IfOk, All};
ghost use Rattle.key_sequenced.specs.Cells.{AreCells};
ghost use Rattle.quantum_runner.specs.Scaffold.Plans.{IsWalk};
ghost use Rattle.quantum_runner.specs.Scaffold.Works.{HoldsRow, IsWork};

use crate::candidates::{is_past, sees};
use crate::judges::judge;
use crate::planned::Walk;
use crate::progress::{Progress, cause_to_stop};
use crate::tables::CheckedTable;
use crate::works::Work;
use key_sequenced::File;
use lock_tables::LockTable;
use quantum_core::Verdict;
use sql_base::{Cause, Key, Limits, NoMemory};
use std::alloc::Global;
use subset_blocks::Block;

/// Judges the candidates of one quantum of the block, in key order from its start to its high key, and changes nothing.
pub fn walk(
    alloc: Global,
    limits: Limits,
    table: &CheckedTable,
    file: &File,
    locks: &LockTable,
    block: &Block<Work>,
) -> Result<Walk, NoMemory>
    requires visits { 0 < limits.quantum }
    requires work { IsWork table.now block.now.work }
    requires rows { All (HoldsRow table.now) file.now.cells }
    ensures walk { IfOk result (λ walk. IsWalk limits table.now file.now.cells locks.now.locks block.now walk) }
    ensures order { AreCells file.now.cells }
{
    let mut done = Progress::new(alloc, limits.buffer);
    let mut last: Option<&Key> = None;
    for cell in file.cells_from(&block.start) {
        if is_past(block, cell) {
            return Ok(done.end());
        }
        if !sees(block, cell) {
            continue;
        }
        if done.visits == limits.quantum {
            return done.stop(last, Cause::Visits, &cell.key, Verdict::PassedOver);
        }
        let found = judge(alloc, table, locks, block, cell)?;
        if let Some(cause) = cause_to_stop(&found, done.room) {
            return done.stop(last, cause, &cell.key, found);
        }
        done.add(alloc, &cell.key, block.holder, found)?;
        last = Some(&cell.key);
    }
    Ok(done.end())
}
