//! A store of cells and locks, and one quantum over it.
ghost use Rattle.std.specs.Prelude.{◌≡◌, ◌<◌, ◌≤◌, ◌+◌, length, All, IfOk, OnOk, OnErr};
ghost use Rattle.sql_base.specs.Locks.{granted};
ghost use Rattle.sql_base.specs.Scripts.{AreLimits};
ghost use Rattle.key_sequenced.specs.Files.{rewritten_at};
ghost use Rattle.quantum_core.specs.Quantum.{quantum};
ghost use Rattle.quantum_runner.specs.Scaffold.Plans.{granted_by, left_with, rewritten_by};
ghost use Rattle.quantum_runner.specs.Scaffold.Works.{HoldsRow, IsWork};

use crate::planned::{Planned, Walk};
use crate::tables::CheckedTable;
use crate::walks::walk;
use crate::works::Work;
use key_sequenced::File;
use lock_tables::LockTable;
use quantum_core::QuantumReply;
use sql_base::{Limits, List, NoMemory};
use std::alloc::Global;
use subset_blocks::Block;

/// The cells of a partition with the locks on them.
#[derive(Debug, Drop)]
pub struct Store {
    pub file: File,
    pub locks: LockTable,
}

/// One quantum of the block over the store: what it replies, and the records and locks that it changes. All memory is
/// taken before the first change. Behind Ok there is room for one more lock; for want of memory nothing changes.
pub fn quantum(
    alloc: Global,
    store: &mut Store,
    limits: Limits,
    table: &CheckedTable,
    block: &Block<Work>,
) -> Result<QuantumReply, NoMemory>
    requires limits { AreLimits limits }
    requires work { IsWork table.now block.now.work }
    requires rows { All (HoldsRow table.now) store.old.file.cells }
    ensures ok { IfOk result (λ reply. left_with reply store.new.file.cells store.new.locks.locks ≡ quantum limits table.now store.old.file.cells store.old.locks.locks block.now) }
    ensures room { OnOk result (0 < store.new.locks.spare) }
    ensures err_cells { OnErr result (store.new.file.cells ≡ store.old.file.cells) }
    ensures err_locks { OnErr result (store.new.locks.locks ≡ store.old.locks.locks) }
{
    let walked = walk(alloc, limits, table, &store.file, &store.locks, block)?;
    let Walk { reply, plans } = walked;
    store.locks.reserve(plans.items().len() as u32 + 1)?;
    carry_out(store, plans);
    Ok(reply)
}

/// Makes the changes of a walk, in reserved room for their locks and one more.
pub fn carry_out(store: &mut Store, plans: List<Planned>)
    requires room { length plans < store.old.locks.spare }
    ensures cells { store.new.file.cells ≡ rewritten_by plans store.old.file.cells }
    ensures locks { store.new.locks.locks ≡ granted_by plans store.old.locks.locks }
    ensures room { 0 < store.new.locks.spare }
{
    for plan in plans.into_vec() {
        make(store, plan);
    }
}

fn make(store: &mut Store, plan: Planned)
    requires room { 0 < store.old.locks.spare }
    ensures cells { store.new.file.cells ≡ rewritten_at plan.lock.holder plan.lock.prefix plan.now store.old.file.cells }
    ensures locks { store.new.locks.locks ≡ granted plan.lock store.old.locks.locks }
    ensures room { store.old.locks.spare ≤ store.new.locks.spare + 1 }
{
    let Planned { lock, now } = plan;
    match now {
        Some(row) => store.file.change(lock.prefix.bytes(), row, lock.holder),
        None => store.file.remove_now(lock.prefix.bytes(), lock.holder),
    }
    store.locks.admit(lock);
}
