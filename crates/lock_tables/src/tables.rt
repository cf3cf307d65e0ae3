//! A table of locks, as its callers see it.
ghost use Rattle.std.specs.Prelude.{◌≡◌, ◌<◌, ◌≤◌, ◌+◌, [], length, option_copied, IfOk, OnOk, OnErr};
ghost use Rattle.sql_base.specs.Locks.{first_conflict, granted, released, InTableOrder};
ghost use Rattle.lock_tables.specs.LockTables.{AnswersGrant};
ghost use Rattle.lock_tables.specs.Nodes.{nodes};

use crate::faults::LockFault;
use crate::nodes::count_nodes;
use crate::rows::{admit, copies, first_bar, grant, release};
use sql_base::{List, Lock, Mode, NoMemory, TxnName};
use std::alloc::Global;
use std::marker::Model;

/// The locks of a partition in table order, and the room for more of them.
#[derive(Debug, Drop)]
pub struct LockTable {
    locks: Vec<Lock>,
}

impl Model for LockTable {
    ghost use Rattle.sql_base.specs.Locks.{InTableOrder};
    ghost use Rattle.lock_tables.specs.LockTables.{Table, lock_table_of};
    ghost use Rattle.sql_base.specs.contracts.lock_names.Lock as lock;
    ghost use Rattle.std.specs.Coded.{codes};

    ghost Value = { Table };

    ghost coded = { Prim.hlevel (codes, lock.the_row.coded) };

    ghost view = { λ t. lock_table_of t.locks };

    ghost invariant = { λ t. InTableOrder t.locks.items };
}

impl LockTable {
    /// No locks, which take no memory.
    pub fn new(alloc: Global) -> LockTable
        ensures { result.locks ≡ [] }
    {
        LockTable {
            locks: Vec::new(alloc),
        }
    }

    /// Makes room for so many more locks.
    pub fn reserve(&mut self, more: u32) -> Result<(), NoMemory>
        ensures same { self.new.locks ≡ self.old.locks }
        ensures room { OnOk result (more ≤ self.new.spare) }
        ensures spare { self.old.spare ≤ self.new.spare }
    {
        self.locks.reserve(more as usize)?;
        Ok(())
    }

    /// Grants a lock, unless another's lock conflicts with it. An own lock that covers it stands for it.
    pub fn grant(&mut self, lock: Lock) -> Result<(), LockFault>
        ensures answer { AnswersGrant self.old lock result }
        ensures ok { OnOk result (self.new.locks ≡ granted lock self.old.locks) }
        ensures err { OnErr result (self.new.locks ≡ self.old.locks) }
        ensures spare { self.old.spare ≤ self.new.spare + 1 }
    {
        grant(&mut self.locks, lock)
    }

    /// Grants a lock that its caller has judged to stand against none, in room that was reserved. An own lock that
    /// covers it stands for it.
    pub fn admit(&mut self, lock: Lock)
        requires room { 0 < self.old.spare }
        ensures locks { self.new.locks ≡ granted lock self.old.locks }
        ensures spare { self.old.spare ≤ self.new.spare + 1 }
    {
        admit(&mut self.locks, lock);
    }

    /// The first lock in table order that conflicts with the holder's lock of the prefix in the mode.
    pub fn stands_against(&self, holder: TxnName, prefix: &[u8], mode: Mode) -> Option<&Lock>
        ensures { option_copied result ≡ first_conflict self.now.locks holder prefix.now mode }
    {
        first_bar(&self.locks, holder, prefix, mode)
    }

    /// Gives up the locks of a transaction.
    pub fn release_all(&mut self, holder: TxnName)
        ensures locks { self.new.locks ≡ released holder self.old.locks }
        ensures spare { self.old.spare ≤ self.new.spare }
    {
        release(&mut self.locks, holder);
    }

    /// How many nodes the tree has: the different byte lists that granules of its locks begin with, none without locks.
    pub fn nodes(&self) -> u128
        ensures { result ≡ length (nodes self.now.locks) }
    {
        count_nodes(&self.locks)
    }

    /// The locks, in table order.
    pub fn items(&self) -> &[Lock]
        ensures locks { result.now ≡ self.now.locks }
        ensures order { InTableOrder self.now.locks }
    {
        self.locks.as_slice()
    }

    /// Copies of the locks, in table order.
    pub fn locks(&self, alloc: Global) -> Result<List<Lock>, NoMemory>
        ensures { IfOk result (λ locks. locks ≡ self.now.locks) }
    {
        Ok(List::from_vec(copies(alloc, &self.locks)?))
    }
}
