//! What a request changes, once its reply is known.
ghost use Rattle.std.specs.Prelude.{◌≡◌, ◌<◌, length, slice_set, vec_len, vec_capacity};
ghost use Rattle.sql_base.specs.Scripts.{Lies};
ghost use Rattle.subset_blocks.specs.Blocks.{NumbersDiffer};
ghost use Rattle.partition_core.specs.Scaffold.Contents.{parts_of, state_of};
ghost use Rattle.partition_core.specs.Scaffold.Changes.{blocks_with, changed, ended_parts, locks_with, plans_in};
ghost use Rattle.partition_core.specs.Rooms.{HasRoom, HasRoomFor, takes_kept_back};

use crate::contents::Contents;
use crate::lives::{dismiss, enlist, is_live, is_unprepared, set_floor};
use dp_messages::Reply;
use lock_tables::LockTable;
use quantum_runner::{Planned, Work, carry_out};
use sql_base::{Key, List, Lock, Row, TxnName};
use subset_blocks::{Numbered, advance, close, close_of};

/// What changes with the reply to a request of a transaction.
#[derive(Debug, Drop)]
pub enum Change {
    Stays,
    /// The transaction is live, with changes made, a granule locked and a subset under way.
    Begins {
        plans: List<Planned>,
        granule: Option<Lock>,
        opened: Option<Numbered<Work>>,
    },
    /// Changes are made, and the subset goes on after the key.
    Advances {
        plans: List<Planned>,
        subset: u32,
        last: Key,
    },
    /// Changes are made, and the subset is at its end.
    Closes {
        plans: List<Planned>,
        subset: u32,
    },
    /// The transaction is live, with a record more and the lock on its key.
    Inserts {
        key: Key,
        row: Row,
        lock: Lock,
    },
    Prepares,
    Commits {
        stamp: u64,
    },
    Undoes,
}

/// The reply to a request, and what changes with it.
#[derive(Debug, Drop)]
pub struct Judgement {
    pub reply: Reply,
    pub change: Change,
}

/// A reply that changes nothing.
pub fn refusal(reply: Reply) -> Judgement
    ensures { result ≡ record { reply = reply; change = Change.Stays } }
{
    Judgement {
        reply,
        change: Change::Stays,
    }
}

/// How many records a change rewrites.
pub fn count_plans(change: &Change) -> usize
    ensures { result ≡ length (plans_in change.now) }
{
    match change {
        Change::Stays => 0,
        Change::Begins {
            plans,
            granule: _,
            opened: _,
        } => plans.items().len(),
        Change::Advances {
            plans,
            subset: _,
            last: _,
        } => plans.items().len(),
        Change::Closes { plans, subset: _ } => plans.items().len(),
        Change::Inserts {
            key: _,
            row: _,
            lock: _,
        } => 0,
        Change::Prepares => 0,
        Change::Commits { stamp: _ } => 0,
        Change::Undoes => 0,
    }
}

impl Contents {
    /// Whether the change prepares or ends a live transaction, so that its entry has room that is kept back.
    pub fn takes_kept_back(&self, t: TxnName, change: &Change) -> bool
        ensures { result ≡ takes_kept_back (state_of (parts_of self.now)) t change.now }
    {
        match change {
            Change::Stays => false,
            Change::Begins {
                plans: _,
                granule: _,
                opened: _,
            } => false,
            Change::Advances {
                plans: _,
                subset: _,
                last: _,
            } => false,
            Change::Closes {
                plans: _,
                subset: _,
            } => false,
            Change::Inserts {
                key: _,
                row: _,
                lock: _,
            } => false,
            Change::Prepares => is_unprepared(&self.lives, t),
            Change::Commits { stamp: _ } => is_live(&self.lives, t),
            Change::Undoes => is_live(&self.lives, t),
        }
    }

    /// Makes the change, for which there is room.
    pub fn apply(&mut self, t: TxnName, change: Change)
        requires opener { Lies 1 8 t.session }
        requires numbers { NumbersDiffer self.old.blocks.items }
        requires room { HasRoomFor change self.old }
        ensures state { parts_of self.new ≡ changed (parts_of self.old) t change }
        ensures history { self.new.history ≡ self.old.history }
    {
        match change {
            Change::Stays => {}
            Change::Begins {
                plans,
                granule,
                opened,
            } => self.begin(t, plans, granule, opened),
            Change::Advances {
                plans,
                subset,
                last,
            } => {
                carry_out(&mut self.store, plans);
                advance(&mut self.blocks, subset, last);
            }
            Change::Closes { plans, subset } => {
                carry_out(&mut self.store, plans);
                close(&mut self.blocks, subset);
            }
            Change::Inserts { key, row, lock } => self.put(t, key, row, lock),
            Change::Prepares => set_floor(&mut self.lives, t, self.high),
            Change::Commits { stamp } => self.commit(t, stamp),
            Change::Undoes => self.undo(t),
        }
    }

    /// The transaction is live, with changes made, a granule locked and a subset under way.
    fn begin(
        &mut self,
        t: TxnName,
        plans: List<Planned>,
        granule: Option<Lock>,
        opened: Option<Numbered<Work>>,
    )
        requires room { HasRoom (length plans) self.old }
        ensures state { parts_of self.new ≡ changed (parts_of self.old) t (Change.Begins plans granule opened) }
        ensures history { self.new.history ≡ self.old.history }
    {
        enlist(&mut self.lives, t);
        carry_out(&mut self.store, plans);
        add_lock(&mut self.store.locks, granule);
        add_block(&mut self.blocks, opened);
    }

    /// The transaction is live, with a record more and the lock on its key.
    fn put(&mut self, t: TxnName, key: Key, row: Row, lock: Lock)
        requires room { HasRoom 0 self.old }
        ensures state { parts_of self.new ≡ changed (parts_of self.old) t (Change.Inserts key row lock) }
        ensures history { self.new.history ≡ self.old.history }
    {
        enlist(&mut self.lives, t);
        self.store.file.put(key, row, t);
        self.store.locks.admit(lock);
    }

    fn commit(&mut self, t: TxnName, stamp: u64)
        requires opener { Lies 1 8 t.session }
        ensures state { parts_of self.new ≡ changed (parts_of self.old) t (Change.Commits stamp) }
        ensures history { self.new.history ≡ self.old.history }
    {
        self.store.file.settle(t);
        self.end(t);
        self.high = self.high.max(stamp);
    }

    fn undo(&mut self, t: TxnName)
        requires opener { Lies 1 8 t.session }
        ensures state { parts_of self.new ≡ changed (parts_of self.old) t Change.Undoes }
        ensures history { self.new.history ≡ self.old.history }
    {
        self.store.file.restore(t);
        self.end(t);
    }

    /// Locks and subsets of the transaction go, and its ordinal is the last ended.
    fn end(&mut self, t: TxnName)
        requires opener { Lies 1 8 t.session }
        ensures state { parts_of self.new ≡ ended_parts (parts_of self.old) t (parts_of self.old).cells }
        ensures history { self.new.history ≡ self.old.history }
    {
        self.store.locks.release_all(t);
        close_of(&mut self.blocks, t);
        dismiss(&mut self.lives, t);
        self.ended[t.session as usize - 1] = t.ordinal;
    }
}

fn add_lock(locks: &mut LockTable, lock: Option<Lock>)
    requires { 0 < locks.old.spare }
    ensures { locks.new.locks ≡ locks_with lock locks.old.locks }
{
    match lock {
        Some(lock) => locks.admit(lock),
        None => {}
    }
}

fn add_block(blocks: &mut Vec<Numbered<Work>>, block: Option<Numbered<Work>>)
    requires { vec_len blocks.old < vec_capacity blocks.old }
    ensures { blocks.new.items ≡ blocks_with block blocks.old.items }
{
    match block {
        Some(block) => {
            let pushed = blocks.push(block);
            prove!(pushed.is_ok());
        }
        None => {}
    }
}
