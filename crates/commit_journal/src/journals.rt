//! The journal at work: it draws a stamp for each transaction that commits.
ghost use Rattle.std.specs.Prelude.{◌≡◌, ◌+◌, ◌-◌, ◌^◌, ◌++◌, ◌∷◌, ◌↔◌, [], ℕ, map, max, option_map, Err, IfOk, OnErr, None, Some, true};
ghost use Rattle.sql_base.specs.Locks.{same_txn};
ghost use Rattle.sql_base.specs.Tables.{all_differ};
ghost use Rattle.commit_journal.specs.Journal.{StampsRise, drawn_for, last_stamp};

use crate::Drawn;
use sql_base::{List, NoMemory, TxnName};
use std::alloc::Global;
use std::marker::Model;

/// Why a transaction gets no stamp.
#[derive(Clone, Copy, Debug, PartialEq, Eq)]
pub enum CommitFault {
    /// It has this one already.
    AlreadyCommitted { stamp: u64 },
    /// No stamp is left above the last one and the floor.
    StampsSpent,
    NoMemory,
}

impl From<NoMemory> for CommitFault {
    ghost use Rattle.commit_journal.specs.declared.journals.CommitFault.TheVariants.{NoMemory};

    ghost from_gives = { λ _ fault. fault ≡ NoMemory };

    fn from(_error: NoMemory) -> CommitFault {
        CommitFault::NoMemory
    }
}

/// The commits of a run in the order of their stamps, which contracts see as their list.
#[derive(Debug, Drop)]
pub struct Journal {
    /// The stamp drawn last, or 0.
    last: u64,
    drawn: List<Drawn>,
}

impl Model for Journal {
    ghost use Rattle.std.specs.Prelude.{◌≡◌, List, map, true};
    ghost use Rattle.sql_base.specs.Locks.{same_txn};
    ghost use Rattle.sql_base.specs.Tables.{all_differ};
    ghost use Rattle.commit_journal.specs.declared.Drawn.{Drawn};
    ghost use Rattle.commit_journal.specs.Journal.{StampsRise, last_stamp};

    ghost Value = { List Drawn };

    ghost view = { λ j. j.drawn };

    ghost invariant = { λ j. (j.last ≡ last_stamp 0 j.drawn) × StampsRise 0 j.drawn × (all_differ same_txn (map (λ d. d.name) j.drawn) ≡ true) };
}

impl Journal {
    /// The journal before all commits. It takes no memory.
    pub fn new(alloc: Global) -> Journal
        ensures { result ≡ [] }
    {
        Journal {
            last: 0,
            drawn: List::new(alloc),
        }
    }

    /// Draws the stamp of a transaction, the least above the last stamp and the floor. A refusal leaves the journal as it was.
    pub fn commit(&mut self, name: TxnName, floor: u64) -> Result<u64, CommitFault>
        ensures stamp { IfOk result (λ stamp. stamp ≡ max (last_stamp 0 self.old) floor + 1) }
        ensures drawn { IfOk result (λ stamp. self.new ≡ self.old ++ record { name = name; floor = floor; stamp = stamp } ∷ []) }
        ensures already { (stamp : ℕ) → (result ≡ Err (CommitFault.AlreadyCommitted stamp)) ↔ (option_map (λ d. d.stamp) (drawn_for name self.old) ≡ Some stamp) }
        ensures spent { (result ≡ Err CommitFault.StampsSpent) ↔ ((drawn_for name self.old ≡ None) × (max (last_stamp 0 self.old) floor ≡ 2 ^ 64 - 1)) }
        ensures err { OnErr result (self.new ≡ self.old) }
    {
        if let Some(drawn) = drawn_for(self.drawn.items(), name) {
            return Err(CommitFault::AlreadyCommitted { stamp: drawn.stamp });
        }
        let below = self.last.max(floor);
        if below == u64::MAX {
            return Err(CommitFault::StampsSpent);
        }
        let stamp = below + 1;
        self.drawn.push(Drawn { name, floor, stamp })?;
        self.last = stamp;
        Ok(stamp)
    }

    /// The commits so far. Their stamps rise, and no transaction has two.
    pub fn drawn(&self) -> &[Drawn]
        ensures drawn { result.now ≡ self.now }
        ensures rise { StampsRise 0 self.now }
        ensures once { all_differ same_txn (map (λ d. d.name) self.now) ≡ true }
    {
        self.drawn.items()
    }

    /// The commits, once nothing more is drawn.
    pub fn into_drawn(self) -> List<Drawn>
        ensures drawn { result ≡ self }
        ensures rise { StampsRise 0 result }
        ensures once { all_differ same_txn (map (λ d. d.name) result) ≡ true }
    {
        let Journal { drawn, .. } = self;
        drawn
    }
}

/// What was drawn for the transaction.
fn drawn_for(journal: &[Drawn], name: TxnName) -> Option<Drawn>
    ensures { result ≡ drawn_for name journal.now }
{
    for drawn in journal {
        if drawn.name == name {
            return Some(*drawn);
        }
    }
    None
}
