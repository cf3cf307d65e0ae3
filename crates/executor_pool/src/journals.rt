//! The journal of a run, which its sessions share.
ghost use Rattle.std.specs.Prelude.{◌≡◌, ◌++◌, ◌∷◌, [], false, IfNone, IfOk, IfSome, OnErr};
ghost use mathlib.Core.List.{IsPrefix};
ghost use Rattle.commit_journal.specs.Journal.{StampsRise};
ghost use Rattle.executor_pool.specs.Jobs.{Refuses};
ghost use Rattle.executor_pool.specs.Sessions.{HasDrawn, StillCommits};

use commit_journal::{CommitFault, Drawn, Journal};
use sql_base::{List, NoMemory, TxnName};
use std::marker::Model;
use std::sync::Wait;
use turn_lock::{Pass, StandsFor, TurnLock};

/// A journal that sessions share. Contracts see it as the commits that were drawn.
#[derive(Drop)]
pub struct SharedJournal {
    pub journal: Journal,
}

impl Model for SharedJournal {
    ghost use Rattle.std.specs.Prelude.{List};
    ghost use Rattle.commit_journal.specs.declared.Drawn.{Drawn};

    ghost Value = { List Drawn };

    ghost view = { λ j. j.journal };
}

/// It stands for its commits, which begin from nothing.
impl StandsFor for SharedJournal {
    type Entry = Drawn;

    type Root = ();

    ghost history = { λ j. j };

    ghost root = { λ _. tt };

    ghost state = { λ _. tt };

    fn entries(&self) -> u64 {
        self.journal.drawn().len() as u64
    }
}

impl SharedJournal {
    /// Draws the stamp of a transaction, the least above the last stamp and the floor. `None` where the journal refuses
    /// it. Whatever draws none leaves the journal as it was.
    pub fn commit(&mut self, name: TxnName, floor: u64) -> Result<Option<u64>, NoMemory>
        ensures drawn { IfOk result (λ drawn. IfSome drawn (λ stamp. self.new ≡ self.old ++ record { name = name; floor = floor; stamp = stamp } ∷ [])) }
        ensures refused { IfOk result (λ drawn. IfNone drawn (Refuses self.old name floor)) }
        ensures none { IfOk result (λ drawn. IfNone drawn (self.new ≡ self.old)) }
        ensures stays { OnErr result (self.new ≡ self.old) }
    {
        match self.journal.commit(name, floor) {
            Ok(stamp) => Ok(Some(stamp)),
            Err(CommitFault::AlreadyCommitted { .. }) => Ok(None),
            Err(CommitFault::StampsSpent) => Ok(None),
            Err(CommitFault::NoMemory) => Err(NoMemory),
        }
    }

    /// The commits, once nothing more is drawn.
    pub fn into_drawn(self) -> List<Drawn>
        ensures drawn { result ≡ self }
        ensures rise { StampsRise 0 result }
    {
        let SharedJournal { journal } = self;
        journal.into_drawn()
    }
}

/// Draws a stamp under the journal's turn. `None` where the journal refuses it. It may wait.
pub fn draw<R: Wait>(
    rt: &R,
    journal: &TurnLock<SharedJournal>,
    pass: &mut Pass<SharedJournal>,
    name: TxnName,
    floor: u64,
) -> Result<Option<u64>, NoMemory>
    requires lock { pass.old.lock ≡ journal.now }
    requires idle { pass.old.holds ≡ false }
    ensures pass { StillCommits pass.old pass.new }
    ensures drawn { IfOk result (λ drawn. IfSome drawn (λ stamp. HasDrawn name floor stamp pass.old pass.new)) }
    ensures refused { IfOk result (λ drawn. IfNone drawn (Refuses pass.new.seen name floor)) }
    ensures none { IfOk result (λ drawn. IfNone drawn (pass.new.mine ≡ pass.old.mine)) }
    ensures stays { OnErr result (pass.new.mine ≡ pass.old.mine) }
{
    let mut held = journal.turn(rt, pass);
    let drawn = held.value_mut().commit(name, floor);
    journal.give(held, pass);
    drawn
}
