//! The job of a session.
ghost use Rattle.std.specs.Prelude.{◌≡◌, ◌<◌, List, replicate, OnOk, None, true};
ghost use Rattle.outside.specs.Wire.{Answers};
ghost use Rattle.sql_base.specs.declared.scripts.Script.{Script};
ghost use Rattle.session_grammar.specs.Sessions.{Draws, MayCome};
ghost use Rattle.requester_fs.specs.Asking.{IsSpelled};
ghost use Rattle.executor_pool.specs.Jobs.{HasEnded};
ghost use Rattle.executor_pool.specs.Sessions.{Goes, IsAnswered, IsSession, IsTold, TellsOn, next_of, seen, turn_of};
ghost use Rattle.requester_fs.specs.Beginnings.{IsLater};
ghost use Rattle.driver_laws.specs.Carrying.{Telling};
ghost use Rattle.executor_pool.specs.declared.processes.DiskProcess.{DiskProcess};
ghost use Rattle.executor_pool.specs.declared.sessions.Turn.{Turn};

use crate::jobs::Shared;
use crate::journals::{SharedJournal, draw};
use crate::tokens::Tokens;
use outside::{Gate, Passage, Wire};
use requester_fs::Requester;
use session_grammar::{Action, Answer};
use sql_base::{NoMemory, TxnName};
use std::sync::Wait;
use turn_lock::{Pass, TurnLock};

/// How often a path may lose a request.
pub const MOST_LOSSES: u32 = 4;

/// A session at work, with its rights.
#[derive(Drop)]
pub struct SessionJob<Q> {
    /// The number of the session.
    pub number: u32,
    pub requester: Q,
    /// How often the path lost the request under way.
    pub losses: u32,
    /// Its tokens to each partition, in their order.
    pub tokens: Vec<Tokens>,
    pub commits: Pass<SharedJournal>,
    /// What stopped it, if anything did.
    pub stop: Option<Stop>,
}

/// Why a session stops before it has finished. In no run does one stop so, but while the others are at work it can't
/// know that.
#[derive(Clone, Copy, Debug, PartialEq, Eq)]
pub enum Stop {
    /// The reply doesn't fit what was asked.
    Misfit,
    /// The partition has served a later request of the session.
    Passed,
    /// The journal refused the commit.
    Refused,
}

/// What a session does next.
#[derive(Clone, Copy, Debug, PartialEq, Eq)]
pub enum Turn {
    /// It gives its request to its path, and waits for the reply where the path carries it.
    Send,
    /// It serves the End itself that its path has lost as often as it is sent.
    ServeByHand,
    /// It draws its commit.
    Draw,
    /// It has finished.
    Rest,
}

impl<Q: Requester> SessionJob<Q> {
    /// Does what the session asks until it has finished, or something stops it. It may wait.
    pub fn work<R: Wait, G: Gate>(
        &mut self,
        rt: &R,
        shared: &Shared<'_, G>,
        wire: &mut Box<dyn Wire + Send>,
    ) -> Result<(), NoMemory>
        requires session { (script : Script) × IsSession script shared.now.processes.now.items shared.now.journal.now (seen Q.asking self.old) }
        requires single { Q.single self.old.requester }
        ensures goes { OnOk result (Goes shared.now.processes.now.items shared.now.journal.now (seen Q.asking self.old) (seen Q.asking self.new)) }
        ensures later { OnOk result (IsLater Q.single Q.allows self.old.requester self.new.requester) }
        ensures ended { OnOk result (HasEnded (Q.asking self.new.requester) self.new.tokens.items self.new.commits self.new.stop) }
        ensures told { OnOk result ((told : Telling) → IsTold told (record { first = first wire.old; round = round wire.old }) (replicate self.old.losses true) (Q.asking self.old.requester).log
            → self.new.stop ≡ None → IsTold told (record { first = first wire.new; round = round wire.new }) (replicate self.new.losses true) (Q.asking self.new.requester).log) }
    {
        for _ in rt.forever() {
            if self.stop.is_some() {
                return Ok(());
            }
            match self.turn() {
                Turn::Send => self.send(rt, shared, pass(wire))?,
                Turn::ServeByHand => self.serve_by_hand(rt, shared)?,
                Turn::Draw => self.draw(rt, shared.journal)?,
                Turn::Rest => return Ok(()),
            }
        }
        unreachable!()
    }

    /// What the session does next.
    fn turn(&self) -> Turn
        ensures { result ≡ turn_of (seen Q.asking self.now) }
    {
        match self.requester.at(0) {
            Action::Send { .. } => {
                if self.losses == MOST_LOSSES {
                    Turn::ServeByHand
                } else {
                    Turn::Send
                }
            }
            Action::Commit { .. } => Turn::Draw,
            Action::Finished => Turn::Rest,
        }
    }

    /// Draws the commit that is next.
    fn draw<R: Wait>(&mut self, rt: &R, journal: &TurnLock<SharedJournal>) -> Result<(), NoMemory>
        requires session { (script : Script) × (processes : List DiskProcess) × IsSession script processes journal.now (seen Q.asking self.old) }
        requires going { self.old.stop ≡ None }
        requires single { Q.single self.old.requester }
        requires turn { turn_of (seen Q.asking self.old) ≡ Turn.Draw }
        ensures goes { OnOk result ((processes : List DiskProcess) → Goes processes journal.now (seen Q.asking self.old) (seen Q.asking self.new)) }
        ensures later { OnOk result (IsLater Q.single Q.allows self.old.requester self.new.requester) }
        ensures told { OnOk result (TellsOn (replicate self.old.losses true) (seen Q.asking self.old) (seen Q.asking self.new)) }
    {
        let (name, floor) = self.commit();
        match draw(rt, journal, &mut self.commits, name, floor)? {
            Some(stamp) => self.take(Answer::Stamp(stamp)),
            None => {
                self.stop = Some(Stop::Refused);
                Ok(())
            }
        }
    }

    /// The commit that is drawn next, and its floor.
    fn commit(&self) -> (TxnName, u64)
        requires { turn_of (seen Q.asking self.now) ≡ Turn.Draw }
        ensures { Draws result.0 result.1 ≡ next_of (seen Q.asking self.now) }
    {
        match self.requester.at(0) {
            Action::Commit { name, floor } => (name, floor),
            Action::Send { .. } | Action::Finished => unreachable!(),
        }
    }

    /// Gives the requester what came of its request or commit, of which nothing is left then.
    pub(crate) fn take(&mut self, answer: Answer) -> Result<(), NoMemory>
        requires comes { MayCome (next_of (seen Q.asking self.old)) answer self.old.losses }
        requires spelled { IsSpelled answer }
        requires single { Q.single self.old.requester }
        ensures answered { OnOk result (IsAnswered answer (seen Q.asking self.old) (seen Q.asking self.new)) }
        ensures later { OnOk result (IsLater Q.single Q.allows self.old.requester self.new.requester) }
    {
        self.requester.answer(0, answer, self.losses)?;
        self.losses = 0;
        Ok(())
    }
}

/// What becomes of the next message on a wire.
fn pass(wire: &mut Box<dyn Wire + Send>) -> Passage
    ensures answer { Answers (first wire.old) (round wire.old) result (first wire.new) }
    ensures same_round { round wire.new ≡ round wire.old }
{
    wire.pass()
}
