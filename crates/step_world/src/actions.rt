//! The actions of sessions and partitions.
ghost use Rattle.std.specs.Prelude.{◌≡◌, ◌≤◌, ◌<◌, ◌+◌, ◌^◌, suc, length, ◌++◌, ◌∷◌, [], List, max, OnOk, IfOk, None};
ghost use Rattle.commit_journal.specs.Journal.{drawn_for, last_stamp};
ghost use Rattle.std.specs.List.{AllByRecursion};
ghost use Rattle.driver_laws.specs.Scheduling.{OfPartition, OfSession};
ghost use Rattle.driver_laws.specs.Carrying.{Telling};
ghost use Rattle.step_world.specs.declared.seats.Turn.{Turn};
ghost use Rattle.step_world.specs.Scaffold.Measures.{LeavesLess};
ghost use Rattle.step_world.specs.Scaffold.Worlds.{AreLater, Driving, GoesOn, GoesOnWith, HasMail, Setting, TurnAt, scene};

use crate::seats::Outgoing;
use crate::worlds::World;
use commit_journal::{CommitFault, Journal};
use outside::Passage;
use requester_fs::Requester;
use run_record::Act;
use session_grammar::Answer;
use sql_base::{NoMemory, TxnName};
use std::alloc::Global;

impl<Q: Requester> World<Q> {
    /// A session gives its request to its path, of which this becomes. The fourth loss of a request that isn't an End fails it.
    pub fn send(&mut self, alloc: Global, at: usize, passage: Passage) -> Result<(), NoMemory>
        requires driving { (setting : Setting) × (tellings : List Telling) × Driving setting tellings (scene Q.asking self.old) }
        requires turn { TurnAt (scene Q.asking self.old) at Turn.Send }
        requires single { AllByRecursion (λ s. Q.single s.requester) self.old.seats.items }
        ensures goes_on { OnOk result (GoesOnWith at passage (scene Q.asking self.old) (scene Q.asking self.new)) }
        ensures less { OnOk result (LeavesLess Q.asking Q.left self.old self.new) }
        ensures later { OnOk result (AreLater Q.single Q.allows self.old.seats.items self.new.seats.items) }
    {
        let seat = &mut self.seats[at];
        let Outgoing {
            part,
            envelope,
            is_end,
        } = seat.outgoing()?;
        let sync = envelope.sync;
        self.processes[part as usize].post(alloc, envelope, passage)?;
        self.acts.push(Act::Send {
            session: seat.number,
            part,
            sync,
            passage,
        })?;
        seat.note_passage(passage, is_end)
    }

    /// A session takes the reply that it waits for.
    pub fn take(&mut self, at: usize) -> Result<(), NoMemory>
        requires driving { (setting : Setting) × (tellings : List Telling) × Driving setting tellings (scene Q.asking self.old) }
        requires turn { TurnAt (scene Q.asking self.old) at Turn.Take }
        requires single { AllByRecursion (λ s. Q.single s.requester) self.old.seats.items }
        ensures goes_on { OnOk result (GoesOn (OfSession (suc at)) (scene Q.asking self.old) (scene Q.asking self.new)) }
        ensures less { OnOk result (LeavesLess Q.asking Q.left self.old self.new) }
        ensures later { OnOk result (AreLater Q.single Q.allows self.old.seats.items self.new.seats.items) }
    {
        let seat = &mut self.seats[at];
        let (part, sync) = seat.awaited();
        let reply = self.processes[part as usize].reply(seat.number, sync)?;
        self.acts.push(Act::Take {
            session: seat.number,
        })?;
        seat.take(Answer::Reply(reply))
    }

    /// A session serves the End itself that its path lost four times, and takes the reply.
    pub fn serve_by_hand(&mut self, alloc: Global, at: usize) -> Result<(), NoMemory>
        requires driving { (setting : Setting) × (tellings : List Telling) × Driving setting tellings (scene Q.asking self.old) }
        requires turn { TurnAt (scene Q.asking self.old) at Turn.ServeByHand }
        requires single { AllByRecursion (λ s. Q.single s.requester) self.old.seats.items }
        ensures goes_on { OnOk result (GoesOn (OfSession (suc at)) (scene Q.asking self.old) (scene Q.asking self.new)) }
        ensures less { OnOk result (LeavesLess Q.asking Q.left self.old self.new) }
        ensures later { OnOk result (AreLater Q.single Q.allows self.old.seats.items self.new.seats.items) }
    {
        let seat = &mut self.seats[at];
        let Outgoing { part, envelope, .. } = seat.outgoing()?;
        let sync = envelope.sync;
        let reply = self.processes[part as usize].serve_and_reply(alloc, envelope)?;
        self.acts.push(Act::ByHand {
            session: seat.number,
            part,
            sync,
        })?;
        seat.take(Answer::Reply(reply))
    }

    /// A session draws its commit.
    pub fn draw(&mut self, at: usize) -> Result<(), NoMemory>
        requires driving { (setting : Setting) × (tellings : List Telling) × Driving setting tellings (scene Q.asking self.old) }
        requires turn { TurnAt (scene Q.asking self.old) at Turn.Draw }
        requires single { AllByRecursion (λ s. Q.single s.requester) self.old.seats.items }
        ensures goes_on { OnOk result (GoesOn (OfSession (suc at)) (scene Q.asking self.old) (scene Q.asking self.new)) }
        ensures less { OnOk result (LeavesLess Q.asking Q.left self.old self.new) }
        ensures later { OnOk result (AreLater Q.single Q.allows self.old.seats.items self.new.seats.items) }
    {
        let seat = &mut self.seats[at];
        let (name, floor) = seat.commit();
        let stamp = draw(&mut self.journal, name, floor)?;
        self.acts.push(Act::Draw {
            session: seat.number,
        })?;
        seat.take(Answer::Stamp(stamp))
    }

    /// A partition serves the oldest message of its mail.
    pub fn serve(&mut self, alloc: Global, part: usize) -> Result<(), NoMemory>
        requires driving { (setting : Setting) × (tellings : List Telling) × Driving setting tellings (scene Q.asking self.old) }
        requires mail { HasMail self.old.processes.items part }
        requires few { part < 2 ^ 32 }
        ensures goes_on { OnOk result (GoesOn (OfPartition part) (scene Q.asking self.old) (scene Q.asking self.new)) }
        ensures less { OnOk result (LeavesLess Q.asking Q.left self.old self.new) }
        ensures later { OnOk result (AreLater Q.single Q.allows self.old.seats.items self.new.seats.items) }
    {
        let sender = self.processes[part].serve_oldest(alloc)?;
        let part = part as u32;
        self.acts.push(Act::Serve {
            part,
            opener: sender.opener,
            sync: sender.sync,
        })?;
        self.seats[sender.opener as usize - 1].note_served(part, sender.sync);
        Ok(())
    }
}

/// Draws the next stamp above the floor. No transaction of a run draws twice; its stamps are 1, 2, 3 and so on, and no
/// floor is above the last of them, so that no stamp is refused.
fn draw(journal: &mut Journal, name: TxnName, floor: u64) -> Result<u64, NoMemory>
    requires fresh { drawn_for name journal.old ≡ None }
    requires counted { last_stamp 0 journal.old ≡ length journal.old }
    requires low { floor ≤ length journal.old }
    ensures stamp { IfOk result (λ stamp. stamp ≡ max (last_stamp 0 journal.old) floor + 1) }
    ensures drawn { OnOk result (journal.new ≡ journal.old ++ record { name = name; floor = floor; stamp = max (last_stamp 0 journal.old) floor + 1 } ∷ []) }
{
    // A list in memory is far from having as many elements as there are stamps.
    let is_left = journal.drawn().len() < usize::MAX;
    prove!(is_left);
    match journal.commit(name, floor) {
        Ok(stamp) => Ok(stamp),
        Err(CommitFault::NoMemory) => Err(NoMemory),
        Err(CommitFault::AlreadyCommitted { .. }) => unreachable!(),
        Err(CommitFault::StampsSpent) => unreachable!(),
    }
}
