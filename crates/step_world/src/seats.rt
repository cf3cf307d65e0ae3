//! What a driver keeps of a session.
ghost use Rattle.std.specs.Prelude.{◌≡◌, ◌≤◌, ◌<◌, ℕ, List, false, OnOk, IfOk};
ghost use Rattle.session_grammar.specs.declared.logs.LogEntry.{LogEntry};
ghost use Rattle.outside.specs.Wire.{is_loss};
ghost use Rattle.session_grammar.specs.Rows.{is_end};
ghost use Rattle.session_grammar.specs.Sessions.{MayCome, Sends, Draws, fits_next};
ghost use Rattle.requester_fs.specs.Asking.{Advances, IsAsking, IsSpelled, next_at};
ghost use Rattle.step_world.specs.Scaffold.Measures.{Spends};
ghost use Rattle.step_world.specs.Scaffold.Seats.{IsAnswered, IsSent, HasRequest, IsAwaited, IsOut, MayFail, is_open, seen, served_at, turn_of, turn_with};

use crate::paths::is_loss;
use dp_messages::{Ask, Envelope, Reply, Request};
use outside::Passage;
use requester_fs::Requester;
use session_grammar::{Action, Answer};
use sql_base::{NoMemory, TxnName};

/// How often a path may lose a request.
pub const MOST_LOSSES: u32 = 4;

/// A session with what is known of its request under way.
#[derive(Drop)]
pub struct Seat<Q> {
    /// The number of the session.
    pub number: u32,
    pub requester: Q,
    /// How often the path lost the request.
    pub losses: u32,
    /// Whether the path carried the request, and the session waits for the reply.
    pub waits: bool,
    /// Whether the partition has served the request.
    pub is_served: bool,
}

/// What a session does next.
#[derive(Clone, Copy, Debug, PartialEq, Eq)]
pub enum Turn {
    /// It gives its request to its path.
    Send,
    /// It takes the reply that it waits for.
    Take,
    /// It serves the End itself that its path has lost as often as it is sent.
    ServeByHand,
    /// It draws its commit.
    Draw,
    /// It waits for a reply that isn't there.
    Wait,
    /// It has finished.
    Rest,
}

/// A request on its way to a partition.
#[derive(Drop)]
pub struct Outgoing {
    pub part: u32,
    pub envelope: Envelope,
    /// Whether it ends a transaction.
    pub is_end: bool,
}

impl<Q: Requester> Seat<Q> {
    /// What the session does next.
    pub fn turn(&self) -> Turn
        ensures { result ≡ turn_of (seen Q.asking self.now) }
    {
        match self.requester.at(0) {
            Action::Send { .. } => self.turn_with_request(),
            Action::Commit { .. } => Turn::Draw,
            Action::Finished => Turn::Rest,
        }
    }

    fn turn_with_request(&self) -> Turn
        ensures { result ≡ turn_with (seen Q.asking self.now) }
    {
        if self.waits {
            return if self.is_served {
                Turn::Take
            } else {
                Turn::Wait
            };
        }
        if self.losses == MOST_LOSSES {
            Turn::ServeByHand
        } else {
            Turn::Send
        }
    }

    /// The request under way.
    pub fn outgoing(&self) -> Result<Outgoing, NoMemory>
        requires { HasRequest (seen Q.asking self.now) }
        ensures { IfOk result (IsOut (seen Q.asking self.now)) }
    {
        match self.requester.at(0) {
            Action::Send {
                part,
                sync,
                request,
            } => Ok(Outgoing {
                part,
                envelope: Envelope {
                    opener: self.number,
                    sync,
                    request: copy_of(request)?,
                },
                is_end: is_end(&request.ask),
            }),
            Action::Commit { .. } | Action::Finished => unreachable!(),
        }
    }

    /// The partition and the sync of the request under way.
    pub fn awaited(&self) -> (u32, u64)
        requires { HasRequest (seen Q.asking self.now) }
        ensures { IsAwaited (seen Q.asking self.now) result.0 result.1 }
    {
        match self.requester.at(0) {
            Action::Send { part, sync, .. } => (part, sync),
            Action::Commit { .. } | Action::Finished => unreachable!(),
        }
    }

    /// Notes that a partition has served a message with a sync of the session.
    pub fn note_served(&mut self, part: u32, sync: u64)
        ensures seen { seen Q.asking self.new ≡ served_at (seen Q.asking self.old) part sync }
        ensures same { self.new.requester ≡ self.old.requester }
    {
        if self.is_open(part, sync) {
            self.is_served = true;
        }
    }

    /// Whether the request under way has this sync and goes to this partition.
    fn is_open(&self, part: u32, sync: u64) -> bool
        ensures { result ≡ is_open (next_at (Q.asking self.now.requester).way 0) part sync }
    {
        match self.requester.at(0) {
            Action::Send {
                part: its_part,
                sync: its_sync,
                ..
            } => its_part == part && its_sync == sync,
            Action::Commit { .. } | Action::Finished => false,
        }
    }

    /// The commit that is drawn next, and its floor.
    pub fn commit(&self) -> (TxnName, u64)
        requires { turn_of (seen Q.asking self.now) ≡ Turn.Draw }
        ensures { Draws result.0 result.1 ≡ next_at (seen Q.asking self.now).requester.way 0 }
    {
        match self.requester.at(0) {
            Action::Commit { name, floor } => (name, floor),
            Action::Send { .. } | Action::Finished => unreachable!(),
        }
    }

    /// Notes what became of a request on its path: with the fourth loss it has failed, unless it is an End.
    pub fn note_passage(&mut self, passage: Passage, is_end: bool) -> Result<(), NoMemory>
        requires few { self.old.losses < 4 }
        requires fails { MayFail (seen Q.asking self.old) is_end }
        requires single { Q.single self.old.requester }
        ensures sent { OnOk result (IsSent passage is_end (seen Q.asking self.old) (seen Q.asking self.new)) }
        ensures spends { OnOk result (self.old.waits ≡ false → Spends Q.left self.old self.new) }
        ensures single { OnOk result (Q.single self.new.requester) }
        ensures allows { OnOk result ((log : List LogEntry) → Q.allows self.new.requester log → Q.allows self.old.requester log) }
    {
        if !is_loss(passage) {
            self.waits = true;
            return Ok(());
        }
        self.losses += 1;
        if self.losses < MOST_LOSSES || is_end {
            return Ok(());
        }
        self.take(Answer::PathFailed)
    }

    /// Gives the requester what came of its request or commit, of which nothing is left then.
    pub fn take(&mut self, answer: Answer) -> Result<(), NoMemory>
        requires comes { MayCome (next_at (Q.asking self.old.requester).way 0) answer self.old.losses }
        requires spelled { IsSpelled answer }
        requires single { Q.single self.old.requester }
        ensures answered { OnOk result (IsAnswered answer (seen Q.asking self.old) (seen Q.asking self.new)) }
        ensures fewer { OnOk result ((above : List ℕ → ℕ) (n : ℕ) → ((key : List ℕ) → above key ≤ n) → Advances above n (next_at (Q.asking self.old.requester).way 0) answer → Q.left self.new.requester above n < Q.left self.old.requester above n) }
        ensures single { OnOk result (Q.single self.new.requester) }
        ensures allows { OnOk result ((log : List LogEntry) → Q.allows self.new.requester log → Q.allows self.old.requester log) }
    {
        self.requester.answer(0, answer, self.losses)?;
        self.losses = 0;
        self.waits = false;
        self.is_served = false;
        Ok(())
    }
}

fn copy_of(request: &Request) -> Result<Request, NoMemory>
    ensures { IfOk result (λ copy. copy ≡ request.now) }
{
    Ok(request.clone()?)
}

fn is_end(ask: &Ask) -> bool
    ensures { result ≡ is_end ask.now }
{
    matches!(ask, Ask::EndCommit { .. } | Ask::EndUndo)
}
