//! One new request: judged, with all memory taken, before the first change.
ghost use Rattle.std.specs.Prelude.{◌≡◌, ◌<◌, ◌≤◌, ◌+◌, ◌*◌, ◌++◌, ◌∷◌, [], false, length, IfOk, OnOk, OnErr, vec_len, vec_capacity};
ghost use Rattle.sql_base.specs.Scripts.{Lies};
ghost use Rattle.sync_messages.specs.Openers.{IsArrival, seat_of};
ghost use Rattle.partition_state.specs.Step.{is_closing};
ghost use Rattle.partition_core.specs.Scaffold.Contents.{parts_of, state_of, kept_of, IsServing};
ghost use Rattle.partition_core.specs.Scaffold.Changes.{IsFitting, noted_parts};
ghost use Rattle.partition_core.specs.Kept.{served};
ghost use Rattle.partition_core.specs.Rooms.{HasRoom, HasRoomFor, IsKeptBack, IsKeptBackAfter, takes_kept_back};
ghost use Rattle.partition_core.specs.Settling.{settles};

use crate::changes::{Change, Judgement, count_plans};
use crate::contents::Contents;
use dp_messages::{Ask, Request};
use partition_state::Entry;
use sql_base::{NoMemory, TxnName};
use std::alloc::Global;
use sync_messages::Arrival;

impl Contents {
    /// What a message of an opener from 1 to 8 is.
    pub fn arrive(&self, opener: u32, sync: u64) -> Arrival
        requires opener { Lies 1 8 opener }
        requires eight { length self.now.seats ≡ 8 }
        ensures { IsArrival (seat_of self.now.seats opener) sync result }
    {
        match self.seats.arrive(opener, sync) {
            Ok(arrival) => arrival,
            Err(_) => unreachable!(),
        }
    }

    /// Serves a request with a new sync. For want of memory nothing changes; a request that settles its transaction
    /// needs none.
    pub fn serve_new(
        &mut self,
        alloc: Global,
        opener: u32,
        sync: u64,
        request: &Request,
    ) -> Result<(), NoMemory>
        requires opener { Lies 1 8 opener }
        requires fresh { (seat_of self.old.seats opener).last < sync }
        requires serving { IsServing (parts_of self.old) }
        requires room { IsKeptBack self.old }
        ensures ok { OnOk result (kept_of (parts_of self.new) ≡ served (kept_of (parts_of self.old)) opener sync request.now) }
        ensures err { OnErr result (parts_of self.new ≡ parts_of self.old) }
        ensures settled { OnErr result (settles (state_of (parts_of self.old)) (record { session = opener; ordinal = request.now.ordinal }) request.now.ask ≡ false) }
        ensures serving { IsServing (parts_of self.new) }
        ensures room { IsKeptBack self.new }
    {
        let t = TxnName {
            session: opener,
            ordinal: request.ordinal,
        };
        let judged = self.judge(alloc, t, &request.ask)?;
        let kept = copy_of(request)?;
        let Judgement { reply, change } = judged;
        self.make_room(t, &change)?;
        self.apply(t, change);
        self.note(Entry {
            opener,
            sync,
            request: kept,
            reply,
        });
        Ok(())
    }

    /// Takes the room that a change and its entry need. What prepares or ends a live transaction needs no more than
    /// what is kept back.
    fn make_room(&mut self, t: TxnName, change: &Change) -> Result<(), NoMemory>
        requires fits { IsFitting (parts_of self.old) change.now }
        requires kept { IsKeptBack self.old }
        ensures same { parts_of self.new ≡ parts_of self.old }
        ensures room { OnOk result (HasRoomFor change.now self.new) }
        ensures after { OnOk result (IsKeptBackAfter t change.now self.new) }
        ensures kept { IsKeptBack self.new }
        ensures err { OnErr result (takes_kept_back (state_of (parts_of self.old)) t change.now ≡ false) }
    {
        if self.takes_kept_back(t, change) {
            return Ok(());
        }
        self.reserve(count_plans(change) as u32)
    }

    /// Takes the room that one more request may need, with so many changes of records. In the history that is its entry,
    /// and a Prepare and an End for its transaction and for each live one.
    fn reserve(&mut self, plans: u32) -> Result<(), NoMemory>
        requires { plans ≤ 1000 }
        ensures same { parts_of self.new ≡ parts_of self.old }
        ensures room { OnOk result (HasRoom plans self.new) }
        ensures entries { OnOk result (vec_len self.new.history + (2 * vec_len self.new.lives + 3) ≤ vec_capacity self.new.history) }
        ensures length { vec_len self.new.history ≡ vec_len self.old.history }
        ensures capacity { vec_capacity self.old.history ≤ vec_capacity self.new.history }
    {
        self.history
            .reserve((2 * self.lives.len()).saturating_add(3))?;
        self.blocks.reserve(1)?;
        self.lives.reserve(1)?;
        self.store.file.reserve(1)?;
        self.store.locks.reserve(plans + 1)?;
        Ok(())
    }

    /// Adds the entry of a new request, for which there is room.
    fn note(&mut self, entry: Entry)
        requires opener { Lies 1 8 entry.opener }
        requires eight { length self.old.seats ≡ 8 }
        requires fresh { (seat_of self.old.seats entry.opener).last < entry.sync }
        requires room { vec_len self.old.history < vec_capacity self.old.history }
        ensures parts { parts_of self.new ≡ noted_parts (parts_of self.old) entry }
        ensures length { vec_len self.new.history ≡ vec_len self.old.history + 1 }
        ensures capacity { vec_capacity self.old.history ≤ vec_capacity self.new.history }
    {
        let place = self.history.len();
        self.seats.keep(entry.opener, entry.sync, place);
        append(&mut self.history, entry);
    }
}

/// A copy of a request; a Prepare or an End takes no memory.
fn copy_of(request: &Request) -> Result<Request, NoMemory>
    ensures copy { IfOk result (λ copy. copy ≡ request.now) }
    ensures closing { OnErr result (is_closing request.now.ask ≡ false) }
{
    Ok(Request {
        ordinal: request.ordinal,
        ask: copy_of_ask(&request.ask)?,
    })
}

fn copy_of_ask(ask: &Ask) -> Result<Ask, NoMemory>
    ensures copy { IfOk result (λ copy. copy ≡ ask.now) }
    ensures closing { OnErr result (is_closing ask.now ≡ false) }
{
    match ask {
        Ask::Prepare => Ok(Ask::Prepare),
        Ask::EndCommit { stamp } => Ok(Ask::EndCommit { stamp: *stamp }),
        Ask::EndUndo => Ok(Ask::EndUndo),
        _ => Ok(ask.clone()?),
    }
}

fn append(history: &mut Vec<Entry>, entry: Entry)
    requires { vec_len history.old < vec_capacity history.old }
    ensures items { history.new.items ≡ history.old.items ++ entry ∷ [] }
    ensures length { vec_len history.new ≡ vec_len history.old + 1 }
    ensures capacity { vec_capacity history.old ≤ vec_capacity history.new }
{
    let pushed = history.push(entry);
    prove!(pushed.is_ok());
}
