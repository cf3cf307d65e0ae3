//! The lock round a value that has a history.
ghost use Rattle.std.specs.Prelude.{◌≡◌, ◌≢◌, ◌<◌, ◌++◌, ◌∷◌, [], true, false, None, Some, IfOk, IfErr};
ghost use mathlib.Core.List.{IsPrefix};
ghost use Rattle.turn_lock.specs.Pass.{HasRoot, AddsAtMostOne, with_turn, with_loss, with_entry, without_turn};
ghost use Rattle.turn_lock.specs.View.{entered};

use crate::held::Held;
use crate::pass::Pass;
use crate::stands_for::StandsFor;
use crate::view::{
    Add, COUNT, Count, Give, Opening, SeatOf, SharedOf, TURN, Take, Turns, VALUE, View,
};
use atomic_table::Table;
use std::alloc::Global;
use std::error::Error;
use std::fmt;
use std::marker::Model;
use std::snapshot::Snapshot;
use std::sync::Wait;

/// A lock round a value that has a history. Threads share it by reference, and each takes turns by a pass of its own.
/// Contracts see which lock it is, and how many passes it was made with.
#[derive(Drop)]
pub struct TurnLock<V: StandsFor> {
    pub(crate) table: Table<Option<V>, View<V::Entry, V::Root>, Opening<V>, Turns, Global>,
}

impl<V: StandsFor> Model for TurnLock<V> {
    ghost use Rattle.std.specs.Prelude.{◌≡◌, ◌≤◌};
    ghost use Rattle.turn_lock.specs.Pass.{LockId, lock_id};

    ghost Value = { LockId };

    ghost view = { λ l. lock_id l.table.shared.table_id l.table.shared.key.passes };

    ghost invariant = { λ l. (l.table.shared.table_id.words ≡ 3) × (l.table.shared.table_id.slots ≡ 1) × (1 ≤ l.table.shared.key.passes) };
}

/// Another pass, the one with the number `holder`, holds the turn.
#[derive(Clone, Copy, Debug, PartialEq, Eq)]
pub struct Busy {
    pub holder: u32,
}

impl fmt::Display for Busy {
    fn fmt<W: fmt::Write>(&self, f: &mut fmt::Formatter<W>) -> fmt::Result {
        write!(f, "pass {} holds the turn", self.holder)
    }
}

impl Error for Busy {}

impl<V: StandsFor> TurnLock<V> {
    /// Takes the turn if it is free, and waits for nobody. `Busy` comes where another pass held it at this call's step.
    pub fn try_turn(&self, pass: &mut Pass<V>) -> Result<Held<V>, Busy>
        requires lock { pass.old.lock ≡ self.now }
        requires idle { pass.old.holds ≡ false }
        ensures taken { IfOk result (λ held. pass.new ≡ with_turn pass.old (V.history held.value) (V.state held.value)) }
        ensures taker { IfOk result (λ held. held.taker ≡ pass.new) }
        ensures begins { IfOk result (λ held. IsPrefix pass.old.seen (V.history held.value)) }
        ensures root { IfOk result (λ held. HasRoot pass.old (V.root held.value)) }

        // The turn word named the holder as this call read it: no other step adds to the losses.
        ensures busy { IfErr result (λ busy. pass.new ≡ with_loss pass.old busy.holder) }
        ensures other { IfErr result (λ busy. busy.holder ≢ pass.old.number) }
        ensures holder { IfErr result (λ busy. busy.holder < pass.old.lock.passes) }
    {
        let turn = pass.number as u64 + 1;
        let found = self
            .table
            .shared
            .compare_exchange::<Take>(&mut pass.seat, TURN, 0, turn);
        if found != 0 {
            return Err(Busy {
                holder: (found - 1) as u32,
            });
        }
        let value = self
            .table
            .shared
            .exchange(&mut pass.seat, VALUE, None)
            .unwrap();
        Ok(Held {
            value,
            taker: Snapshot::of(pass),
        })
    }

    /// Takes the turn, and waits for it.
    pub fn turn<R: Wait>(&self, rt: &R, pass: &mut Pass<V>) -> Held<V>
        requires lock { pass.old.lock ≡ self.now }
        requires idle { pass.old.holds ≡ false }
        ensures taken { let pass_then = record pass.old { losses = pass.new.losses } in
            pass.new ≡ with_turn pass_then (V.history result.value) (V.state result.value) }
        ensures losses { IsPrefix pass.old.losses pass.new.losses }
        ensures taker { result.taker ≡ pass.new }
        ensures begins { IsPrefix pass.old.seen (V.history result.value) }
        ensures root { HasRoot pass.old (V.root result.value) }
    {
        for _ in rt.forever() {
            match self.try_turn(pass) {
                Ok(held) => return held,
                Err(busy) => self
                    .table
                    .shared
                    .park(rt, TURN, busy.holder.wrapping_add(1)),
            }
        }
        unreachable!()
    }

    /// Gives the turn back, with the value, to whose history the holder may have added one entry.
    pub fn give(&self, held: Held<V>, pass: &mut Pass<V>)
        requires lock { pass.old.lock ≡ self.now }
        requires held { held.taker ≡ pass.old }
        requires root { HasRoot pass.old (V.root held.value) }
        requires history { AddsAtMostOne pass.old.seen (V.history held.value) }
        ensures same { V.history held.value ≡ pass.old.seen → pass.new ≡ without_turn pass.old }
        ensures added { (entry : V.Entry) → V.history held.value ≡ pass.old.seen ++ entry ∷ []
            → pass.new ≡ without_turn (with_entry pass.old entry) }
    {
        let Held { value, taker: _ } = held;
        put_back(&self.table.shared, &mut pass.seat, value);
        self.table.shared.store::<Give>(&mut pass.seat, TURN, 0);
        self.table.shared.wake_one(TURN);
    }
}

// Lays the value into its slot, and adds its new entry, if it has one, to what is kept of the history.
fn put_back<V: StandsFor>(shared: &SharedOf<V>, seat: &mut SeatOf<V>, value: V)
    requires table { (seat.old.table_id ≡ shared.now.table_id) × (shared.now.table_id.words ≡ 3) }
    requires holds { (seat.old.me.0.holds ≡ true) × (seat.old.me.1 ≡ (0, None) ∷ []) }
    requires history { AddsAtMostOne seat.old.me.0.seen (V.history value) }
    ensures table { seat.new.table_id ≡ seat.old.table_id }
    ensures same { V.history value ≡ seat.old.me.0.seen → seat.new.me ≡ (seat.old.me.0, (0, Some value) ∷ []) }
    ensures added { (entry : V.Entry) → V.history value ≡ seat.old.me.0.seen ++ entry ∷ []
        → seat.new.me ≡ (entered seat.old.me.0 entry, (0, Some value) ∷ []) }
{
    let before = shared.load::<Count>(seat, COUNT);
    let after = value.entries();
    match shared.exchange(seat, VALUE, Some(value)) {
        None => {}
        Some(_) => unreachable!(),
    }
    if after == before {
        return;
    }
    shared.store::<Add>(seat, COUNT, after);
}
