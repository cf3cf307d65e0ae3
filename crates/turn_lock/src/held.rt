//! The value of a lock while a pass holds the turn.
ghost use Rattle.std.specs.Prelude.{◌≡◌};
ghost use Rattle.std.specs.Borrow.{sem, Lends};
ghost use Rattle.turn_lock.specs.contracts.held.Held.{the_row};

use crate::pass::Pass;
use crate::stands_for::StandsFor;
use std::marker::Model;
use std::snapshot::Snapshot;

/// The value of a lock, while a pass holds the turn. It can't be dropped: `give` spends it. Contracts see the value,
/// and the pass as it was once it had taken the turn.
pub struct Held<V: StandsFor> {
    pub(crate) value: V,
    pub(crate) taker: Snapshot<Pass<V>>,
}

impl<V: StandsFor> Model for Held<V> {
    ghost use Rattle.std.specs.Prelude.{◌≡◌, true};
    ghost use Rattle.turn_lock.specs.Held.{HeldState};

    ghost Value = { HeldState V V.Entry V.Root };

    ghost view = { λ h. record { value = h.value; taker = h.taker.value } };

    ghost invariant = { λ h. h.taker.value.holds ≡ true };
}

impl<V: StandsFor> Held<V> {
    /// The value.
    pub fn value(&self) -> &V
        ensures { result.now ≡ self.now.value }
    {
        &self.value
    }

    /// The value, to be changed. Once the borrow is over, `self` has what was written through it.
    pub fn value_mut(&mut self) -> &mut V
        ensures* writes_back { let row = the_row V.row V.Entry.row V.Root.row V.StandsFor in
            sem 𝓛 (Lends row V.row self.entry result (λ w. record self.old { value = w })) }
        ensures value { result.now ≡ self.old.value }
    {
        &mut self.value
    }
}
