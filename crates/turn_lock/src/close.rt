//! The end of a lock.
ghost use Rattle.std.specs.Prelude.{◌≡◌, ℕ, ◌<◌, [], false, map, All, Contains, vec_len};
ghost use mathlib.Core.List.{IsPrefix};
ghost use Rattle.turn_lock.specs.Pass.{HasRoot, IsMadeOf, StandIn, lock_id};
ghost use Rattle.turn_lock.specs.Gather.{Gathers};

use crate::lock::TurnLock;
use crate::pass::Pass;
use crate::stands_for::StandsFor;
use crate::view::{Rejoin, SeatOf, SharedOf, VALUE};

impl<V: StandsFor> TurnLock<V> {
    /// Ends the lock, once all its passes are there, in any order, and gives the value. It can't be refused.
    pub fn close_with(self, passes: Vec<Pass<V>>) -> V
        requires lock { All (λ p. p.lock ≡ self) passes.items }
        requires idle { All (λ p. p.holds ≡ false) passes.items }
        requires all { (n : ℕ) → n < self.passes → Contains (map (λ p. p.number) passes.items) n }
        ensures root { All (λ p. HasRoot p (V.root result)) passes.items }
        ensures begins { All (λ p. IsPrefix p.seen (V.history result)) passes.items }
        ensures made { IsMadeOf (V.history result) passes.items }
        // Each pass's entries stand in what it has seen, in the order in which it added them.
        ensures own { All (λ p. StandIn p.mine p.seen) passes.items }
    {
        let TurnLock { table } = self;
        let seat = gather(&table.shared, passes);
        let mut closed = table.close_with(seat);
        let value = closed.take(VALUE).unwrap();
        closed.free();
        value
    }
}

// One seat takes in all.
fn gather<V: StandsFor>(shared: &SharedOf<V>, passes: Vec<Pass<V>>) -> SeatOf<V>
    requires table { 0 < shared.now.table_id.words }
    requires some { 0 < vec_len passes }
    requires lock { let lock = lock_id shared.now.table_id shared.now.key.passes in
        All (λ p. p.lock ≡ lock) passes.items }
    requires idle { All (λ p. p.holds ≡ false) passes.items }
    ensures seat { (result.table_id ≡ shared.now.table_id) × (result.me.1 ≡ []) }
    ensures all { Gathers result.me.0 passes.items }
{
    let mut passes = passes;
    let Some(first) = passes.pop() else {
        unreachable!()
    };
    let Pass {
        number: _,
        passes: _,
        mut seat,
    } = first;
    while let Some(pass) = passes.pop() {
        let Pass {
            number: _,
            passes: _,
            seat: other,
        } = pass;
        shared.join_seat::<Rejoin>(&mut seat, other);
    }
    seat
}
