//! The right to take turns at one lock.
use crate::stands_for::StandsFor;
use crate::view::SeatOf;
use std::marker::Model;

/// The right to take turns at one lock. Contracts see its lock, its number, its root, how much of the history it has
/// seen, its own entries, whether it holds the turn, the state of the value at each turn that it took, and who held the
/// turn at each take that it lost.
#[derive(Drop)]
pub struct Pass<V: StandsFor> {
    pub(crate) number: u32,
    // How many passes the lock has.
    pub(crate) passes: u32,
    pub(crate) seat: SeatOf<V>,
}

impl<V: StandsFor> Model for Pass<V> {
    ghost use Rattle.turn_lock.specs.Pass.{PassState, lock_id};
    ghost use Rattle.turn_lock.specs.View.{shown, IsSeatOf};

    ghost Value = { PassState V.Entry V.Root };

    ghost view = { λ p. shown (lock_id p.seat.table_id p.passes) p.number p.seat.me.0 };

    ghost invariant = { λ p. IsSeatOf p.number p.passes p.seat.me };
}
