//! What a seat at the lock's table knows, the rule of the table, and what each step tells.
ghost use Rattle.std.specs.Prelude.{[]};
ghost use Rattle.turn_lock.specs.View.{start_of, fresh, first_view, rejoined};
ghost use Rattle.turn_lock.specs.Rule.{Kept, took, counted, added, gave, drew};

use crate::stands_for::StandsFor;
use atomic_table::{Join, Play, Seat, Shared, Split, TableRule};
use std::collections::LinkedList;
use std::snapshot::Snapshot;

// How a lock began: with this value, and so many passes.
#[derive(Drop)]
pub struct Opening<V> {
    pub value: Snapshot<V>,
    pub passes: u32,
}

// What a seat knows of it.
pub struct Start<R> {
    pub root: R,
    pub passes: u32,
}

// What a seat knows. Proofs alone have a value of it.
pub struct View<E, R> {
    // Its number, none before it is drawn, and more than one once seats were joined.
    pub numbers: LinkedList<u32>,
    pub seen: LinkedList<E>,
    // Its own entries, each with its place in the history.
    pub mine: LinkedList<(u64, E)>,
    pub holds: bool,
    // The state of the value, for each turn that was taken.
    pub found: LinkedList<R>,
    // The number of the holder, for each take that was lost.
    pub losses: LinkedList<u32>,
    // What the seats that were joined had seen.
    pub merged: LinkedList<LinkedList<E>>,
    // How the lock began, once for each seat that was joined. None in a seat that was joined to another.
    pub starts: LinkedList<Start<R>>,
}

pub type SeatOf<V> = Seat<Option<V>, View<<V as StandsFor>::Entry, <V as StandsFor>::Root>>;

pub type SharedOf<V> = Shared<
    Option<V>,
    View<<V as StandsFor>::Entry, <V as StandsFor>::Root>,
    Opening<V>,
    Turns,
>;

// The words of the table. The turn is 0, or one more than the number of the pass that holds it.
pub const TURN: usize = 0;

// The length of the history.
pub const COUNT: usize = 1;

// How many numbers were drawn.
pub const DRAWN: usize = 2;

// The slot of the value.
pub const VALUE: usize = 0;

// The rule of the table.
pub struct Turns;

impl<V: StandsFor> TableRule<Option<V>, View<V::Entry, V::Root>, Opening<V>> for Turns {
    ghost holds = { λ key. Kept V.history V.root (start_of V.root key) };

    ghost first = { λ key. first_view (start_of V.root key) };
}

// Takes the turn, or loses it to the pass that holds it.
pub struct Take;

impl<V: StandsFor> Play<Option<V>, View<V::Entry, V::Root>> for Take {
    ghost then = { took V.history V.root V.state };
}

// Reads the length of the history, while holding the turn.
pub struct Count;

impl<V: StandsFor> Play<Option<V>, View<V::Entry, V::Root>> for Count {
    ghost then = { counted V.history V.root };
}

// Adds an entry to the history, while holding the turn.
pub struct Add;

impl<V: StandsFor> Play<Option<V>, View<V::Entry, V::Root>> for Add {
    ghost then = { added V.history V.root };
}

// Gives the turn back.
pub struct Give;

impl<V: StandsFor> Play<Option<V>, View<V::Entry, V::Root>> for Give {
    ghost then = { gave V.history V.root };
}

// Draws a number, or finds another drawn.
pub struct Draw;

impl<V: StandsFor> Play<Option<V>, View<V::Entry, V::Root>> for Draw {
    ghost then = { drew V.history V.root };
}

// A seat is made for a new pass.
pub struct Newcomer;

impl<E, R> Split<View<E, R>> for Newcomer {
    ghost left = { λ v. v };

    ghost right = { λ v. fresh v.starts };
}

// One seat takes in another.
pub struct Rejoin;

impl<E, R> Join<View<E, R>> for Rejoin {
    ghost both = { rejoined };

    ghost spent = { fresh [] };
}
