//! The start of a lock.
ghost use Rattle.std.specs.Prelude.{◌≡◌, ◌+◌, ◌-◌, ◌<◌, ◌≤◌, [], ◌∷◌, IfOk, map};
ghost use Rattle.std.specs.List.{range_with_len};
ghost use Rattle.turn_lock.specs.Pass.{lock_id, new_pass};
ghost use Rattle.turn_lock.specs.View.{start_of, fresh, first_view, drawn_as};

use crate::lock::TurnLock;
use crate::pass::Pass;
use crate::stands_for::StandsFor;
use crate::view::{DRAWN, Draw, Newcomer, Opening, SeatOf, SharedOf};
use atomic_table::{Refused, Table};
use std::alloc::{AllocError, AllocFailed, Global};
use std::error::Error;
use std::fmt;
use std::snapshot::Snapshot;
use std::sync::Wait;

/// There was no memory.
#[derive(Clone, Copy, Debug, PartialEq, Eq)]
pub struct NoMemory;

impl fmt::Display for NoMemory {
    fn fmt<W: fmt::Write>(&self, f: &mut fmt::Formatter<W>) -> fmt::Result {
        f.write_str("out of memory")
    }
}

impl Error for NoMemory {}

impl From<AllocError> for NoMemory {
    fn from(_: AllocError) -> NoMemory {
        NoMemory
    }
}

impl<T: Drop> From<AllocFailed<T>> for NoMemory {
    fn from(_: AllocFailed<T>) -> NoMemory {
        NoMemory
    }
}

impl<V: StandsFor> TurnLock<V> {
    /// A lock round the value, and its passes in the order of their numbers, which count from 0. It may wait. Where
    /// there is no memory, the value is dropped.
    pub fn new<R: Wait>(
        rt: &R,
        alloc: Global,
        value: V,
        passes: u32,
    ) -> Result<(TurnLock<V>, Vec<Pass<V>>), NoMemory>
    where
        V: Drop,
        requires empty { V.history value ≡ [] }
        requires some { 1 ≤ passes }
        ensures lock { IfOk result (λ made. made.0.passes ≡ passes) }
        ensures passes { let numbers = range_with_len 0 passes in
            IfOk result (λ made. made.1.items ≡ map (new_pass made.0 (V.root value)) numbers) }
    {
        let opening = Opening {
            value: Snapshot::of(&value),
            passes,
        };
        let mut slots = Vec::new(alloc);
        slots.push(Some(value))?;
        let (table, mut first) = match Table::new(alloc, &[0, 0, 1], slots, &opening) {
            Ok(made) => made,
            Err(Refused { slots: _ }) => return Err(NoMemory),
        };
        let mut list = Vec::with_capacity(alloc, 1)?;
        let mut rest = others(rt, alloc, &table.shared, &mut first, &opening)?;
        list.push(pass_of(0, first, &opening))?;
        list.append(&mut rest)?;
        Ok((TurnLock { table }, list))
    }
}

// The passes with the numbers above 0.
fn others<V: StandsFor, R: Wait>(
    rt: &R,
    alloc: Global,
    shared: &SharedOf<V>,
    first: &mut SeatOf<V>,
    opening: &Opening<V>,
) -> Result<Vec<Pass<V>>, NoMemory>
    requires table { (first.old.table_id ≡ shared.now.table_id) × (shared.now.table_id.words ≡ 3) }
    requires started { first.old.me.0.starts ≡ start_of V.root opening.now ∷ [] }
    requires some { 1 ≤ opening.now.passes }
    ensures first { (first.new.table_id ≡ first.old.table_id) × (first.new.me ≡ first.old.me) }
    ensures passes { let lock = lock_id shared.now.table_id opening.now.passes in
        let numbers = range_with_len 1 (opening.now.passes - 1) in
        IfOk result (λ rest. rest.items ≡ map (new_pass lock (V.root opening.now.value.value)) numbers) }
{
    let mut list = Vec::new(alloc);
    for number in 1..opening.passes {
        let seat = draw(rt, shared, first, opening, number);
        list.push(pass_of(number, seat, opening))?;
    }
    Ok(list)
}

// A new seat with this number.
fn draw<V: StandsFor, R: Wait>(
    rt: &R,
    shared: &SharedOf<V>,
    first: &mut SeatOf<V>,
    opening: &Opening<V>,
    number: u32,
) -> SeatOf<V>
    requires table { (first.old.table_id ≡ shared.now.table_id) × (shared.now.table_id.words ≡ 3) }
    requires started { first.old.me.0.starts ≡ start_of V.root opening.now ∷ [] }
    requires below { number < opening.now.passes }
    ensures first { (first.new.table_id ≡ first.old.table_id) × (first.new.me ≡ first.old.me) }
    ensures table { result.table_id ≡ shared.now.table_id }
    ensures seat { result.me ≡ (drawn_as (fresh first.old.me.0.starts) number, []) }
{
    let mut seat = shared.split_seat::<Newcomer>(first);
    let old = number as u64;
    for _ in rt.forever() {
        if shared.compare_exchange::<Draw>(&mut seat, DRAWN, old, old + 1) == old {
            return seat;
        }
    }
    unreachable!()
}

fn pass_of<V: StandsFor>(number: u32, seat: SeatOf<V>, opening: &Opening<V>) -> Pass<V>
    requires { seat.me ≡ (drawn_as (fresh (start_of V.root opening.now ∷ [])) number, []) }
    ensures { let lock = lock_id seat.table_id opening.now.passes in
        result ≡ new_pass lock (V.root opening.now.value.value) number }
{
    Pass {
        number,
        passes: opening.passes,
        seat,
    }
}
