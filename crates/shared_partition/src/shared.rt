//! A partition that threads share by reference. Each takes turns by a pass of its own.
ghost use Rattle.std.specs.Prelude.{◌≡◌, ◌≢◌, ◌<◌, ◌≤◌, List, ℕ, false, None, Some, All, Contains, map, IfOk, OnOk, IfErr, IfNone, IfSome};
ghost use Rattle.std.specs.List.{range_with_len};
ghost use mathlib.Core.List.{IsPrefix};
ghost use Rattle.sql_base.specs.Scripts.{Lies};
ghost use Rattle.dp_messages.specs.Spelling.{IsEnvelope};
ghost use Rattle.partition_core.specs.Kept.{opened_with};
ghost use Rattle.turn_lock.specs.Pass.{HasRoot, IsMadeOf, StandIn, new_pass, with_loss};
ghost use Rattle.mail_queue.specs.Tokens.{taker_hand, with_taken};
ghost use Rattle.mail_queue.specs.Rule.{Moment};
ghost use Rattle.crossbeam_queue.specs.Fifo.{Held as IsHeld};
ghost use Rattle.shared_partition.specs.Sharing.{Answers, AnswersMessage, EndsWithoutMemory, Finds, FindsDue, GoesOn, IsTurn};
ghost use Rattle.shared_partition.specs.Spelled.{IsOpening};

use crate::picked::Picked;
use crate::spelled::SpelledPartition;
use dp_messages::{Message, Request};
use mail_queue::{Mail, Taker};
use outside::{Gate, Point};
use partition_core::{Partition, Served};
use sql_base::NoMemory;
use std::alloc::Global;
use std::marker::Model;
use std::sync::Wait;
use turn_lock::{Busy, Pass, TurnLock};

/// A partition that threads share. Contracts see which lock it has, and for how many passes it was made.
#[derive(Drop)]
pub struct SharedPartition {
    lock: TurnLock<SpelledPartition>,
}

impl Model for SharedPartition {
    ghost use Rattle.turn_lock.specs.Pass.{LockId};

    ghost Value = { LockId };

    ghost view = { λ s. s.lock };
}

impl SharedPartition {
    /// A partition to which nothing was posted yet, and its passes in the order of their numbers, which count from 0.
    /// It may wait. Where there is no memory, the partition is dropped.
    pub fn new<R: Wait>(
        rt: &R,
        alloc: Global,
        partition: Partition,
        passes: u32,
    ) -> Result<(SharedPartition, Vec<Pass<SpelledPartition>>), NoMemory>
        requires opening { IsOpening partition.opening }
        requires fresh { partition ≡ opened_with partition.opening }
        requires some { 1 ≤ passes }
        ensures lock { IfOk result (λ made. made.0.passes ≡ passes) }
        ensures passes { let numbers = range_with_len 0 passes in
            IfOk result (λ made. made.1.items ≡ map (new_pass made.0 (opened_with partition.opening)) numbers) }
    {
        match TurnLock::new(rt, alloc, SpelledPartition::new(partition), passes) {
            Ok((lock, passes)) => Ok((SharedPartition { lock }, passes)),
            Err(_) => Err(NoMemory),
        }
    }

    /// Ends the sharing, once all passes are there, in any order, and gives the partition. It can't be refused.
    pub fn close_with(self, passes: Vec<Pass<SpelledPartition>>) -> Partition
        requires lock { All (λ p. p.lock ≡ self) passes.items }
        requires idle { All (λ p. p.holds ≡ false) passes.items }
        requires all { (n : ℕ) → n < self.passes → Contains (map (λ p. p.number) passes.items) n }
        ensures root { All (λ p. HasRoot p (opened_with result.opening)) passes.items }
        ensures begins { All (λ p. IsPrefix p.seen result.history) passes.items }
        ensures made { IsMadeOf result.history passes.items }
        // Each pass's entries stand in what it has seen, in the order in which it added them.
        ensures own { All (λ p. StandIn p.mine p.seen) passes.items }
    {
        let SharedPartition { lock } = self;
        lock.close_with(passes).into_partition()
    }

    /// Serves the request of a message, if the turn is free. It waits for nobody.
    pub fn try_serve(
        &self,
        alloc: Global,
        pass: &mut Pass<SpelledPartition>,
        message: &Message,
    ) -> Result<Served, Busy>
        requires lock { pass.old.lock ≡ self.now }
        requires idle { pass.old.holds ≡ false }
        ensures pass { GoesOn pass.old pass.new }
        ensures served { IfOk result (λ served. AnswersMessage pass.old message.now served pass.new) }
        ensures losses { OnOk result (pass.new.losses ≡ pass.old.losses) }
        ensures busy { IfErr result (λ busy. pass.new ≡ with_loss pass.old busy.holder) }
        ensures other { IfErr result (λ busy. busy.holder ≢ pass.old.number) }
        ensures holder { IfErr result (λ busy. busy.holder < pass.old.lock.passes) }
    {
        let mut held = self.lock.try_turn(pass)?;
        let served = held.value_mut().serve_message(alloc, message);
        self.lock.give(held, pass);
        Ok(served)
    }

    /// The kept reply to a sync, from 1, of an opener from 1 to 8, if the turn is free. It waits for nobody.
    pub fn try_pickup(
        &self,
        alloc: Global,
        pass: &mut Pass<SpelledPartition>,
        opener: u32,
        sync: u64,
    ) -> Result<Picked, Busy>
        requires lock { pass.old.lock ≡ self.now }
        requires idle { pass.old.holds ≡ false }
        requires opener { Lies 1 8 opener }
        requires sync { 0 < sync }
        ensures pass { GoesOn pass.old pass.new }
        ensures turn { OnOk result (IsTurn pass.old pass.new None) }
        ensures found { IfOk result (λ picked. Finds pass.new.seen opener sync picked) }
        ensures due { IfOk result (λ picked. FindsDue pass.old opener sync picked pass.new) }
        ensures losses { OnOk result (pass.new.losses ≡ pass.old.losses) }
        ensures busy { IfErr result (λ busy. pass.new ≡ with_loss pass.old busy.holder) }
        ensures other { IfErr result (λ busy. busy.holder ≢ pass.old.number) }
        ensures holder { IfErr result (λ busy. busy.holder < pass.old.lock.passes) }
    {
        let held = self.lock.try_turn(pass)?;
        let picked = held.value().find(alloc, opener, sync);
        self.lock.give(held, pass);
        Ok(picked)
    }

    /// The kept reply to a sync, from 1, of an opener from 1 to 8. It waits for the turn.
    pub fn pickup<R: Wait>(
        &self,
        rt: &R,
        alloc: Global,
        pass: &mut Pass<SpelledPartition>,
        opener: u32,
        sync: u64,
    ) -> Picked
        requires lock { pass.old.lock ≡ self.now }
        requires idle { pass.old.holds ≡ false }
        requires opener { Lies 1 8 opener }
        requires sync { 0 < sync }
        ensures pass { GoesOn pass.old pass.new }
        ensures turn { IsTurn pass.old pass.new None }
        ensures found { Finds pass.new.seen opener sync result }
        ensures due { FindsDue pass.old opener sync result pass.new }
        ensures losses { IsPrefix pass.old.losses pass.new.losses }
    {
        let held = self.lock.turn(rt, pass);
        let picked = held.value().find(alloc, opener, sync);
        self.lock.give(held, pass);
        picked
    }

    /// Takes a message from the mail and serves its request. The gate is told once the turn is taken, and once it was
    /// given. `None` only where the mail was empty at one moment of the call. It waits for the turn.
    pub fn serve_one<R: Wait, G: Gate>(
        &self,
        rt: &R,
        alloc: Global,
        pass: &mut Pass<SpelledPartition>,
        mail: &Mail<Message>,
        taker: &mut Taker<Message>,
        gate: &G,
        part: u32,
    ) -> Option<Served>
        requires lock { pass.old.lock ≡ self.now }
        requires idle { pass.old.holds ≡ false }
        requires mail { taker.old.mail ≡ mail.now }
        ensures pass { GoesOn pass.old pass.new }
        ensures served { IfSome result (λ served. (message : List ℕ) × (taker.new ≡ with_taken taker.old message)
            × AnswersMessage pass.old message served pass.new) }
        ensures losses { IsPrefix pass.old.losses pass.new.losses }
        ensures stays { IfNone result ((pass.new ≡ pass.old) × (taker.new ≡ taker.old)) }
        ensures empty { IfNone result (IsHeld 0 (Moment (λ message. message) (taker_hand taker.old))) }
    {
        let Some(message) = mail.take(rt, taker) else {
            return None;
        };
        let mut held = self.lock.turn(rt, pass);
        gate.at(Point::Holding(part));
        let served = held.value_mut().serve_message(alloc, &message);
        self.lock.give(held, pass);
        gate.at(Point::Given(part));
        Some(served)
    }

    /// Serves the request of a message that no server took. It waits for the turn.
    pub fn serve_by_hand<R: Wait>(
        &self,
        rt: &R,
        alloc: Global,
        pass: &mut Pass<SpelledPartition>,
        message: &Message,
    ) -> Served
        requires lock { pass.old.lock ≡ self.now }
        requires idle { pass.old.holds ≡ false }
        ensures pass { GoesOn pass.old pass.new }
        ensures served { AnswersMessage pass.old message.now result pass.new }
        ensures losses { IsPrefix pass.old.losses pass.new.losses }
    {
        let mut held = self.lock.turn(rt, pass);
        let served = held.value_mut().serve_message(alloc, message);
        self.lock.give(held, pass);
        served
    }

    /// Serves a request that is in memory and has a spelling. It takes no memory for the End that ends a live
    /// transaction. It waits for the turn.
    pub fn end_by_hand<R: Wait>(
        &self,
        rt: &R,
        alloc: Global,
        pass: &mut Pass<SpelledPartition>,
        opener: u32,
        sync: u64,
        request: &Request,
    ) -> Served
        requires lock { pass.old.lock ≡ self.now }
        requires idle { pass.old.holds ≡ false }
        requires spelled { IsEnvelope (record { opener = opener; sync = sync; request = request.now }) }
        ensures pass { GoesOn pass.old pass.new }
        ensures served { Answers pass.old opener sync request.now result pass.new }
        ensures settled { EndsWithoutMemory pass.old opener sync request.now result pass.new }
        ensures losses { IsPrefix pass.old.losses pass.new.losses }
    {
        let mut held = self.lock.turn(rt, pass);
        let served = held.value_mut().serve(alloc, opener, sync, request);
        self.lock.give(held, pass);
        served
    }
}
