//! A partition all of whose requests came in messages, so that each of its replies can be spelled.
ghost use Rattle.std.specs.Prelude.{◌≡◌, ◌<◌};
ghost use Rattle.sql_base.specs.Scripts.{Lies};
ghost use Rattle.dp_messages.specs.Spelling.{IsEnvelope, IsReply, request_bytes};
ghost use Rattle.dp_messages.specs.declared.requests.Envelope.{Envelope};
ghost use Rattle.dp_messages.specs.declared.requests.Request.{Request as Asked};
ghost use Rattle.partition_state.specs.History.{IsLegal};
ghost use Rattle.partition_core.specs.Kept.{AreMarked, IsReplayed, opened_with, opener_in};
ghost use Rattle.partition_core.specs.Settling.{ServesSettling};
ghost use Rattle.shared_partition.specs.Sharing.{Finds, IsThere};
ghost use Rattle.shared_partition.specs.Spelled.{Adds, AddsMessage, IsAddress, IsOpening, IsSpelled, IsSpelling};

use crate::picked::Picked;
use dp_messages::{Envelope, Message, Reply, Request, address, decode_request, encode_reply};
use partition_core::{Partition, Pick, Served};
use partition_state::Entry;
use std::alloc::Global;
use std::marker::Model;
use turn_lock::StandsFor;

/// A partition that is asked in messages alone. Contracts see it as what the partition keeps.
#[derive(Drop)]
pub struct SpelledPartition {
    partition: Partition,
}

impl Model for SpelledPartition {
    ghost use Rattle.partition_core.specs.Kept.{Kept};
    ghost use Rattle.shared_partition.specs.Spelled.{IsSpelled};
    ghost use Rattle.sql_base.specs.contracts.expressions.Expr as expr;
    ghost use Rattle.std.specs.Coded.{codes};

    ghost Value = { Kept };

    ghost coded = { Prim.hlevel (codes, expr.the_row.coded) };

    ghost view = { λ p. p.partition };

    ghost invariant = { λ p. IsSpelled p.partition };
}

/// It stands for its history, which began from the partition as it opened, and for what it keeps now.
impl StandsFor for SpelledPartition {
    type Entry = Entry;

    type Root = Partition;

    ghost use Rattle.partition_core.specs.Kept.{opened_with};

    ghost history = { λ k. k.history };

    ghost root = { λ k. opened_with k.opening };

    ghost state = { λ k. k };

    fn entries(&self) -> u64 {
        self.history().len() as u64
    }
}

impl SpelledPartition {
    /// The partition, to which nothing was posted yet.
    pub fn new(partition: Partition) -> SpelledPartition
        requires opening { IsOpening partition.opening }
        requires fresh { partition ≡ opened_with partition.opening }
        ensures { result ≡ partition }
    {
        SpelledPartition { partition }
    }

    /// The partition.
    pub fn into_partition(self) -> Partition
        ensures { result ≡ self }
    {
        let SpelledPartition { partition } = self;
        partition
    }

    // What was served. Callers that don't look at it learn that it is legal.
    fn history(&self) -> &[Entry]
        ensures history { result.now ≡ self.now.history }
        ensures spelled { IsSpelled self.now }
        ensures replayed { IsReplayed self.now }
        ensures marked { AreMarked self.now }
    {
        self.partition.history()
    }

    /// Serves the request of a message. Where memory is short for it, and its sync is new, the sync is starved.
    pub fn serve_message(&mut self, alloc: Global, message: &Message) -> Served
        ensures opening { self.new.opening ≡ self.old.opening }
        ensures legal { IsLegal self.new.opening self.new.history }
        ensures served { AddsMessage self.old message.now result self.new }
    {
        match decode_request(alloc, message) {
            Ok(envelope) => {
                let Envelope {
                    opener,
                    sync,
                    request,
                } = envelope;
                self.serve(alloc, opener, sync, &request)
            }
            Err(_) => {
                let (opener, sync) = address_of(message);
                self.starve_if_new(opener, sync)
            }
        }
    }

    /// Serves a request that has a spelling. Where memory is short for it, and its sync is new, the sync is starved. The
    /// Prepare that prepares a live transaction and the End that ends one need no memory.
    pub fn serve(&mut self, alloc: Global, opener: u32, sync: u64, request: &Request) -> Served
        requires spelled { IsEnvelope (record { opener = opener; sync = sync; request = request.now }) }
        ensures opening { self.new.opening ≡ self.old.opening }
        ensures legal { IsLegal self.new.opening self.new.history }
        ensures served { Adds self.old opener sync request.now result self.new }
        ensures settled { ServesSettling self.old opener sync request.now result }
    {
        let _served = self.history();
        match self.partition.serve(alloc, opener, sync, request) {
            Served::New => Served::New,
            Served::Repeat => Served::Repeat,
            Served::Starved => Served::Starved,
            // Below the opener's last sync, for which memory may have been short.
            Served::Old => self.starve_if_new(opener, sync),
        }
    }

    // What becomes of a sync without its request: where it is new, it is starved.
    fn starve_if_new(&mut self, opener: u32, sync: u64) -> Served
        requires opener { Lies 1 8 opener }
        requires sync { 0 < sync }
        ensures opening { self.new.opening ≡ self.old.opening }
        ensures history { self.new.history ≡ self.old.history }
        ensures legal { IsLegal self.new.opening self.new.history }
        ensures served { (request : Asked) → Adds self.old opener sync request result self.new }
    {
        let _served = self.history();
        match self.partition.pickup(opener, sync) {
            Pick::Pending => {
                self.partition.starve(opener, sync);
                Served::Starved
            }
            Pick::Starved => Served::Starved,
            Pick::Reply(_) => Served::Repeat,
            Pick::Passed => Served::Old,
        }
    }

    /// The bytes of the kept reply to a sync, from 1, of an opener from 1 to 8.
    pub fn find(&self, alloc: Global, opener: u32, sync: u64) -> Picked
        requires opener { Lies 1 8 opener }
        requires sync { 0 < sync }
        ensures legal { IsLegal self.now.opening self.now.history }
        ensures found { Finds self.now.history opener sync result }
        ensures due { IsThere (opener_in self.now opener) sync result }
    {
        let _served = self.history();
        match self.partition.pickup(opener, sync) {
            Pick::Reply(reply) => spell(alloc, reply),
            Pick::Pending => Picked::Pending,
            Pick::Passed => Picked::Passed,
            Pick::Starved => Picked::Starved,
        }
    }
}

// The opener and the sync of the envelope that a message spells.
fn address_of(message: &Message) -> (u32, u64)
    ensures { IsAddress message.now result.0 result.1 }
{
    let _spelling = message.bytes();
    address(message)
}

// The bytes of a reply.
fn spell(alloc: Global, reply: &Reply) -> Picked
    requires { IsReply reply.now }
    ensures { IsSpelling reply.now result }
{
    match encode_reply(alloc, reply) {
        Ok(bytes) => Picked::Reply(bytes),
        Err(_) => Picked::NoMemory,
    }
}
