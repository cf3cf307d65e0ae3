//! The process of a partition, which serves what lies in its mail.
ghost use Rattle.std.specs.Prelude.{◌≡◌, ◌≢◌, ◌<◌, ◌++◌, ◌∷◌, [], map, Some, OnOk, IfOk};
ghost use Rattle.sql_base.specs.Scripts.{Lies};
ghost use Rattle.dp_messages.specs.Spelling.{IsEnvelope, request_bytes};
ghost use Rattle.partition_core.specs.Kept.{opener_in};
ghost use Rattle.step_world.specs.Scaffold.Openings.{new_process};
ghost use Rattle.step_world.specs.Scaffold.Mails.{CanReply, Handles, TakesOldest, copies_of};

use dp_messages::{Envelope, Message, Reply, Request, decode_request, encode_request};
use outside::Passage;
use partition_core::{Partition, Pick, Served};
use sql_base::NoMemory;
use std::alloc::Global;
use std::collections::LinkedList;

/// A partition, and the messages that were posted to it and not yet served, the oldest first.
#[derive(Drop)]
pub struct DiskProcess {
    pub partition: Partition,
    pub mail: LinkedList<Message>,
}

/// The sender of a message and the sync that tells its requests apart.
#[derive(Clone, Copy, Debug, PartialEq, Eq)]
pub struct Sender {
    pub opener: u32,
    pub sync: u64,
}

/// The process of each partition, with nothing in its mail.
pub fn processes_of(alloc: Global, partitions: Vec<Partition>) -> Result<Vec<DiskProcess>, NoMemory>
    ensures { IfOk result (λ processes. processes.items ≡ map new_process partitions.items) }
{
    let mut processes = Vec::new(alloc);
    for partition in partitions {
        processes.push(DiskProcess {
            partition,
            mail: LinkedList::new(alloc),
        })?;
    }
    Ok(processes)
}

impl DiskProcess {
    /// Puts as many copies of a message into the mail as its path carries.
    pub fn post(
        &mut self,
        alloc: Global,
        envelope: Envelope,
        passage: Passage,
    ) -> Result<(), NoMemory>
        requires { IsEnvelope envelope }
        ensures mail { OnOk result (self.new.mail ≡ self.old.mail ++ copies_of passage (request_bytes envelope)) }
        ensures partition { self.new.partition ≡ self.old.partition }
    {
        self.post_copies(alloc, &envelope, passage)
    }

    fn post_copies(
        &mut self,
        alloc: Global,
        envelope: &Envelope,
        passage: Passage,
    ) -> Result<(), NoMemory>
        requires { IsEnvelope envelope.now }
        ensures mail { OnOk result (self.new.mail ≡ self.old.mail ++ copies_of passage (request_bytes envelope.now)) }
        ensures partition { self.new.partition ≡ self.old.partition }
    {
        match passage {
            Passage::LoseRequest => Ok(()),
            Passage::Carry | Passage::LoseReply => self.post_one(alloc, envelope),
            Passage::Repeat => {
                self.post_one(alloc, envelope)?;
                self.post_one(alloc, envelope)
            }
        }
    }

    fn post_one(&mut self, alloc: Global, envelope: &Envelope) -> Result<(), NoMemory>
        requires { IsEnvelope envelope.now }
        ensures mail { OnOk result (self.new.mail ≡ self.old.mail ++ request_bytes envelope.now ∷ []) }
        ensures partition { self.new.partition ≡ self.old.partition }
    {
        let message = encode_request(alloc, envelope)?;
        self.mail.push_back(message)?;
        Ok(())
    }

    /// Serves the oldest message of the mail.
    pub fn serve_oldest(&mut self, alloc: Global) -> Result<Sender, NoMemory>
        requires { self.old.mail ≢ [] }
        ensures { IfOk result (TakesOldest self.old self.new) }
    {
        let Some(message) = self.mail.pop_front() else {
            unreachable!()
        };
        let envelope = decode_request(alloc, &message)?;
        let Envelope {
            opener,
            sync,
            request,
        } = envelope;
        self.serve(alloc, opener, sync, &request)?;
        Ok(Sender { opener, sync })
    }

    /// Serves a request. Where its sync isn't above the opener's last, it was served before.
    pub fn serve(
        &mut self,
        alloc: Global,
        opener: u32,
        sync: u64,
        request: &Request,
    ) -> Result<(), NoMemory>
        requires { Lies 1 8 opener }
        ensures handled { OnOk result (Handles self.old.partition opener sync request.now self.new.partition) }
        ensures mail { self.new.mail ≡ self.old.mail }
    {
        match self.partition.serve(alloc, opener, sync, request) {
            Served::New | Served::Repeat | Served::Old => Ok(()),
            Served::Starved => Err(NoMemory),
        }
    }

    /// Serves a request, unless it was served before, and gives a copy of its reply.
    pub fn serve_and_reply(&mut self, alloc: Global, envelope: Envelope) -> Result<Reply, NoMemory>
        requires opener { Lies 1 8 envelope.opener }
        requires sync { 0 < envelope.sync }
        requires last { CanReply self.old.partition envelope.opener envelope.sync }
        ensures handled { OnOk result (Handles self.old.partition envelope.opener envelope.sync envelope.request self.new.partition) }
        ensures reply { IfOk result (λ reply. (opener_in self.new.partition envelope.opener).kept ≡ Some reply) }
        ensures mail { self.new.mail ≡ self.old.mail }
    {
        let Envelope {
            opener,
            sync,
            request,
        } = envelope;
        self.serve(alloc, opener, sync, &request)?;
        self.reply(opener, sync)
    }

    /// A copy of the reply that is kept of an opener's last request, which has this sync.
    pub fn reply(&self, opener: u32, sync: u64) -> Result<Reply, NoMemory>
        requires opener { Lies 1 8 opener }
        requires sync { 0 < sync }
        requires last { (opener_in self.now.partition opener).last ≡ sync }
        ensures { IfOk result (λ reply. (opener_in self.now.partition opener).kept ≡ Some reply) }
    {
        match self.partition.pickup(opener, sync) {
            Pick::Reply(reply) => copy_of(reply),
            Pick::Starved => Err(NoMemory),
            Pick::Pending | Pick::Passed => unreachable!(),
        }
    }
}

fn copy_of(reply: &Reply) -> Result<Reply, NoMemory>
    ensures { IfOk result (λ copy. copy ≡ reply.now) }
{
    Ok(reply.clone()?)
}
