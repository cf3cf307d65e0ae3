//! The rights that jobs have at the partitions, and what they do by them.
ghost use Rattle.std.specs.Prelude.{◌≡◌, ◌<◌, IfOk};
ghost use Rattle.sql_base.specs.Scripts.{Lies};
ghost use Rattle.dp_messages.specs.Spelling.{IsEnvelope};
ghost use Rattle.executor_pool.specs.Jobs.{IsOwnMessage, KeepsMail};
ghost use Rattle.executor_pool.specs.Tokens.{AreOf, AsksNothing, HasAskedAs, Hears, IsSameServer, Leaves, Serves};

use crate::processes::DiskProcess;
use dp_messages::{BytesFault, Message, Reply, Request, decode_reply};
use mail_queue::{Poster, Taker};
use outside::Gate;
use shared_partition::{Picked, SpelledPartition};
use sql_base::NoMemory;
use std::alloc::Global;
use std::sync::Wait;
use turn_lock::Pass;

/// What a session may do at a partition: take its turn, post into its mail, and take from it.
#[derive(Drop)]
pub struct Tokens {
    pub pass: Pass<SpelledPartition>,
    pub poster: Poster<Message>,
    pub taker: Taker<Message>,
}

/// What a server may do at its partition: take its turn, and take from its mail.
#[derive(Drop)]
pub struct Server {
    /// The number of the partition.
    pub part: u32,
    pub pass: Pass<SpelledPartition>,
    pub taker: Taker<Message>,
}

/// What a session heard that looked for a reply.
#[derive(Drop)]
pub enum Heard {
    Reply(Reply),
    /// None is there yet.
    Nothing,
    /// A later request of the session was served.
    Passed,
}

impl Tokens {
    /// Posts a message. Where the mail is full, its request is served at once. It may wait.
    pub fn post<R: Wait>(&mut self, rt: &R, alloc: Global, process: &DiskProcess, message: Message)
        requires { AreOf process.now self.old }
        ensures { Leaves (λ a part. IsOwnMessage a part message) self.old self.new }
    {
        if let Err(message) = process.mail.post(rt, &mut self.poster, message) {
            process
                .partition
                .serve_by_hand(rt, alloc, &mut self.pass, &message);
        }
    }

    /// Takes a message from the mail and serves its request, if there is one. It may wait.
    pub fn serve_one<R: Wait, G: Gate>(
        &mut self,
        rt: &R,
        alloc: Global,
        process: &DiskProcess,
        gate: &G,
        part: u32,
    ) -> bool
        requires { AreOf process.now self.old }
        ensures { Leaves AsksNothing self.old self.new }
    {
        let served = process.partition.serve_one(
            rt,
            alloc,
            &mut self.pass,
            &process.mail,
            &mut self.taker,
            gate,
            part,
        );
        served.is_some()
    }

    /// Serves a request that came in no message. It may wait.
    pub fn serve_by_hand<R: Wait>(
        &mut self,
        rt: &R,
        alloc: Global,
        process: &DiskProcess,
        opener: u32,
        sync: u64,
        request: &Request,
    )
        requires tokens { AreOf process.now self.old }
        requires spelled { IsEnvelope (record { opener = opener; sync = sync; request = request.now }) }
        ensures { Leaves (HasAskedAs opener sync request.now) self.old self.new }
    {
        process
            .partition
            .end_by_hand(rt, alloc, &mut self.pass, opener, sync, request);
    }

    /// Looks for the reply to a sync. It may wait.
    pub fn hear<R: Wait>(
        &mut self,
        rt: &R,
        alloc: Global,
        process: &DiskProcess,
        opener: u32,
        sync: u64,
    ) -> Result<Heard, NoMemory>
        requires tokens { AreOf process.now self.old }
        requires opener { Lies 1 8 opener }
        requires sync { 0 < sync }
        ensures left { Leaves AsksNothing self.old self.new }
        ensures heard { IfOk result (Hears self.new.pass.seen opener sync) }
    {
        match process
            .partition
            .pickup(rt, alloc, &mut self.pass, opener, sync)
        {
            Picked::Reply(bytes) => match decode_reply(alloc, bytes.as_slice()) {
                Ok(reply) => Ok(Heard::Reply(reply)),
                Err(BytesFault::NoMemory) => Err(NoMemory),
                Err(BytesFault::Malformed) => unreachable!(),
            },
            Picked::Pending => Ok(Heard::Nothing),
            Picked::Passed => Ok(Heard::Passed),
            Picked::Starved | Picked::NoMemory => Err(NoMemory),
        }
    }
}

impl Server {
    /// Takes a message from the mail and serves its request, if there is one. It may wait.
    pub fn serve_one<R: Wait, G: Gate>(
        &mut self,
        rt: &R,
        alloc: Global,
        process: &DiskProcess,
        gate: &G,
    ) -> bool
        requires { Serves process.now self.old }
        ensures same { IsSameServer self.old self.new }
        ensures keeps { KeepsMail self.old → KeepsMail self.new }
    {
        let served = process.partition.serve_one(
            rt,
            alloc,
            &mut self.pass,
            &process.mail,
            &mut self.taker,
            gate,
            self.part,
        );
        served.is_some()
    }
}
