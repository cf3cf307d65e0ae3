//! What the job of a session does with the request under way.
ghost use Rattle.std.specs.Prelude.{◌≡◌, ◌<◌, ◌++◌, ◌∷◌, [], List, length, replicate, IfOk, OnOk, None, true, false};
ghost use Rattle.outside.specs.Wire.{is_loss};
ghost use Rattle.sql_base.specs.declared.scripts.Script.{Script};
ghost use Rattle.turn_lock.specs.Pass.{LockId};
ghost use Rattle.session_grammar.specs.Rows.{is_end};
ghost use Rattle.session_grammar.specs.Sessions.{MayCome};
ghost use Rattle.session_grammar.specs.declared.logs.Answer.TheVariants.{PathFailed};
ghost use Rattle.executor_pool.specs.Sessions.{ChangesTokens, Goes, GoesOut, HearsAt, IsAwaited, IsHeard, IsLost, IsOut, IsSending, IsSession, TellsOn, carried_now, next_of, seen, turn_of};
ghost use Rattle.requester_fs.specs.Beginnings.{IsLater};
ghost use Rattle.executor_pool.specs.declared.processes.DiskProcess.{DiskProcess};
ghost use Rattle.executor_pool.specs.declared.sessions.Turn.{Turn};

use crate::jobs::Shared;
use crate::sessions::{MOST_LOSSES, SessionJob, Stop};
use crate::tokens::Heard;
use dp_messages::{Ask, Envelope, Reply, Request, encode_request};
use outside::{Gate, Passage};
use requester_fs::Requester;
use session_grammar::{Action, Answer};
use sql_base::NoMemory;
use std::sync::Wait;
use std::thread;

/// A request on its way to a partition.
#[derive(Drop)]
pub struct Outgoing {
    pub part: u32,
    pub envelope: Envelope,
    /// Whether it ends a transaction.
    pub is_end: bool,
}

impl<Q: Requester> SessionJob<Q> {
    /// Gives the request to its path, of which this becomes. Where the path carries it, its reply is waited for.
    pub(crate) fn send<R: Wait, G: Gate>(
        &mut self,
        rt: &R,
        shared: &Shared<'_, G>,
        passage: Passage,
    ) -> Result<(), NoMemory>
        requires session { (script : Script) × IsSession script shared.now.processes.now.items shared.now.journal.now (seen Q.asking self.old) }
        requires going { self.old.stop ≡ None }
        requires single { Q.single self.old.requester }
        requires turn { turn_of (seen Q.asking self.old) ≡ Turn.Send }
        ensures goes { OnOk result (Goes shared.now.processes.now.items shared.now.journal.now (seen Q.asking self.old) (seen Q.asking self.new)) }
        ensures later { OnOk result (IsLater Q.single Q.allows self.old.requester self.new.requester) }
        ensures told { OnOk result (TellsOn (replicate self.old.losses true ++ is_loss passage ∷ []) (seen Q.asking self.old) (seen Q.asking self.new)) }
    {
        let Outgoing {
            part,
            envelope,
            is_end,
        } = self.outgoing()?;
        self.post(rt, shared, part, &envelope, passage)?;
        if is_loss(passage) {
            self.note_loss(is_end)
        } else {
            self.await_reply(rt, shared, part, envelope.sync)
        }
    }

    /// Serves the End under way, and takes its reply.
    pub(crate) fn serve_by_hand<R: Wait, G: Gate>(
        &mut self,
        rt: &R,
        shared: &Shared<'_, G>,
    ) -> Result<(), NoMemory>
        requires session { (script : Script) × IsSession script shared.now.processes.now.items shared.now.journal.now (seen Q.asking self.old) }
        requires going { self.old.stop ≡ None }
        requires single { Q.single self.old.requester }
        requires turn { turn_of (seen Q.asking self.old) ≡ Turn.ServeByHand }
        ensures goes { OnOk result (Goes shared.now.processes.now.items shared.now.journal.now (seen Q.asking self.old) (seen Q.asking self.new)) }
        ensures later { OnOk result (IsLater Q.single Q.allows self.old.requester self.new.requester) }
        ensures told { OnOk result (TellsOn (replicate self.old.losses true) (seen Q.asking self.old) (seen Q.asking self.new)) }
    {
        let Outgoing { part, envelope, .. } = self.outgoing()?;
        self.hand_in(rt, shared, part, &envelope);
        self.await_reply(rt, shared, part, envelope.sync)
    }

    /// Serves a request of its own, which came in no message.
    fn hand_in<R: Wait, G: Gate>(
        &mut self,
        rt: &R,
        shared: &Shared<'_, G>,
        part: u32,
        envelope: &Envelope,
    )
        requires session { (script : Script) × IsSession script shared.now.processes.now.items shared.now.journal.now (seen Q.asking self.old) }
        requires out { GoesOut (seen Q.asking self.old) part envelope.now }
        ensures goes { Goes shared.now.processes.now.items shared.now.journal.now (seen Q.asking self.old) (seen Q.asking self.new) }
        ensures rest { ChangesTokens self.old self.new }
    {
        let process = &shared.processes[part as usize];
        self.tokens[part as usize].serve_by_hand(
            rt,
            shared.alloc,
            process,
            envelope.opener,
            envelope.sync,
            &envelope.request,
        );
    }

    /// The request under way.
    fn outgoing(&self) -> Result<Outgoing, NoMemory>
        requires { IsSending (next_of (seen Q.asking self.now)) }
        ensures { IfOk result (IsOut (seen Q.asking self.now)) }
    {
        match self.requester.at(0) {
            Action::Send {
                part,
                sync,
                request,
            } => Ok(Outgoing {
                part,
                envelope: Envelope {
                    opener: self.number,
                    sync,
                    request: copy_of(request)?,
                },
                is_end: is_end(&request.ask),
            }),
            Action::Commit { .. } | Action::Finished => unreachable!(),
        }
    }

    /// Posts as many copies of a request as its path carries.
    fn post<R: Wait, G: Gate>(
        &mut self,
        rt: &R,
        shared: &Shared<'_, G>,
        part: u32,
        envelope: &Envelope,
        passage: Passage,
    ) -> Result<(), NoMemory>
        requires session { (script : Script) × IsSession script shared.now.processes.now.items shared.now.journal.now (seen Q.asking self.old) }
        requires out { GoesOut (seen Q.asking self.old) part envelope.now }
        ensures goes { OnOk result (Goes shared.now.processes.now.items shared.now.journal.now (seen Q.asking self.old) (seen Q.asking self.new)) }
        ensures rest { OnOk result (ChangesTokens self.old self.new) }
    {
        match passage {
            Passage::LoseRequest => Ok(()),
            Passage::Carry | Passage::LoseReply => self.post_one(rt, shared, part, envelope),
            Passage::Repeat => {
                self.post_one(rt, shared, part, envelope)?;
                self.post_one(rt, shared, part, envelope)
            }
        }
    }

    /// Posts a request into the mail of its partition.
    fn post_one<R: Wait, G: Gate>(
        &mut self,
        rt: &R,
        shared: &Shared<'_, G>,
        part: u32,
        envelope: &Envelope,
    ) -> Result<(), NoMemory>
        requires session { (script : Script) × IsSession script shared.now.processes.now.items shared.now.journal.now (seen Q.asking self.old) }
        requires out { GoesOut (seen Q.asking self.old) part envelope.now }
        ensures goes { OnOk result (Goes shared.now.processes.now.items shared.now.journal.now (seen Q.asking self.old) (seen Q.asking self.new)) }
        ensures rest { OnOk result (ChangesTokens self.old self.new) }
    {
        let message = encode_request(shared.alloc, envelope)?;
        let process = &shared.processes[part as usize];
        self.tokens[part as usize].post(rt, shared.alloc, process, message);
        Ok(())
    }

    /// Notes that the path lost the request: with the fourth loss it has failed, unless it is an End.
    fn note_loss(&mut self, is_end: bool) -> Result<(), NoMemory>
        requires few { self.old.losses < 4 }
        requires fails { is_end ≡ false → MayCome (next_of (seen Q.asking self.old)) PathFailed 4 }
        requires single { Q.single self.old.requester }
        ensures lost { OnOk result (IsLost is_end (seen Q.asking self.old) (seen Q.asking self.new)) }
        ensures later { OnOk result (IsLater Q.single Q.allows self.old.requester self.new.requester) }
    {
        self.losses += 1;
        if self.losses < MOST_LOSSES || is_end {
            return Ok(());
        }
        self.take(Answer::PathFailed)
    }

    /// Waits for the reply to the request under way, and takes it. The session serves the partition's mail meanwhile.
    fn await_reply<R: Wait, G: Gate>(
        &mut self,
        rt: &R,
        shared: &Shared<'_, G>,
        part: u32,
        sync: u64,
    ) -> Result<(), NoMemory>
        requires session { (script : Script) × IsSession script shared.now.processes.now.items shared.now.journal.now (seen Q.asking self.old) }
        requires awaits { IsAwaited (seen Q.asking self.old) part sync }
        requires going { self.old.stop ≡ None }
        requires single { Q.single self.old.requester }
        ensures goes { OnOk result (Goes shared.now.processes.now.items shared.now.journal.now (seen Q.asking self.old) (seen Q.asking self.new)) }
        ensures later { OnOk result (IsLater Q.single Q.allows self.old.requester self.new.requester) }
        ensures told { OnOk result (TellsOn (replicate self.old.losses true ++ carried_now self.old.losses) (seen Q.asking self.old) (seen Q.asking self.new)) }
    {
        for _ in rt.forever() {
            match self.hear(rt, shared, part, sync)? {
                Heard::Reply(reply) => return self.take_reply(reply),
                Heard::Passed => {
                    self.stop = Some(Stop::Passed);
                    return Ok(());
                }
                Heard::Nothing => self.serve_one(rt, shared, part),
            }
        }
        unreachable!()
    }

    /// Looks for the reply to a sync.
    fn hear<R: Wait, G: Gate>(
        &mut self,
        rt: &R,
        shared: &Shared<'_, G>,
        part: u32,
        sync: u64,
    ) -> Result<Heard, NoMemory>
        requires session { (script : Script) × IsSession script shared.now.processes.now.items shared.now.journal.now (seen Q.asking self.old) }
        requires awaits { IsAwaited (seen Q.asking self.old) part sync }
        ensures goes { Goes shared.now.processes.now.items shared.now.journal.now (seen Q.asking self.old) (seen Q.asking self.new) }
        ensures rest { ChangesTokens self.old self.new }
        ensures heard { IfOk result (HearsAt self.new.tokens.items part self.old.number sync) }
    {
        let process = &shared.processes[part as usize];
        self.tokens[part as usize].hear(rt, shared.alloc, process, self.number, sync)
    }

    /// Serves a message of the partition's mail, if there is one.
    fn serve_one<R: Wait, G: Gate>(&mut self, rt: &R, shared: &Shared<'_, G>, part: u32)
        requires session { (script : Script) × IsSession script shared.now.processes.now.items shared.now.journal.now (seen Q.asking self.old) }
        requires part { part < length self.old.tokens.items }
        ensures goes { Goes shared.now.processes.now.items shared.now.journal.now (seen Q.asking self.old) (seen Q.asking self.new) }
        ensures rest { ChangesTokens self.old self.new }
    {
        let process = &shared.processes[part as usize];
        if !self.tokens[part as usize].serve_one(rt, shared.alloc, process, shared.gate, part) {
            thread::yield_now();
        }
    }

    /// Takes a reply to the request under way, if it fits.
    fn take_reply(&mut self, reply: Reply) -> Result<(), NoMemory>
        requires session { (script : Script) × (processes : List DiskProcess) × (journal : LockId) × IsSession script processes journal (seen Q.asking self.old) }
        requires heard { IsHeard (seen Q.asking self.old) reply }
        requires going { self.old.stop ≡ None }
        requires single { Q.single self.old.requester }
        ensures goes { OnOk result ((processes : List DiskProcess) (journal : LockId) → Goes processes journal (seen Q.asking self.old) (seen Q.asking self.new)) }
        ensures later { OnOk result (IsLater Q.single Q.allows self.old.requester self.new.requester) }
        ensures told { OnOk result (TellsOn (replicate self.old.losses true ++ carried_now self.old.losses) (seen Q.asking self.old) (seen Q.asking self.new)) }
    {
        if !self.requester.fits(0, &reply) {
            self.stop = Some(Stop::Misfit);
            return Ok(());
        }
        self.take(Answer::Reply(reply))
    }
}

fn copy_of(request: &Request) -> Result<Request, NoMemory>
    ensures { IfOk result (λ copy. copy ≡ request.now) }
{
    Ok(request.clone()?)
}

fn is_end(ask: &Ask) -> bool
    ensures { result ≡ is_end ask.now }
{
    matches!(ask, Ask::EndCommit { .. } | Ask::EndUndo)
}

/// Whether a message or its reply is lost.
fn is_loss(passage: Passage) -> bool
    ensures { result ≡ is_loss passage }
{
    match passage {
        Passage::LoseRequest | Passage::LoseReply => true,
        Passage::Carry | Passage::Repeat => false,
    }
}
