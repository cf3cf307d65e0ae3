//! Where an answer leads.
ghost use Rattle.std.specs.Prelude.{◌≡◌, ◌≤◌, ◌<◌, ℕ, List, Some, None, length, drop, true, false, IfOk};
ghost use Rattle.dp_messages.specs.Spelling.{IsReply, IsShort};
ghost use Rattle.dp_messages.specs.declared.requests.Ask.TheVariants as ask;
ghost use Rattle.dp_messages.specs.declared.replies.Reply.TheVariants as reply;
ghost use Rattle.session_grammar.specs.Plans.{Asker};
ghost use Rattle.session_grammar.specs.declared.logs.Answer.TheVariants as came;
ghost use Rattle.session_laws.specs.Scaffold.Machine.{Trying, after, after_ask, after_prepare, after_reply, after_stamp, behind, next, redriven, repeated, retried, see, statements_at, undone, went_on};
ghost use Rattle.requester_fs.specs.Asking.{IsSpelled};
ghost use Rattle.requester_fs.specs.Scaffold.Stages.{IsIn, IsStage, MayBeStage, Stands, placed, sents_behind, statements_behind, statements_of, stood, trying_of};
ghost use Rattle.requester_fs.specs.declared.stages.Stage.TheVariants as stage;

use crate::closings::{in_order, see};
use crate::stages::{Stage, Stand, Turn, closes, parts_copy, prepares, request_copy};
use crate::walking::{Planned, Planner};
use dp_messages::{Ask, Reply, Request};
use session_grammar::Answer;
use sql_base::{Key, List, NoMemory, Work};

impl<'a> Planner<'a> {
    /// Where the answer to what is open leads. Ordinals stay below 2^32.
    pub(crate) fn after(
        &self,
        works: &[Work],
        stand: &Stand,
        answer: &Answer,
    ) -> Result<Option<Stand>, NoMemory>
        requires stand { IsIn self.now works.now stand.now }
        requires stage { IsStage stand.now.ordinal (statements_of works.now stand.now) stand.now.stage }
        requires spelled { IsSpelled answer.now }
        ensures { IfOk result (Stands self.now.script.now works.now (λ r. after r (stood r works.now stand.now) answer.now)) }
    {
        match &stand.stage {
            Stage::Asks(turn) => self.after_ask(works, stand, turn, answer),
            Stage::Prepares { parts, floor, .. } => {
                self.after_prepare(works, stand, parts, *floor, answer)
            }
            Stage::Stamps { .. } => self.after_stamp(works, stand, answer),
            Stage::Closes {
                request,
                parts,
                locked,
                ..
            } => {
                let ask = request_copy(request)?.ask;
                let stage = closes(self.alloc, stand.ordinal, ask, parts.items(), *locked)?;
                let seen = parts_copy(self.alloc, stand.seen.items())?;
                self.closed(works, stand, seen, stage, *locked)
            }
        }
    }

    fn after_ask(
        &self,
        works: &[Work],
        stand: &Stand,
        turn: &Turn,
        answer: &Answer,
    ) -> Result<Option<Stand>, NoMemory>
        requires stand { IsIn self.now works.now stand.now }
        requires turn { IsStage stand.now.ordinal (statements_of works.now stand.now) (stage.Asks turn.now) }
        requires spelled { IsSpelled answer.now }
        ensures { IfOk result (Stands self.now.script.now works.now (λ r. after_ask r (trying_of works.now stand.now) (see turn.now.part stand.now.seen) turn.now.subset turn.now.part turn.now.request.ask turn.now.repeats (sents_behind r (statements_of works.now stand.now) turn.now) (statements_behind (statements_of works.now stand.now) turn.now) answer.now)) }
    {
        let seen = see(self.alloc, turn.part, stand.seen.items())?;
        match answer {
            Answer::Reply(reply) => self.after_reply(works, stand, turn, seen, reply),
            Answer::PathFailed => self.undone(works, stand, seen, false),
            Answer::Stamp(_) => self.went_on(works, stand, turn, seen),
        }
    }

    fn after_reply(
        &self,
        works: &[Work],
        stand: &Stand,
        turn: &Turn,
        seen: List<u32>,
        reply: &Reply,
    ) -> Result<Option<Stand>, NoMemory>
        requires stand { IsIn self.now works.now stand.now }
        requires turn { IsStage stand.now.ordinal (statements_of works.now stand.now) (stage.Asks turn.now) }
        requires spelled { IsReply reply.now }
        ensures { IfOk result (Stands self.now.script.now works.now (λ r. after_reply r (trying_of works.now stand.now) seen turn.now.subset turn.now.part turn.now.request.ask turn.now.repeats (sents_behind r (statements_of works.now stand.now) turn.now) (statements_behind (statements_of works.now stand.now) turn.now) reply.now)) }
    {
        match reply {
            Reply::Redrive { subset, last, .. } => {
                if turn.subset {
                    return self.redriven(works, stand, turn, seen, *subset, last);
                }
                self.went_on(works, stand, turn, seen)
            }
            Reply::Locked(_) => self.repeated(works, stand, turn, seen),
            Reply::Failed { .. } => self.undone(works, stand, seen, false),
            Reply::DuplicateKey { .. } => self.undone(works, stand, seen, false),
            _ => self.went_on(works, stand, turn, seen),
        }
    }

    /// The subset goes on behind the last key.
    fn redriven(
        &self,
        works: &[Work],
        stand: &Stand,
        turn: &Turn,
        seen: List<u32>,
        subset: u32,
        last: &Key,
    ) -> Result<Option<Stand>, NoMemory>
        requires stand { IsIn self.now works.now stand.now }
        requires turn { IsStage stand.now.ordinal (statements_of works.now stand.now) (stage.Asks turn.now) }
        requires short { IsShort last.now }
        ensures { IfOk result (Stands self.now.script.now works.now (λ r. redriven r (trying_of works.now stand.now) seen true turn.now.part (ask.Continue subset last.now) (sents_behind r (statements_of works.now stand.now) turn.now) (statements_behind (statements_of works.now stand.now) turn.now))) }
    {
        let last = key_copy(last)?;
        let stage = Stage::Asks(Turn {
            statement: turn.statement,
            sent: turn.sent,
            subset: true,
            part: turn.part,
            request: Request {
                ordinal: stand.ordinal,
                ask: Ask::Continue { subset, last },
            },
            repeats: self.script.limits.patience,
        });
        Ok(stand.at(seen, stage))
    }

    /// The same request goes out again, or the attempt fails.
    fn repeated(
        &self,
        works: &[Work],
        stand: &Stand,
        turn: &Turn,
        seen: List<u32>,
    ) -> Result<Option<Stand>, NoMemory>
        requires stand { IsIn self.now works.now stand.now }
        requires turn { IsStage stand.now.ordinal (statements_of works.now stand.now) (stage.Asks turn.now) }
        ensures { IfOk result (Stands self.now.script.now works.now (λ r. repeated r (trying_of works.now stand.now) seen turn.now.subset turn.now.part turn.now.request.ask turn.now.repeats (sents_behind r (statements_of works.now stand.now) turn.now) (statements_behind (statements_of works.now stand.now) turn.now))) }
    {
        if turn.repeats == 0 {
            return self.undone(works, stand, seen, true);
        }
        let stage = Stage::Asks(Turn {
            statement: turn.statement,
            sent: turn.sent,
            subset: turn.subset,
            part: turn.part,
            request: request_copy(&turn.request)?,
            repeats: turn.repeats - 1,
        });
        Ok(stand.at(seen, stage))
    }

    /// The next request of the statement, or what is behind that.
    fn went_on(
        &self,
        works: &[Work],
        stand: &Stand,
        turn: &Turn,
        seen: List<u32>,
    ) -> Result<Option<Stand>, NoMemory>
        requires stand { IsIn self.now works.now stand.now }
        requires turn { IsStage stand.now.ordinal (statements_of works.now stand.now) (stage.Asks turn.now) }
        ensures { IfOk result (Stands self.now.script.now works.now (λ r. went_on r (trying_of works.now stand.now) seen turn.now.subset (sents_behind r (statements_of works.now stand.now) turn.now) (statements_behind (statements_of works.now stand.now) turn.now))) }
    {
        let statements = works[stand.work].statements.items();
        let place = turn.sent + 1;
        let Planned { sent, .. } = self.sent_at(statements, turn.statement, place)?;
        match sent {
            Some(sent) => {
                let stage = self.turn(stand.ordinal, turn.statement, place, turn.subset, sent);
                Ok(stand.at(seen, stage))
            }
            None => self.next_statement(works, stand, turn.statement + 1, seen),
        }
    }

    /// The statements from one on, and the end of the attempt behind them.
    fn next_statement(
        &self,
        works: &[Work],
        stand: &Stand,
        from: usize,
        seen: List<u32>,
    ) -> Result<Option<Stand>, NoMemory>
        requires stand { IsIn self.now works.now stand.now }
        requires from { from ≤ length (statements_of works.now stand.now) }
        ensures { IfOk result (Stands self.now.script.now works.now (λ r. statements_at r (trying_of works.now stand.now) seen (drop from (statements_of works.now stand.now)) (next r (trying_of works.now stand.now)))) }
    {
        let work = &works[stand.work];
        match self.walk(stand.ordinal, work.statements.items(), from)? {
            Some(stage) => Ok(stand.at(seen, stage)),
            None => {
                let stage = self.close(stand.ordinal, seen.items(), work.commit)?;
                self.closed(works, stand, seen, stage, false)
            }
        }
    }

    fn after_prepare(
        &self,
        works: &[Work],
        stand: &Stand,
        parts: &List<u32>,
        floor: u64,
        answer: &Answer,
    ) -> Result<Option<Stand>, NoMemory>
        requires stand { IsIn self.now works.now stand.now }
        ensures { IfOk result (Stands self.now.script.now works.now (λ r. after_prepare r (trying_of works.now stand.now) stand.now.seen parts.now floor answer.now)) }
    {
        let seen = parts_copy(self.alloc, stand.seen.items())?;
        match floor_in(answer) {
            Some(own) => {
                let greatest = floor.max(own);
                let stage = prepares(self.alloc, stand.ordinal, parts.items(), greatest)?;
                Ok(stand.at(seen, stage))
            }
            None => self.undone(works, stand, seen, false),
        }
    }

    fn after_stamp(
        &self,
        works: &[Work],
        stand: &Stand,
        answer: &Answer,
    ) -> Result<Option<Stand>, NoMemory>
        requires stand { IsIn self.now works.now stand.now }
        ensures { IfOk result (Stands self.now.script.now works.now (λ r. after_stamp r (trying_of works.now stand.now) stand.now.seen answer.now)) }
    {
        let seen = parts_copy(self.alloc, stand.seen.items())?;
        match answer {
            Answer::Stamp(stamp) => {
                let parts = in_order(self.alloc, self.parts, seen.items())?;
                let ask = Ask::EndCommit { stamp: *stamp };
                let stage = closes(self.alloc, stand.ordinal, ask, parts.items(), false)?;
                self.closed(works, stand, seen, stage, false)
            }
            _ => self.undone(works, stand, seen, false),
        }
    }

    fn undone(
        &self,
        works: &[Work],
        stand: &Stand,
        seen: List<u32>,
        locked: bool,
    ) -> Result<Option<Stand>, NoMemory>
        requires stand { IsIn self.now works.now stand.now }
        ensures { IfOk result (Stands self.now.script.now works.now (λ r. undone r (trying_of works.now stand.now) seen locked)) }
    {
        let stage = self.undo(stand.ordinal, seen.items(), locked)?;
        self.closed(works, stand, seen, stage, locked)
    }

    /// At this stage, or behind the attempt.
    fn closed(
        &self,
        works: &[Work],
        stand: &Stand,
        seen: List<u32>,
        stage: Option<Stage>,
        locked: bool,
    ) -> Result<Option<Stand>, NoMemory>
        requires stand { IsIn self.now works.now stand.now }
        requires stage { MayBeStage stand.now.ordinal (statements_of works.now stand.now) stage }
        ensures { IfOk result (Stands self.now.script.now works.now (λ r. placed r (trying_of works.now stand.now) seen (statements_of works.now stand.now) (behind r (trying_of works.now stand.now) locked) stage)) }
    {
        match stage {
            Some(stage) => Ok(stand.at(seen, stage)),
            None => self.behind(works, stand, locked),
        }
    }

    /// Behind an attempt that failed by a lock, or ended otherwise.
    fn behind(&self, works: &[Work], stand: &Stand, locked: bool) -> Result<Option<Stand>, NoMemory>
        requires stand { IsIn self.now works.now stand.now }
        ensures { IfOk result (Stands self.now.script.now works.now (λ r. behind r (trying_of works.now stand.now) locked)) }
    {
        if locked && stand.restarts > 0 {
            return self.retried(works, stand);
        }
        self.first(works, stand.work + 1, stand.ordinal + 1)
    }

    /// The transaction is tried again.
    fn retried(&self, works: &[Work], stand: &Stand) -> Result<Option<Stand>, NoMemory>
        requires stand { IsIn self.now works.now stand.now }
        requires some { 0 < stand.now.restarts }
        ensures { IfOk result (Stands self.now.script.now works.now (λ r. retried r (trying_of works.now stand.now) stand.now.restarts)) }
    {
        let ordinal = stand.ordinal + 1;
        match self.begin(ordinal, &works[stand.work])? {
            Some(stage) => Ok(Some(Stand {
                work: stand.work,
                ordinal,
                restarts: stand.restarts - 1,
                seen: List::new(self.alloc),
                stage,
            })),
            None => self.first(works, stand.work + 1, ordinal + 1),
        }
    }
}

fn key_copy(key: &Key) -> Result<Key, NoMemory>
    ensures { IfOk result (λ copy. copy ≡ key.now) }
{
    Ok(key.clone()?)
}

/// The floor that a partition replied.
fn floor_in(answer: &Answer) -> Option<u64>
    ensures some { (floor : ℕ) → result ≡ Some floor → answer.now ≡ came.Reply (reply.Floor floor) }
    ensures none { result ≡ None → (r : Asker) (t : Trying) (seen : List ℕ) (parts : List ℕ) (floor : ℕ) → undone r t seen false ≡ after_prepare r t seen parts floor answer.now }
{
    match answer {
        Answer::Reply(reply) => match reply {
            Reply::Floor(floor) => Some(*floor),
            _ => None,
        },
        _ => None,
    }
}
