//! From a statement to the next that asks anything, and from a transaction to the next that does.
ghost use Rattle.std.specs.Prelude.{◌≡◌, ◌≤◌, ◌<◌, ◌^◌, ◌+◌, ℕ, List, [], length, drop, slice_get, IfOk, IfSome, true};
ghost use Rattle.sql_base.specs.declared.statements.Statement.{Statement as AnyStatement};
ghost use Rattle.dp_messages.specs.Spelling.{IsAsk};
ghost use Rattle.session_grammar.specs.Follows.{asker};
ghost use Rattle.session_grammar.specs.declared.plans.Sent.{Sent as AnySent};
ghost use Rattle.session_laws.specs.Scaffold.Machine.{Place, Trying, are_subsets, behind, closing, statements_at, undone, works_at};
ghost use Rattle.session_grammar.specs.Plans.{sents_of};
ghost use Rattle.requester_fs.specs.declared.stages.Stage.TheVariants as stage;
ghost use Rattle.requester_fs.specs.Scaffold.Stages.{AreSuited, AreWorks, IsPlanner, MayBeStage, Stands, out_of, placed, plan_at};

use crate::closings::in_order;
use crate::stages::{Stage, Stand, Turn, closes, prepares};
use dp_messages::{Ask, Request};
use session_grammar::{Plan, Sent};
use sql_base::{List, NoMemory, Script, Statement, Work};
use statement_plans::plan;
use std::alloc::Global;

/// What the statements of a script are planned with.
#[derive(Drop)]
pub(crate) struct Planner<'a> {
    pub alloc: Global,
    pub script: &'a Script,
    /// How many partitions the tables have.
    pub parts: u32,
}

/// A request of a statement, if it asks so many, and whether the statement asks subsets.
#[derive(Drop)]
pub(crate) struct Planned {
    pub subset: bool,
    pub sent: Option<Sent>,
}

/// The request at a place.
fn taken(sents: List<Sent>, place: usize) -> Option<Sent>
    ensures sent { result ≡ slice_get sents place }
    ensures room { IfSome result (λ (_ : AnySent). place + 1 < 2 ^ 64) }
{
    let mut items = sents.into_vec();
    if place >= items.len() {
        return None;
    }
    Some(items.swap_remove(place))
}

impl<'a> Planner<'a> {
    /// What the statement at a place asks as its request at another.
    pub(crate) fn sent_at(
        &self,
        statements: &[Statement],
        statement: usize,
        sent: usize,
    ) -> Result<Planned, NoMemory>
        requires planner { IsPlanner self.now }
        requires there { statement < length statements.now }
        requires suit { AreSuited self.now.script.now statements.now }
        ensures subset { IfOk result (λ planned. (number : ℕ) → planned.subset ≡ are_subsets (plan_at (asker self.now.script.now number) statements.now statement)) }
        ensures sent { IfOk result (λ planned. (number : ℕ) → planned.sent ≡ slice_get (sents_of (plan_at (asker self.now.script.now number) statements.now statement)) sent) }
        ensures spelled { IfOk result (λ planned. IfSome planned.sent (λ (s : AnySent). IsAsk s.ask)) }
        ensures room { IfOk result (λ planned. IfSome planned.sent (λ (_ : AnySent). sent + 1 < 2 ^ 64)) }
    {
        match plan(
            self.alloc,
            self.script.tables.items(),
            &statements[statement],
        )? {
            Plan::Subsets(sents) => Ok(Planned {
                subset: true,
                sent: taken(sents, sent),
            }),
            Plan::Singles(sents) => Ok(Planned {
                subset: false,
                sent: taken(sents, sent),
            }),
        }
    }

    /// What the statements ask first from this one on, or none where they ask nothing.
    pub(crate) fn walk(
        &self,
        ordinal: u32,
        statements: &[Statement],
        from: usize,
    ) -> Result<Option<Stage>, NoMemory>
        requires planner { IsPlanner self.now }
        requires from { from ≤ length statements.now }
        requires suit { AreSuited self.now.script.now statements.now }
        ensures stage { IfOk result (MayBeStage ordinal statements.now) }
        ensures placed { IfOk result (λ stage. (number : ℕ) (t : Trying) (seen : List ℕ) (next : Place) → out_of (asker self.now.script.now number) t seen statements.now next stage ≡ statements_at (asker self.now.script.now number) t seen (drop from statements.now) next) }
    {
        for statement in from..statements.len() {
            let Planned { subset, sent } = self.sent_at(statements, statement, 0)?;
            if let Some(sent) = sent {
                return Ok(Some(self.turn(ordinal, statement, 0, subset, sent)));
            }
        }
        Ok(None)
    }

    /// A request is open, as often again after Locked as the limit says.
    pub(crate) fn turn(
        &self,
        ordinal: u32,
        statement: usize,
        place: usize,
        subset: bool,
        sent: Sent,
    ) -> Stage
        ensures { result ≡ stage.Asks (record { statement = statement; sent = place; subset = subset; part = sent.part; request = record { ordinal = ordinal; ask = sent.ask }; repeats = self.now.script.now.limits.patience }) }
    {
        Stage::Asks(Turn {
            statement,
            sent: place,
            subset,
            part: sent.part,
            request: Request {
                ordinal,
                ask: sent.ask,
            },
            repeats: self.script.limits.patience,
        })
    }

    /// What ends the attempt once its statements are done, or none where it has sent nothing and rolls back.
    pub(crate) fn close(
        &self,
        ordinal: u32,
        seen: &[u32],
        commit: bool,
    ) -> Result<Option<Stage>, NoMemory>
        requires { IsPlanner self.now }
        ensures stage { IfOk result (λ stage. (statements : List AnyStatement) → MayBeStage ordinal statements stage) }
        ensures placed { IfOk result (λ stage. (number : ℕ) (t : Trying) (statements : List AnyStatement) (next : Place) → placed (asker self.now.script.now number) t seen.now statements next stage ≡ closing (asker self.now.script.now number) t seen.now commit next) }
    {
        let parts = in_order(self.alloc, self.parts, seen)?;
        if commit {
            let stage = prepares(self.alloc, ordinal, parts.items(), 0)?;
            return Ok(Some(stage));
        }
        let stage = closes(self.alloc, ordinal, Ask::EndUndo, parts.items(), false)?;
        Ok(stage)
    }

    /// What undoes the attempt, or none where it has sent nothing.
    pub(crate) fn undo(
        &self,
        ordinal: u32,
        seen: &[u32],
        locked: bool,
    ) -> Result<Option<Stage>, NoMemory>
        requires { IsPlanner self.now }
        ensures stage { IfOk result (λ stage. (statements : List AnyStatement) → MayBeStage ordinal statements stage) }
        ensures placed { IfOk result (λ stage. (number : ℕ) (t : Trying) (statements : List AnyStatement) → placed (asker self.now.script.now number) t seen.now statements (behind (asker self.now.script.now number) t locked) stage ≡ undone (asker self.now.script.now number) t seen.now locked) }
    {
        let parts = in_order(self.alloc, self.parts, seen)?;
        let stage = closes(self.alloc, ordinal, Ask::EndUndo, parts.items(), locked)?;
        Ok(stage)
    }

    /// What an attempt of the transaction does first, or none where it does nothing.
    pub(crate) fn begin(&self, ordinal: u32, work: &Work) -> Result<Option<Stage>, NoMemory>
        requires planner { IsPlanner self.now }
        requires suit { AreSuited self.now.script.now work.now.statements }
        ensures stage { IfOk result (MayBeStage ordinal work.now.statements) }
        ensures placed { IfOk result (λ stage. (number : ℕ) (t : Trying) (next : Place) → t.work ≡ work.now → placed (asker self.now.script.now number) t [] work.now.statements next stage ≡ statements_at (asker self.now.script.now number) t [] work.now.statements next) }
    {
        match self.walk(ordinal, work.statements.items(), 0)? {
            Some(stage) => Ok(Some(stage)),
            None => {
                let stage = self.close(ordinal, &[], work.commit)?;
                Ok(stage)
            }
        }
    }

    /// Where the transactions begin from this one on, or none where nothing is to be done.
    pub(crate) fn first(
        &self,
        works: &[Work],
        from: usize,
        ordinal: u32,
    ) -> Result<Option<Stand>, NoMemory>
        requires planner { IsPlanner self.now }
        requires from { from ≤ length works.now }
        requires suit { AreWorks self.now.script.now works.now }
        requires first { 1 ≤ ordinal }
        requires ordinals { ordinal + length works.now < 2 ^ 32 + from }
        ensures { IfOk result (Stands self.now.script.now works.now (λ r. works_at r ordinal (drop from works.now))) }
    {
        let mut next = ordinal;
        for work in from..works.len() {
            if let Some(stage) = self.begin(next, &works[work])? {
                return Ok(Some(Stand {
                    work,
                    ordinal: next,
                    restarts: self.script.limits.restart,
                    seen: List::new(self.alloc),
                    stage,
                }));
            }
            next += 1;
        }
        Ok(None)
    }
}
