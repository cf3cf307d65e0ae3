//! A session: what it asks next, and the log of what it was answered.
ghost use Rattle.std.specs.Prelude.{◌≡◌, ◌≤◌, ◌<◌, ◌+◌, ◌^◌, ℕ, List, [], ◌∷◌, ◌++◌, length, IsTrue, IfOk, OnOk, OnErr};
ghost use Rattle.sql_base.specs.Scripts.{IsScript, Lies, parts_of};
ghost use Rattle.dp_messages.specs.Spelling.{IsAsk};
ghost use Rattle.session_grammar.specs.Follows.{in_line, works_of};
ghost use Rattle.session_grammar.specs.Rows.{fits};
ghost use Rattle.session_grammar.specs.Sessions.{IsSessionOf, MayCome, entries_kept, fits_next, shown, sync_behind};
ghost use Rattle.session_grammar.specs.UnderWay.{Awaiting};
ghost use Rattle.session_grammar.specs.declared.logs.Answer.TheVariants as came;
ghost use Rattle.session_grammar.specs.declared.logs.LogEntry.{LogEntry as Entry};
ghost use Rattle.requester_fs.specs.Asking.{Advances, HasTaken, IsAsking, IsSame, IsSpelled, next_at, places_of, working};
ghost use Rattle.requester_fs.specs.Scaffold.Stages.{way_in};
ghost use Rattle.requester_fs.specs.Lasting.{answers_left};

use crate::requesters::Requester;
use crate::stages::{Stage, Stand};
use crate::walking::Planner;
use dp_messages::{Ask, Reply};
use session_grammar::{Action, Answer, LogEntry};
use sql_base::{List, NoMemory, Script, TableDef, TxnName, Work};
use std::alloc::Global;
use std::marker::Model;
use std::mem;

/// A session at work: it says what is to be done next, takes what came of it, and keeps its log.
#[derive(Debug, Drop)]
pub struct Session<'a> {
    alloc: Global,
    script: &'a Script,
    number: u32,
    /// How many partitions the tables have.
    parts: u32,
    stand: Option<Stand>,
    /// The sync of the next request.
    sync: u64,
    log: Vec<LogEntry>,
}

impl<'a> Model for Session<'a> {
    ghost use Rattle.std.specs.Coded.{codes};
    ghost use Rattle.sql_base.specs.contracts.expressions.Expr as expr;
    ghost use Rattle.requester_fs.specs.Asking.{Asking};

    ghost Value = { Asking };

    ghost coded = { Prim.hlevel (codes, expr.the_row.coded) };

    ghost use Rattle.requester_fs.specs.Scaffold.Stages.{way_of};
    ghost use Rattle.requester_fs.specs.Scaffold.Working.{IsWorking};

    ghost view = { λ s. record { script = s.script.now; number = s.number; log = s.log.items; way = way_of s.number s.sync s.stand } };

    ghost invariant = { λ s. IsWorking s.script.now s.number s.parts s.stand s.sync s.log.items };
}

impl<'a> Session<'a> {
    /// The session of this number at its beginning. Sessions count from 1.
    pub fn new(alloc: Global, script: &'a Script, number: u32) -> Result<Session<'a>, NoMemory>
        requires script { IsScript script.now }
        requires numbered { Lies 1 (length script.now.sessions) number }
        ensures script { IfOk result (λ session. session.script ≡ script.now) }
        ensures number { IfOk result (λ session. session.number ≡ number) }
        ensures begins { IfOk result (λ session. session.log ≡ []) }
        ensures asking { IfOk result (λ session. IsAsking session) }
        ensures one { IfOk result (λ session. places_of session.way ≡ 1) }
        ensures exact { IfOk result (λ session. IsSessionOf script.now number (working session)) }
    {
        let parts = parts_of(script.tables.items());
        let planner = Planner {
            alloc,
            script,
            parts,
        };
        let stand = planner.first(works_of(script, number), 0, 1)?;
        Ok(Session {
            alloc,
            script,
            number,
            parts,
            stand,
            sync: 1,
            log: Vec::new(alloc),
        })
    }

    /// What is to be done next.
    pub fn next(&self) -> Action<'_>
        ensures next { shown result ≡ next_at self.now.way 0 }
        ensures one { places_of self.now.way ≡ 1 }
        ensures exact { IsSessionOf self.now.script self.now.number (working self.now) }
    {
        match &self.stand {
            Some(stand) => action(stand, self.number, self.sync),
            None => Action::Finished,
        }
    }

    /// Takes what came of the next action, after so many losses. For want of memory the session stays as it was.
    pub fn take(&mut self, answer: Answer, losses: u32) -> Result<(), NoMemory>
        requires comes { MayCome (next_at self.old.way 0) answer losses }
        requires spelled { IsSpelled answer }
        ensures kept { OnOk result (self.new.log ≡ self.old.log ++ entries_kept (next_at self.old.way 0) answer losses) }
        ensures same { OnOk result (IsSame self.old self.new) }
        ensures taken { OnOk result (HasTaken self.old (next_at self.old.way 0) answer losses self.new) }
        ensures asking { OnOk result (IsAsking self.new) }
        ensures exact { OnOk result (IsSessionOf self.new.script self.new.number (working self.new)) }
        ensures fewer { OnOk result ((above : List ℕ → ℕ) (n : ℕ) → ((key : List ℕ) → above key ≤ n) → Advances above n (next_at self.old.way 0) answer → answers_left above n self.new < answers_left above n self.old) }
        ensures one_still { OnOk result (places_of self.new.way ≡ 1) }
        ensures err { OnErr result (self.new ≡ self.old) }
    {
        let Some(stand) = &self.stand else {
            unreachable!()
        };
        let planner = Planner {
            alloc: self.alloc,
            script: self.script,
            parts: self.parts,
        };
        let next = planner.after(works_of(self.script, self.number), stand, &answer)?;
        self.log.reserve(1)?;
        let Some(done) = mem::replace(&mut self.stand, next) else {
            unreachable!()
        };
        let kept = entry(done, self.number, self.sync, answer, losses);
        self.sync = sync_behind(self.sync, &kept);
        self.log.push_reserved(kept);
        Ok(())
    }

    /// Whether the next action is a Send to whose request this reply may come. It takes no memory.
    pub fn fits(&self, reply: &Reply) -> bool
        ensures exact { result ≡ fits_next (next_at self.now.way 0) reply.now }
        ensures may_come { IsTrue result → (losses : ℕ) → losses ≤ 3 → MayCome (next_at self.now.way 0) (came.Reply reply.now) losses }
    {
        match self.next() {
            Action::Send { request, .. } => fits_ask(&request.ask, reply),
            Action::Commit { .. } | Action::Finished => false,
        }
    }

    /// What was done so far, and what came of it.
    pub fn log(&self) -> &[LogEntry]
        ensures { result.now ≡ self.now.log }
    {
        self.log.as_slice()
    }

    /// The log, once the session isn't needed any more.
    pub fn into_log(self) -> List<LogEntry>
        ensures log { result ≡ self.entry.log }
        ensures whole { self.entry.way ≡ Awaiting [] → in_line self.entry.script self.entry.number result }
    {
        let Session { log, .. } = self;
        List::from_vec(log)
    }
}

/// How many partitions the tables have together.
fn parts_of(tables: &[TableDef]) -> u32
    requires { parts_of tables.now ≤ 16 }
    ensures { result ≡ parts_of tables.now }
{
    let mut parts = 0;
    for at in 0..tables.len() {
        parts += tables[at].firsts.items().len() as u32 + 1;
    }
    parts
}

/// The transactions of a session.
fn works_of(script: &Script, number: u32) -> &[Work]
    requires { Lies 1 (length script.now.sessions) number }
    ensures { result.now ≡ works_of script.now number }
{
    script.sessions.items()[number as usize - 1].items()
}

fn action(stand: &Stand, number: u32, sync: u64) -> Action<'_>
    ensures { shown result ≡ next_at (way_in number sync stand.now.ordinal stand.now.stage) 0 }
{
    match &stand.stage {
        Stage::Asks(turn) => Action::Send {
            part: turn.part,
            sync,
            request: &turn.request,
        },
        Stage::Prepares { part, request, .. } => Action::Send {
            part: *part,
            sync,
            request,
        },
        Stage::Stamps { floor } => Action::Commit {
            name: TxnName {
                session: number,
                ordinal: stand.ordinal,
            },
            floor: *floor,
        },
        Stage::Closes { part, request, .. } => Action::Send {
            part: *part,
            sync,
            request,
        },
    }
}

/// What the log keeps of an action that was done.
fn entry(stand: Stand, number: u32, sync: u64, answer: Answer, losses: u32) -> LogEntry
    ensures { result ∷ [] ≡ entries_kept (next_at (way_in number sync stand.ordinal stand.stage) 0) answer losses }
{
    let Stand { ordinal, stage, .. } = stand;
    match stage {
        Stage::Asks(turn) => LogEntry::Asked {
            part: turn.part,
            sync,
            request: turn.request,
            losses,
            answer,
        },
        Stage::Prepares { part, request, .. } => LogEntry::Asked {
            part,
            sync,
            request,
            losses,
            answer,
        },
        Stage::Stamps { floor } => LogEntry::Drew {
            name: TxnName {
                session: number,
                ordinal,
            },
            floor,
            answer,
        },
        Stage::Closes { part, request, .. } => LogEntry::Asked {
            part,
            sync,
            request,
            losses,
            answer,
        },
    }
}

/// The sync of the request after an entry.
fn sync_behind(sync: u64, entry: &LogEntry) -> u64
    requires { sync + 1 < 2 ^ 64 }
    ensures next { result ≡ sync_behind sync (entry.now ∷ []) }
{
    match entry {
        LogEntry::Asked { .. } => sync + 1,
        LogEntry::Drew { .. } => sync,
    }
}

/// Whether the reply may come to what was asked.
fn fits_ask(ask: &Ask, reply: &Reply) -> bool
    ensures { result ≡ fits ask.now reply.now }
{
    match ask {
        Ask::BeginRead { .. }
        | Ask::BeginUpdate { .. }
        | Ask::BeginDelete { .. }
        | Ask::Continue { .. } => matches!(
            reply,
            Reply::Ended { .. } | Reply::Redrive { .. } | Reply::Locked(_) | Reply::Failed { .. }
        ),
        Ask::ReadKey { .. } => matches!(
            reply,
            Reply::Row(_) | Reply::NoRow | Reply::Locked(_) | Reply::Failed { .. }
        ),
        Ask::Insert { .. } => matches!(
            reply,
            Reply::Done | Reply::Locked(_) | Reply::DuplicateKey { .. } | Reply::Failed { .. }
        ),
        Ask::LockGranule { .. } => matches!(reply, Reply::Done | Reply::Locked(_)),
        Ask::Prepare => matches!(reply, Reply::Floor(_)),
        Ask::EndCommit { .. } | Ask::EndUndo => matches!(reply, Reply::Done),
    }
}

impl<'a> Requester for Session<'a> {
    ghost use Rattle.session_grammar.specs.Follows.{in_line};
    ghost use Rattle.requester_fs.specs.Lasting.{answers_left};

    ghost asking = { λ s. s };

    ghost single = { λ _. Unit {0} };

    ghost allows = { λ s log. in_line s.script s.number log };

    ghost left = { λ s above n. answers_left above n s };

    fn places(&self) -> u32 {
        match self.next() {
            Action::Send { .. } | Action::Commit { .. } | Action::Finished => 1,
        }
    }

    fn at(&self, _place: u32) -> Action<'_> {
        self.next()
    }

    fn fits(&self, place: u32, reply: &Reply) -> bool {
        place < self.places() && Session::fits(self, reply)
    }

    fn answer(&mut self, place: u32, answer: Answer, losses: u32) -> Result<(), NoMemory> {
        if place >= self.places() {
            unreachable!()
        }
        self.take(answer, losses)
    }

    fn ended(self) -> List<LogEntry> {
        self.into_log()
    }
}
