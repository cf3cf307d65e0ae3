//! The attempts of transactions, read from the log of their session.
ghost use Rattle.std.specs.Prelude.{◌≡◌, ◌≤◌, ◌+◌, ◌*◌, ◌++◌, ℕ, IfOk, OnOk, length};
ghost use Rattle.std.specs.List.{AllByRecursion};
ghost use Rattle.sql_base.specs.Scripts.{IsScript};
ghost use Rattle.sql_base.specs.Tables.{IsStatement};
ghost use Rattle.session_grammar.specs.Follows.{asker};
ghost use Rattle.record_text.specs.Scaffold.Reading.{behind_all, given_by, givens_read, sessions_read, shown_read, tries_read, works_read};

use crate::endings::{is_locked_out, outcome_of};
use crate::entries::own_length;
use crate::finished::givens;
use one_thread::Shown;
use session_grammar::LogEntry;
use sql_base::{Given, List, NoMemory, Outcome, Script, Statement, Work};
use std::alloc::Global;

// What the statements of an attempt gave; nothing is shown of one that was aborted.
fn given_by(
    alloc: Global,
    script: &Script,
    outcome: &Outcome,
    statements: &[Statement],
    own: &[LogEntry],
) -> Result<List<Given>, NoMemory>
    requires script { IsScript script.now }
    requires statements { AllByRecursion (IsStatement script.now.tables) statements.now }
    ensures { (session : ℕ) → IfOk result (λ given. given ≡ given_by outcome.now (givens_read (asker script.now session) statements.now own.now)) }
{
    match outcome {
        Outcome::Aborted(_) => Ok(List::new(alloc)),
        Outcome::Committed { .. } => givens(alloc, script.tables.items(), statements, own),
        Outcome::RolledBack => givens(alloc, script.tables.items(), statements, own),
    }
}

// The attempt of this ordinal, with these entries.
fn shown_attempt(
    alloc: Global,
    script: &Script,
    session: u32,
    ordinal: u32,
    work: &Work,
    own: &[LogEntry],
) -> Result<Shown, NoMemory>
    requires script { IsScript script.now }
    requires statements { AllByRecursion (IsStatement script.now.tables) work.now.statements }
    ensures { IfOk result (λ shown. shown ≡ shown_read (asker script.now session) ordinal work.now own.now) }
{
    let outcome = outcome_of(own)?;
    let given = given_by(alloc, script, &outcome, work.statements.items(), own)?;
    Ok(Shown {
        session,
        ordinal,
        outcome,
        given,
    })
}

// The attempts of a transaction, at most so many more behind the first, and how many they are.
fn push_tries(
    alloc: Global,
    script: &Script,
    session: u32,
    work: &Work,
    ordinal: u32,
    more: u32,
    log: &[LogEntry],
    shown: &mut List<Shown>,
) -> Result<u32, NoMemory>
    requires script { IsScript script.now }
    requires statements { AllByRecursion (IsStatement script.now.tables) work.now.statements }
    requires few { ordinal + more ≤ 2000 }
    ensures shown { OnOk result (shown.new ≡ shown.old ++ tries_read (asker script.now session) work.now ordinal more log.now) }
    ensures many { IfOk result (λ many. many ≡ length (tries_read (asker script.now session) work.now ordinal more log.now)) }
    ensures few { IfOk result (λ many. many ≤ more + 1) }
{
    let (own, behind) = log.split_at(own_length(ordinal, log));
    let attempt = shown_attempt(alloc, script, session, ordinal, work, own)?;
    let again = is_locked_out(&attempt.outcome);
    shown.push(attempt)?;
    if more == 0 {
        return Ok(1);
    }
    if !again {
        return Ok(1);
    }
    let others = push_tries(
        alloc,
        script,
        session,
        work,
        ordinal + 1,
        more - 1,
        behind,
        shown,
    )?;
    Ok(others + 1)
}

// The log behind so many attempts.
fn behind_all(ordinal: u32, many: u32, log: &[LogEntry]) -> &[LogEntry]
    requires few { ordinal + many ≤ 4000 }
    ensures { result.now ≡ behind_all ordinal many log.now }
{
    let mut rest = log;
    for place in 0..many {
        let (_, behind) = rest.split_at(own_length(ordinal + place, rest));
        rest = behind;
    }
    rest
}

// The attempts of a session.
fn push_session(
    alloc: Global,
    script: &Script,
    session: u32,
    works: &[Work],
    log: &[LogEntry],
    shown: &mut List<Shown>,
) -> Result<(), NoMemory>
    requires script { IsScript script.now }
    requires statements { AllByRecursion (λ work. AllByRecursion (IsStatement script.now.tables) work.statements) works.now }
    requires few { length works.now * (script.now.limits.restart + 1) ≤ 1000 }
    ensures { OnOk result (shown.new ≡ shown.old ++ works_read (asker script.now session) 1 works.now log.now) }
{
    let restart = script.limits.restart;
    let mut rest = log;
    let mut ordinal = 1;
    for work in works {
        let many = push_tries(alloc, script, session, work, ordinal, restart, rest, shown)?;
        rest = behind_all(ordinal, many, rest);
        ordinal += many;
    }
    Ok(())
}

/// The attempts of all sessions, read from their logs.
pub(crate) fn sessions_read(
    alloc: Global,
    script: &Script,
    logs: &[List<LogEntry>],
) -> Result<List<Shown>, NoMemory>
    requires script { IsScript script.now }
    requires logs { length logs.now ≡ length script.now.sessions }
    ensures { IfOk result (λ shown. shown ≡ sessions_read script.now 1 script.now.sessions logs.now) }
{
    let mut shown = List::new(alloc);
    for (place, works) in script.sessions.items().iter().enumerate() {
        push_session(
            alloc,
            script,
            place as u32 + 1,
            works.items(),
            logs[place].items(),
            &mut shown,
        )?;
    }
    Ok(shown)
}
