//! What one thread makes of a script.

ghost use Rattle.std.specs.Prelude.{◌≡◌, ◌≤◌, ◌+◌, length, map, IfOk, OnOk};
ghost use Rattle.std.specs.List.{AllByRecursion};
ghost use Rattle.sql_base.specs.Scripts.{IsScript};
ghost use Rattle.sql_base.specs.Tables.{IsStatement, IsTable};
ghost use Rattle.one_thread.specs.Answer.{answer_text};
ghost use Rattle.one_thread.specs.Scaffold.Cells.{nows};
ghost use Rattle.one_thread.specs.Scaffold.Sessions.{next_stamp, HasRun, HaveRun};
ghost use Rattle.one_thread.specs.Scaffold.Worlds.{Settled};

use crate::loading::load;
use crate::printing::print_run;
use crate::shown::Shown;
use crate::transactions::run_work;
use crate::worlds::Records;
use sql_base::{List, NoMemory, Outcome, Row, Script, TableDef, Work};
use std::alloc::Global;

// The stamp that the next commit draws.
fn next_stamp(stamp: u64, outcome: &Outcome) -> u64
    requires { stamp ≤ 1000 }
    ensures { result ≡ next_stamp stamp outcome.now }
{
    match outcome {
        Outcome::Committed { .. } => stamp + 1,
        Outcome::RolledBack => stamp,
        Outcome::Aborted(_) => stamp,
    }
}

// Runs the transactions of a session, the first commit with this stamp, and gives the next stamp.
fn run_session(
    alloc: Global,
    tables: &[TableDef],
    world: &mut [Records],
    works: &[Work],
    session: u32,
    first_stamp: u64,
    shown: &mut Vec<Shown>,
) -> Result<u64, NoMemory>
    requires tables { AllByRecursion IsTable tables.now }
    requires statements { AllByRecursion (λ work. AllByRecursion (IsStatement tables.now) work.statements) works.now }
    requires settled { Settled tables.now world.now }
    requires stamps { first_stamp + length works.now ≤ 1001 }
    ensures { IfOk result (λ stamp. HasRun tables.now works.now session first_stamp world.old world.new shown.old.items shown.new.items stamp) }
{
    let mut stamp = first_stamp;
    for (i, work) in works.iter().enumerate() {
        let run = run_work(alloc, tables, world, work, stamp)?;
        stamp = next_stamp(stamp, &run.outcome);
        shown.push(Shown {
            session,
            ordinal: i as u32 + 1,
            outcome: run.outcome,
            given: run.given,
        })?;
    }
    Ok(stamp)
}

// Runs the sessions in number order.
fn run_sessions(
    alloc: Global,
    script: &Script,
    world: &mut [Records],
    shown: &mut Vec<Shown>,
) -> Result<(), NoMemory>
    requires script { IsScript script.now }
    requires settled { Settled script.now.tables world.now }
    ensures { OnOk result (HaveRun script.now world.old world.new shown.old.items shown.new.items) }
{
    let tables = script.tables.items();
    let mut stamp = 1;
    for (i, works) in script.sessions.items().iter().enumerate() {
        stamp = run_session(
            alloc,
            tables,
            world,
            works.items(),
            i as u32 + 1,
            stamp,
            shown,
        )?;
    }
    Ok(())
}

// The records of the tables.
fn rows_of(alloc: Global, world: &[Records]) -> Result<Vec<List<Row>>, NoMemory>
    ensures { IfOk result (λ rows. rows.items ≡ map nows world.now) }
{
    let mut rows = Vec::new(alloc);
    for records in world {
        rows.push(records.rows(alloc)?)?;
    }
    Ok(rows)
}

/// The text of one thread that runs the sessions of the script in number order, from its LOAD rows. Its commits have
/// the stamps 1, 2, 3 and so on.
pub fn answer(alloc: Global, script: &Script) -> Result<Vec<u8>, NoMemory>
    requires { IsScript script.now }
    ensures { IfOk result (λ bytes. bytes.items ≡ answer_text script.now) }
{
    let mut world = load(alloc, script)?;
    let mut shown = Vec::new(alloc);
    run_sessions(alloc, script, world.as_mut_slice(), &mut shown)?;
    let records = rows_of(alloc, world.as_slice())?;
    print_run(
        alloc,
        script.tables.items(),
        shown.as_slice(),
        records.as_slice(),
    )
}
