//! A transaction in one thread.

ghost use Rattle.std.specs.Prelude.{◌≡◌, if◌then◌else◌, IfOk};
ghost use Rattle.std.specs.List.{AllByRecursion};
ghost use Rattle.sql_base.specs.Tables.{IsStatement, IsTable};
ghost use Rattle.one_thread.specs.Scaffold.Runs.{RunsWork};
ghost use Rattle.one_thread.specs.Scaffold.Worlds.{Settled};

use crate::worlds::{Records, end_world, run_one};
use sql_base::{Given, List, NoMemory, Outcome, TableDef, Work};
use std::alloc::Global;

/// How a transaction ended, and what its statements gave.
#[derive(Debug, Drop)]
pub struct Run {
    pub outcome: Outcome,
    pub given: List<Given>,
}

fn ended_as(commit: bool, stamp: u64) -> Outcome
    ensures { result ≡ if commit then Outcome.Committed stamp else Outcome.RolledBack }
{
    if commit {
        Outcome::Committed { stamp }
    } else {
        Outcome::RolledBack
    }
}

/// Runs a transaction. Its commit draws the stamp; otherwise the records are as before.
pub fn run_work(
    alloc: Global,
    tables: &[TableDef],
    world: &mut [Records],
    work: &Work,
    stamp: u64,
) -> Result<Run, NoMemory>
    requires tables { AllByRecursion IsTable tables.now }
    requires statements { AllByRecursion (IsStatement tables.now) work.now.statements }
    requires settled { Settled tables.now world.now }
    ensures { IfOk result (λ run. RunsWork tables.now work.now stamp world.old world.new run) }
{
    let mut given = List::new(alloc);
    for statement in work.statements.items() {
        match run_one(alloc, tables, statement, world)? {
            Ok(item) => given.push(item)?,
            Err(abort) => {
                end_world(world, false);
                let outcome = Outcome::Aborted(abort);
                let given = List::new(alloc);
                return Ok(Run { outcome, given });
            }
        }
    }
    end_world(world, work.commit);
    let outcome = ended_as(work.commit, stamp);
    Ok(Run { outcome, given })
}
