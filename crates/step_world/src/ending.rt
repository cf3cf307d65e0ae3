//! The record of a run that is over.
ghost use Rattle.std.specs.Prelude.{◌≡◌, ◌++◌, [], map, IfOk, OnOk};
ghost use Rattle.std.specs.List.{AllByRecursion, AllZip};
ghost use Rattle.partition_core.specs.Kept.{rows_in};
ghost use Rattle.session_grammar.specs.UnderWay.{Awaiting};
ghost use Rattle.step_world.specs.Runs.{with_rows};
ghost use Rattle.step_world.specs.Scaffold.Worlds.{scene};

use crate::processes::DiskProcess;
use crate::seats::Seat;
use crate::worlds::World;
use partition_state::Entry;
use requester_fs::Requester;
use run_record::RunRecord;
use session_grammar::LogEntry;
use sql_base::{List, NoMemory, Row};
use std::alloc::Global;

/// What is kept of a run in which all sessions have finished.
pub fn record<Q: Requester>(alloc: Global, world: World<Q>) -> Result<RunRecord, NoMemory>
    requires { AllByRecursion (λ s. (Q.asking s.requester).way ≡ Awaiting []) world.seats.items }
    ensures kept { IfOk result (λ kept. kept ≡ with_rows (scene Q.asking world)) }
    ensures allowed { IfOk result (λ kept. AllZip (λ s log. Q.allows s.requester log) world.seats.items kept.logs) }
{
    let World {
        seats,
        processes,
        journal,
        acts,
    } = world;
    let rows = rows_of(alloc, processes.as_slice())?;
    let histories = histories_of(alloc, processes)?;
    let logs = logs_of(alloc, seats)?;
    Ok(RunRecord {
        histories,
        rows,
        journal: journal.into_drawn(),
        logs,
        acts,
    })
}

/// The rows of each partition.
fn rows_of(alloc: Global, processes: &[DiskProcess]) -> Result<List<List<Row>>, NoMemory>
    ensures { IfOk result (λ rows. rows ≡ map (λ d. rows_in d.partition) processes.now) }
{
    let mut rows = List::new(alloc);
    for process in processes {
        rows.push(process.partition.rows(alloc)?)?;
    }
    Ok(rows)
}

/// The history of each partition.
fn histories_of(alloc: Global, processes: Vec<DiskProcess>) -> Result<List<List<Entry>>, NoMemory>
    ensures { IfOk result (λ histories. histories ≡ map (λ d. d.partition.history) processes.items) }
{
    let mut histories = List::new(alloc);
    for process in processes {
        histories.push(process.partition.into_history())?;
    }
    Ok(histories)
}

/// The log of each session.
fn logs_of<Q: Requester>(
    alloc: Global,
    seats: Vec<Seat<Q>>,
) -> Result<List<List<LogEntry>>, NoMemory>
    requires { AllByRecursion (λ s. (Q.asking s.requester).way ≡ Awaiting []) seats.items }
    ensures logs { IfOk result (λ logs. logs ≡ map (λ s. (Q.asking s.requester).log) seats.items) }
    ensures allowed { IfOk result (λ logs. AllZip (λ s log. Q.allows s.requester log) seats.items logs) }
{
    let mut logs = List::new(alloc);
    for seat in seats {
        logs.push(seat.requester.ended())?;
    }
    Ok(logs)
}
