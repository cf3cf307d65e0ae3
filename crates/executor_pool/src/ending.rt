//! The record of a run whose jobs are done.
ghost use Rattle.std.specs.Prelude.{◌≡◌, ◌≤◌, length, map, IfOk, []};
ghost use Rattle.std.specs.List.{AllByRecursion, AllZip};
ghost use Rattle.partition_core.specs.Kept.{IsReplayed, rows_in};
ghost use Rattle.session_grammar.specs.UnderWay.{Awaiting};
ghost use Rattle.executor_pool.specs.Returning.{AreBack, IsKept, Run};

use crate::journals::SharedJournal;
use crate::processes::{Crew, DiskProcess};
use crate::returned::{Parts, Returned, close_all, take_apart};
use partition_core::Partition;
use partition_state::Entry;
use requester_fs::Requester;
use run_record::RunRecord;
use session_grammar::LogEntry;
use sql_base::{List, NoMemory, Row};
use std::alloc::Global;
use turn_lock::TurnLock;

/// What is kept of a run whose jobs handed this back.
pub fn record<Q: Requester>(
    alloc: Global,
    crew: Crew,
    processes: Vec<DiskProcess>,
    journal: TurnLock<SharedJournal>,
    returned: Returned<Q>,
) -> Result<RunRecord, NoMemory>
    requires { (run : Run Q) × (run.crew ≡ crew) × (run.journal ≡ journal) × AreBack Q.asking Q.single Q.allows run processes.items returned }
    ensures { IfOk result (λ kept. (run : Run Q) → run.crew ≡ crew → run.journal ≡ journal → AreBack Q.asking Q.single Q.allows run processes.items returned → IsKept Q.allows run kept) }
{
    let Returned { sessions, servers } = returned;
    let parts = parts_in(processes.as_slice());
    let Parts {
        columns,
        commits,
        requesters,
    } = take_apart(alloc, parts, sessions)?;
    let partitions = close_all(alloc, crew, processes, columns, servers)?;
    let journal = journal.close_with(commits).into_drawn();
    let is_few = journal.items().len() < usize::MAX;
    prove!(is_few);
    let rows = rows_of(alloc, partitions.as_slice())?;
    Ok(RunRecord {
        histories: histories_of(alloc, partitions)?,
        rows,
        journal,
        logs: logs_of(alloc, requesters)?,
        acts: List::new(alloc),
    })
}

/// How many partitions there are.
fn parts_in(processes: &[DiskProcess]) -> u32
    requires { length processes.now ≤ 16 }
    ensures { result ≡ length processes.now }
{
    processes.len() as u32
}

/// The rows of each partition.
fn rows_of(alloc: Global, partitions: &[Partition]) -> Result<List<List<Row>>, NoMemory>
    ensures { IfOk result (λ rows. rows ≡ map rows_in partitions.now) }
{
    let mut rows = List::new(alloc);
    for partition in partitions {
        rows.push(partition.rows(alloc)?)?;
    }
    Ok(rows)
}

/// The history of each partition.
fn histories_of(alloc: Global, partitions: Vec<Partition>) -> Result<List<List<Entry>>, NoMemory>
    ensures histories { IfOk result (λ histories. histories ≡ map (λ k. k.history) partitions.items) }
    ensures replayed { IfOk result (λ histories. AllByRecursion IsReplayed partitions.items) }
{
    let mut histories = List::new(alloc);
    for partition in partitions {
        histories.push(partition.into_history())?;
    }
    Ok(histories)
}

/// The log of each session.
fn logs_of<Q: Requester>(
    alloc: Global,
    requesters: Vec<Q>,
) -> Result<List<List<LogEntry>>, NoMemory>
    requires { AllByRecursion (λ q. (Q.asking q).way ≡ Awaiting []) requesters.items }
    ensures logs { IfOk result (λ logs. logs ≡ map (λ q. (Q.asking q).log) requesters.items) }
    ensures allowed { IfOk result (AllZip Q.allows requesters.items) }
{
    let mut logs = List::new(alloc);
    for requester in requesters {
        logs.push(requester.ended())?;
    }
    Ok(logs)
}
