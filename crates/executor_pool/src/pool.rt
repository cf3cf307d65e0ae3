//! The run of a script by threads.
ghost use Rattle.std.specs.Prelude.{◌≡◌, ◌≤◌, ◌<◌, ◌++◌, ℕ, All, length, map, slice_index_or, vec_len, IfOk, OnOk, []};
ghost use Rattle.std.specs.List.{AllByRecursion, AllZip, range_with_len};
ghost use Rattle.sql_base.specs.Scripts.{IsScript};
ghost use Rattle.run_record.specs.Legal.{Legal};
ghost use Rattle.turn_lock.specs.Pass.{new_pass};
ghost use Rattle.requester_fs.specs.Beginnings.{AreNew, EachAt};
ghost use Rattle.driver_laws.specs.Carrying.{AllCarried, Telling};
ghost use Rattle.executor_pool.specs.Doing.{IsBegun, IsDone, IsJob};
ghost use Rattle.executor_pool.specs.declared.jobs.Job.TheVariants as job;

use crate::ending::record;
use crate::jobs::{Done, Job, Shared, Ticket, work};
use crate::journals::SharedJournal;
use crate::processes::{Crew, Shares, share_all};
use crate::returned::take_back;
use crate::sessions::SessionJob;
use crate::tokens::{Server, Tokens};
use commit_journal::Journal;
use outside::{Gate, Wire};
use requester_fs::Requester;
use run_record::RunRecord;
use sql_base::{NoMemory, Script};
use std::alloc::Global;
use std::sync::atomic::AtomicU64;
use std::sync::{Arc, Wait};
use std::thread;
use std::thread::Threads;
use turn_lock::{Pass, TurnLock};

/// Runs the script by its requesters, one for each session, with a wire for each at least, in threads of its own: one
/// for each session, and as many for each partition as the script says. It may wait. Where no thread can be made, one
/// job is done after the other.
pub fn run_pool_with<R: Threads + Wait + Sync, Q: Requester + Send, G: Gate + Sync>(
    rt: &R,
    alloc: Global,
    script: &Script,
    requesters: Vec<Q>,
    gate: &G,
    wires: Vec<Box<dyn Wire + Send>>,
) -> Result<RunRecord, NoMemory>
    requires script { IsScript script.now }
    requires requesters { AreNew Q.asking script.now requesters.items }
    requires single { AllByRecursion Q.single requesters.items }
    requires wires { length requesters.items ≤ length wires.items }
    ensures legal { IfOk result (Legal script.now) }
    ensures carried { IfOk result (AllCarried (map {B = Telling} (λ w. record { first = first w; round = round w }) wires.items)) }
    ensures allowed { IfOk result (λ kept. AllZip Q.allows requesters.items kept.logs) }
    ensures no_acts { IfOk result (λ kept. kept.acts ≡ []) }
{
    let crew = crew_of(script);
    let Shares {
        processes,
        tokens,
        servers,
    } = share_all(rt, alloc, script, crew)?;
    let (journal, commits) = share_journal(rt, alloc, crew.sessions)?;
    let at_work = Arc::new(alloc, AtomicU64::new(crew.sessions as u64))?;
    let mut jobs = session_jobs(alloc, requesters, wires, tokens, commits, &at_work)?;
    add_servers(&mut jobs, servers)?;
    let shared = Shared {
        alloc,
        processes: &processes,
        journal: &journal,
        gate,
        at_work: &at_work,
    };
    let ended = do_all(rt, &shared, jobs)?;
    let returned = take_back(alloc, ended)?;
    record(alloc, crew, processes, journal, returned)
}

/// Who works in a run of the script.
fn crew_of(script: &Script) -> Crew
    requires { IsScript script.now }
    ensures sessions { result.sessions ≡ length script.now.sessions }
    ensures servers { result.servers ≡ script.now.limits.servers }
{
    Crew {
        sessions: script.sessions.items().len() as u32,
        servers: script.limits.servers,
    }
}

/// A journal in which nothing was drawn yet, and a pass to it for each session. It may wait.
fn share_journal<R: Wait>(
    rt: &R,
    alloc: Global,
    sessions: u32,
) -> Result<(TurnLock<SharedJournal>, Vec<Pass<SharedJournal>>), NoMemory>
    requires { 1 ≤ sessions }
    ensures lock { IfOk result (λ made. made.0.passes ≡ sessions) }
    ensures passes { IfOk result (λ made. made.1.items ≡ map (new_pass made.0 (tt {0})) (range_with_len 0 sessions)) }
{
    let journal = SharedJournal {
        journal: Journal::new(alloc),
    };
    match TurnLock::new(rt, alloc, journal, sessions) {
        Ok(made) => Ok(made),
        Err(_) => Err(NoMemory),
    }
}

/// The jobs of the sessions, in their order.
fn session_jobs<Q: Requester>(
    alloc: Global,
    requesters: Vec<Q>,
    wires: Vec<Box<dyn Wire + Send>>,
    tokens: Vec<Vec<Tokens>>,
    commits: Vec<Pass<SharedJournal>>,
    at_work: &Arc<AtomicU64, Global>,
) -> Result<Vec<Job<Q, Box<dyn Wire + Send>>>, NoMemory>
    requires sessions { length requesters.items ≤ 8 }
    requires wires { length requesters.items ≤ length wires.items }
    requires tokens { length tokens.items ≡ length requesters.items }
    requires commits { length commits.items ≡ length requesters.items }
    ensures begun { IfOk result (λ jobs. EachAt (IsBegun (λ w. record { first = first w; round = round w }) requesters.items
        (map {B = Telling} (λ w. record { first = first w; round = round w }) wires.items) (map (λ row. row.items) tokens.items) commits.items) jobs.items) }
    ensures many { IfOk result (λ jobs. length jobs.items ≡ length requesters.items) }
{
    let mut jobs = Vec::new(alloc);
    let mut wires = wires.into_iter();
    let mut tokens = tokens.into_iter();
    let mut commits = commits.into_iter();
    let mut number = 0;
    for requester in requesters {
        number += 1;
        let mut wire = wires.next().unwrap();
        start(&mut wire, number);
        let session = SessionJob {
            number,
            requester,
            losses: 0,
            tokens: tokens.next().unwrap(),
            commits: commits.next().unwrap(),
            stop: None,
        };
        let ticket = Ticket {
            at_work: Arc::try_clone(at_work)?,
        };
        jobs.push(Job::Session {
            session,
            wire,
            ticket,
        })?;
    }
    Ok(jobs)
}

fn start(wire: &mut Box<dyn Wire + Send>, number: u32)
    ensures first { first wire.new ≡ first wire.old }
    ensures round { round wire.new ≡ round wire.old }
{
    wire.start(number as u64);
}

/// Adds the jobs of the servers.
fn add_servers<Q: Drop>(
    jobs: &mut Vec<Job<Q, Box<dyn Wire + Send>>>,
    servers: Vec<Server>,
) -> Result<(), NoMemory>
    ensures { OnOk result (jobs.new.items ≡ jobs.old.items ++ map (λ s. job.Server s) servers.items) }
{
    for server in servers {
        jobs.push(Job::Server { server })?;
    }
    Ok(())
}

/// Does all jobs, each in a thread of its own where one can be made. It may wait.
fn do_all<R: Threads + Wait + Sync, Q: Requester + Send, G: Gate + Sync>(
    rt: &R,
    shared: &Shared<'_, G>,
    jobs: Vec<Job<Q, Box<dyn Wire + Send>>>,
) -> Result<Vec<Result<Done<Q>, NoMemory>>, NoMemory>
    requires { All (IsJob Q.asking Q.single shared.now.processes.now.items shared.now.journal.now) jobs.items }
    ensures len { IfOk result (λ ended. vec_len ended ≡ vec_len jobs) }
    ensures each { IfOk result (λ ended. (i : ℕ) (j : _) (r : _) → i < vec_len jobs
        → IfOk (slice_index_or ended.items i r) (IsDone Q.asking Q.single Q.allows (λ w. record { first = first w; round = round w }) shared.now.processes.now.items shared.now.journal.now (slice_index_or jobs.items i j))) }
{
    let each = |job: Job<Q, Box<dyn Wire + Send>>| -> Result<Done<Q>, NoMemory>
        requires { IsJob Q.asking Q.single shared.now.processes.now.items shared.now.journal.now job }
        ensures { IfOk result (IsDone Q.asking Q.single Q.allows (λ w. record { first = first w; round = round w }) shared.entry.now.processes.now.items shared.entry.now.journal.now job) }
    { work(rt, shared, job) };
    Ok(thread::map_vec(rt, jobs, &each)?)
}
