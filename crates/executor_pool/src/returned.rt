//! What the jobs of a run hand back: the sessions, and all tokens, with which its partitions are closed.
ghost use Rattle.std.specs.Prelude.{◌≡◌, ◌++◌, ℕ, List, Ok, All, Contains, length, map, IfOk, OnOk};
ghost use Rattle.std.specs.List.{AllByRecursion, flat_map, range_with_len};
ghost use Rattle.mail_queue.specs.Gathering.{IsComplete, posted_by, taken_by};
ghost use Rattle.executor_pool.specs.Closing.{AreLeft, AreReady, IsClosed, IsReady, column, server_in, session_in};
ghost use Rattle.executor_pool.specs.Dealing.{Opened};
ghost use Rattle.executor_pool.specs.declared.jobs.Done.{Done as DoneJob};
ghost use Rattle.executor_pool.specs.declared.processes.Crew.{Crew as CrewSeen};

use crate::jobs::Done;
use crate::journals::SharedJournal;
use crate::processes::{Crew, DiskProcess, lengthen, no_tokens};
use crate::sessions::SessionJob;
use crate::tokens::{Server, Tokens};
use dp_messages::Message;
use mail_queue::{GatherFault, Mail, Poster, Taker, laws};
use partition_core::Partition;
use shared_partition::SpelledPartition;
use sql_base::NoMemory;
use std::alloc::Global;
use turn_lock::Pass;

/// All that the jobs handed back.
#[derive(Drop)]
pub struct Returned<Q> {
    /// In their order.
    pub sessions: Vec<SessionJob<Q>>,
    /// In the order of the partitions.
    pub servers: Vec<Server>,
}

/// What the jobs handed back, unless memory was short for one of them.
pub fn take_back<Q: Drop>(
    alloc: Global,
    ended: Vec<Result<Done<Q>, NoMemory>>,
) -> Result<Returned<Q>, NoMemory>
    ensures { IfOk result (λ returned. (dones : List (DoneJob Q)) × (ended.items ≡ map Ok dones) × (returned.sessions.items ≡ flat_map session_in dones) × (returned.servers.items ≡ flat_map server_in dones)) }
{
    let mut returned = Returned {
        sessions: Vec::new(alloc),
        servers: Vec::new(alloc),
    };
    for done in ended {
        take_one(&mut returned, done?)?;
    }
    Ok(returned)
}

/// Takes what one job handed back.
fn take_one<Q: Drop>(returned: &mut Returned<Q>, done: Done<Q>) -> Result<(), NoMemory>
    ensures sessions { OnOk result (returned.new.sessions.items ≡ returned.old.sessions.items ++ session_in done) }
    ensures servers { OnOk result (returned.new.servers.items ≡ returned.old.servers.items ++ server_in done) }
{
    match done {
        Done::Session(session) => returned.sessions.push(session)?,
        Done::Server(server) => returned.servers.push(server)?,
    }
    Ok(())
}

/// The sessions of a run, taken apart.
#[derive(Drop)]
pub struct Parts<Q> {
    /// Of each partition, the tokens of the sessions in their order.
    pub columns: Vec<Vec<Tokens>>,
    pub commits: Vec<Pass<SharedJournal>>,
    pub requesters: Vec<Q>,
}

/// Takes apart the sessions of a run with so many partitions.
pub fn take_apart<Q: Drop>(
    alloc: Global,
    parts: u32,
    sessions: Vec<SessionJob<Q>>,
) -> Result<Parts<Q>, NoMemory>
    requires { AllByRecursion (λ s. length s.tokens.items ≡ parts) sessions.items }
    ensures columns { IfOk result (λ made. map (λ list. list.items) made.columns.items ≡ map (column (map (λ s. s.tokens.items) sessions.items)) (range_with_len 0 parts)) }
    ensures commits { IfOk result (λ made. made.commits.items ≡ map (λ s. s.commits) sessions.items) }
    ensures requesters { IfOk result (λ made. made.requesters.items ≡ map (λ s. s.requester) sessions.items) }
{
    let mut columns = no_tokens(alloc, parts)?;
    let mut commits = Vec::new(alloc);
    let mut requesters = Vec::new(alloc);
    for session in sessions {
        let SessionJob {
            requester,
            tokens,
            commits: pass,
            ..
        } = session;
        columns = lengthen(alloc, columns, tokens)?;
        commits.push(pass)?;
        requesters.push(requester)?;
    }
    Ok(Parts {
        columns,
        commits,
        requesters,
    })
}

/// Ends the sharing of all partitions, to each of which the sessions and so many servers hand back their tokens.
pub fn close_all(
    alloc: Global,
    crew: Crew,
    processes: Vec<DiskProcess>,
    columns: Vec<Vec<Tokens>>,
    servers: Vec<Server>,
) -> Result<Vec<Partition>, NoMemory>
    requires { (opened : List Opened) × AreReady crew 0 opened processes.items (map (λ list. list.items) columns.items) servers.items }
    ensures { IfOk result (λ partitions. (opened : List Opened) → AreReady crew 0 opened processes.items (map (λ list. list.items) columns.items) servers.items
        → AreLeft opened (map (λ list. list.items) columns.items) partitions.items) }
{
    let mut partitions = Vec::new(alloc);
    let mut columns = columns.into_iter();
    let mut servers = servers;
    for process in processes {
        let later = servers.split_off(crew.servers as usize)?;
        partitions.push(close(alloc, process, columns.next().unwrap(), servers)?)?;
        servers = later;
    }
    Ok(partitions)
}

/// The passes to a partition, and the tokens of its mail.
#[derive(Drop)]
pub struct Rights {
    pub passes: Vec<Pass<SpelledPartition>>,
    pub posters: Vec<Poster<Message>>,
    pub takers: Vec<Taker<Message>>,
}

/// Ends the sharing of a partition, and the mail with it.
fn close(
    alloc: Global,
    process: DiskProcess,
    tokens: Vec<Tokens>,
    servers: Vec<Server>,
) -> Result<Partition, NoMemory>
    requires { (crew : CrewSeen) × (part : ℕ) × (o : Opened) × IsReady crew part o process tokens.items servers.items }
    ensures { IfOk result (λ partition. (crew : CrewSeen) (part : ℕ) (o : Opened) → IsReady crew part o process tokens.items servers.items → IsClosed o tokens.items servers.items partition) }
{
    let DiskProcess { partition, mail } = process;
    let rights = rights_of(alloc, tokens)?;
    let Rights {
        passes,
        posters,
        takers,
    } = with_servers(rights, servers)?;
    end_mail(alloc, mail, posters, takers)?;
    Ok(partition.close_with(passes))
}

fn rights_of(alloc: Global, tokens: Vec<Tokens>) -> Result<Rights, NoMemory>
    ensures passes { IfOk result (λ rights. rights.passes.items ≡ map (λ t. t.pass) tokens.items) }
    ensures posters { IfOk result (λ rights. rights.posters.items ≡ map (λ t. t.poster) tokens.items) }
    ensures takers { IfOk result (λ rights. rights.takers.items ≡ map (λ t. t.taker) tokens.items) }
{
    let mut passes = Vec::new(alloc);
    let mut posters = Vec::new(alloc);
    let mut takers = Vec::new(alloc);
    for own in tokens {
        passes.push(own.pass)?;
        posters.push(own.poster)?;
        takers.push(own.taker)?;
    }
    Ok(Rights {
        passes,
        posters,
        takers,
    })
}

fn with_servers(rights: Rights, servers: Vec<Server>) -> Result<Rights, NoMemory>
    ensures passes { IfOk result (λ all. all.passes.items ≡ rights.passes.items ++ map (λ s. s.pass) servers.items) }
    ensures posters { IfOk result (λ all. all.posters.items ≡ rights.posters.items) }
    ensures takers { IfOk result (λ all. all.takers.items ≡ rights.takers.items ++ map (λ s. s.taker) servers.items) }
{
    let Rights {
        passes,
        posters,
        takers,
    } = rights;
    let mut passes = passes;
    let mut takers = takers;
    for server in servers {
        passes.push(server.pass)?;
        takers.push(server.taker)?;
    }
    Ok(Rights {
        passes,
        posters,
        takers,
    })
}

fn end_mail(
    alloc: Global,
    mail: Mail<Message>,
    posters: Vec<Poster<Message>>,
    takers: Vec<Taker<Message>>,
) -> Result<(), NoMemory>
    requires posters { All (λ poster. poster.mail ≡ mail) posters.items }
    requires takers { All (λ taker. taker.mail ≡ mail) takers.items }
    requires complete { IsComplete mail posters.items takers.items }
    ensures { OnOk result (All (Contains (posted_by posters.items)) (taken_by takers.items)) }
{
    match laws::gathered(alloc, mail, posters, takers) {
        Ok(_) => Ok(()),
        Err(GatherFault::NoMemory) => Err(NoMemory),
        Err(GatherFault::Incomplete) => unreachable!(),
    }
}
