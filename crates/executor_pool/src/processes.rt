//! The partitions of a run, as its threads share them.
ghost use Rattle.std.specs.Prelude.{◌≡◌, ◌+◌, ◌<◌, ◌++◌, ◌∷◌, [], List, length, map, replicate, IfOk, OnOk};
ghost use Rattle.std.specs.List.{range_with_len};
ghost use Rattle.sql_base.specs.Scripts.{IsScript, Lies};
ghost use Rattle.partition_core.specs.Kept.{opened_with};
ghost use Rattle.run_record.specs.Openings.{openings};
ghost use Rattle.mail_queue.specs.Tokens.{new_poster, new_taker};
ghost use Rattle.shared_partition.specs.Spelled.{IsOpening};
ghost use Rattle.executor_pool.specs.Dealing.{AreShared, IsMadeFor, Opened, bundled, lengthened, manned, servers_at, session_tokens};

use crate::tokens::{Server, Tokens};
use dp_messages::Message;
use mail_queue::{Mail, Poster, Taker};
use partition_core::Partition;
use partition_openings::open;
use shared_partition::{SharedPartition, SpelledPartition};
use sql_base::{NoMemory, Script};
use std::alloc::Global;
use std::sync::Wait;
use turn_lock::Pass;

/// A partition, and the mail in which requests to it are posted.
#[derive(Drop)]
pub struct DiskProcess {
    pub partition: SharedPartition,
    pub mail: Mail<Message>,
}

/// How many sessions a run has, and how many servers each of its partitions.
#[derive(Clone, Copy, Debug, PartialEq, Eq)]
pub struct Crew {
    pub sessions: u32,
    pub servers: u32,
}

/// The partitions of a run, and the tokens to them.
#[derive(Drop)]
pub struct Shares {
    /// In their order.
    pub processes: Vec<DiskProcess>,
    /// Of each session, in the order of the partitions.
    pub tokens: Vec<Vec<Tokens>>,
    /// In the order of the partitions.
    pub servers: Vec<Server>,
}

/// All partitions with the LOAD rows of the script, and the tokens to each. It may wait.
pub fn share_all<R: Wait>(
    rt: &R,
    alloc: Global,
    script: &Script,
    crew: Crew,
) -> Result<Shares, NoMemory>
    requires script { IsScript script.now }
    requires sessions { Lies 1 8 crew.sessions }
    requires servers { crew.servers < 5 }
    ensures { IfOk result (λ shares. (opened : List Opened) × (map (λ o. o.opening) opened ≡ openings script.now) × AreShared crew opened shares) }
{
    let mut shares = Shares {
        processes: Vec::new(alloc),
        tokens: no_tokens(alloc, crew.sessions)?,
        servers: Vec::new(alloc),
    };
    let mut part = 0;
    for partition in open(alloc, script)? {
        shares = share_one(rt, alloc, shares, partition, part, crew)?;
        part += 1;
    }
    Ok(shares)
}

/// So many lists with nothing in them.
pub fn no_tokens(alloc: Global, sessions: u32) -> Result<Vec<Vec<Tokens>>, NoMemory>
    ensures { IfOk result (λ rows. map (λ row. row.items) rows.items ≡ map (λ n. []) (range_with_len 0 sessions)) }
{
    let mut rows = Vec::new(alloc);
    for _ in 0..sessions {
        rows.push(Vec::new(alloc))?;
    }
    Ok(rows)
}

/// The shares with one partition more, which has this number.
fn share_one<R: Wait>(
    rt: &R,
    alloc: Global,
    shares: Shares,
    partition: Partition,
    part: u32,
    crew: Crew,
) -> Result<Shares, NoMemory>
    requires opening { IsOpening partition.opening }
    requires fresh { partition ≡ opened_with partition.opening }
    requires sessions { Lies 1 8 crew.sessions }
    requires servers { crew.servers < 5 }
    requires so_far { (opened : List Opened) × (length opened ≡ part) × AreShared crew opened shares }
    ensures { IfOk result (λ made. (o : Opened) × (o.opening ≡ partition.opening) × ((opened : List Opened) → length opened ≡ part → AreShared crew opened shares → AreShared crew (opened ++ o ∷ []) made)) }
{
    let Shares {
        processes,
        tokens,
        servers,
    } = shares;
    let mut processes = processes;
    let mut servers = servers;
    let (process, own, rest) = share(rt, alloc, partition, part, crew)?;
    let mut rest = rest;
    processes.push(process)?;
    servers.append(&mut rest)?;
    Ok(Shares {
        processes,
        tokens: lengthen(alloc, tokens, own)?,
        servers,
    })
}

/// A partition as it is shared, with the tokens of the sessions and with its servers.
fn share<R: Wait>(
    rt: &R,
    alloc: Global,
    partition: Partition,
    part: u32,
    crew: Crew,
) -> Result<(DiskProcess, Vec<Tokens>, Vec<Server>), NoMemory>
    requires opening { IsOpening partition.opening }
    requires fresh { partition ≡ opened_with partition.opening }
    requires sessions { Lies 1 8 crew.sessions }
    requires servers { crew.servers < 5 }
    ensures { IfOk result (λ made. (o : Opened) × (o.opening ≡ partition.opening) × (made.0 ≡ o.process) × IsMadeFor crew o
        × (made.1.items ≡ session_tokens crew o) × (made.2.items ≡ servers_at crew part o)) }
{
    let total = crew.sessions + crew.servers;
    let (partition, passes) = SharedPartition::new(rt, alloc, partition, total)?;
    let (mail, posters, takers) = new_mail(alloc, crew.sessions, total)?;
    let mut passes = passes;
    let mut takers = takers;
    let later_passes = passes.split_off(crew.sessions as usize)?;
    let later_takers = takers.split_off(crew.sessions as usize)?;
    let tokens = deal_tokens(alloc, passes, posters, takers)?;
    let servers = deal_servers(alloc, part, later_passes, later_takers)?;
    Ok((DiskProcess { partition, mail }, tokens, servers))
}

fn new_mail(
    alloc: Global,
    posters: u32,
    takers: u32,
) -> Result<(Mail<Message>, Vec<Poster<Message>>, Vec<Taker<Message>>), NoMemory>
    requires some_poster { 0 < posters }
    requires some_taker { 0 < takers }
    ensures mail { IfOk result (λ made. (made.0.posters ≡ posters) × (made.0.takers ≡ takers)) }
    ensures posters { IfOk result (λ made. made.1.items ≡ map (new_poster made.0) (range_with_len 0 posters)) }
    ensures takers { IfOk result (λ made. made.2.items ≡ map (new_taker made.0) (range_with_len 0 takers)) }
{
    match Mail::new(alloc, posters, takers) {
        Ok(made) => Ok(made),
        Err(_) => Err(NoMemory),
    }
}

/// The tokens of each session, of passes, posters and takers in their order.
fn deal_tokens(
    alloc: Global,
    passes: Vec<Pass<SpelledPartition>>,
    posters: Vec<Poster<Message>>,
    takers: Vec<Taker<Message>>,
) -> Result<Vec<Tokens>, NoMemory>
    requires takers { length takers.items ≡ length passes.items }
    requires posters { length posters.items ≡ length passes.items }
    ensures { IfOk result (λ tokens. tokens.items ≡ bundled passes.items posters.items takers.items) }
{
    let mut tokens = Vec::new(alloc);
    let mut posters = posters.into_iter();
    let mut takers = takers.into_iter();
    for pass in passes {
        tokens.push(Tokens {
            pass,
            poster: posters.next().unwrap(),
            taker: takers.next().unwrap(),
        })?;
    }
    Ok(tokens)
}

/// The servers of a partition, of passes and takers in their order.
fn deal_servers(
    alloc: Global,
    part: u32,
    passes: Vec<Pass<SpelledPartition>>,
    takers: Vec<Taker<Message>>,
) -> Result<Vec<Server>, NoMemory>
    requires { length takers.items ≡ length passes.items }
    ensures { IfOk result (λ servers. servers.items ≡ manned part passes.items takers.items) }
{
    let mut servers = Vec::new(alloc);
    let mut takers = takers.into_iter();
    for pass in passes {
        servers.push(Server {
            part,
            pass,
            taker: takers.next().unwrap(),
        })?;
    }
    Ok(servers)
}

/// Each list with one more, in their order.
pub fn lengthen(
    alloc: Global,
    lists: Vec<Vec<Tokens>>,
    more: Vec<Tokens>,
) -> Result<Vec<Vec<Tokens>>, NoMemory>
    requires { length more.items ≡ length lists.items }
    ensures { IfOk result (λ longer. map (λ list. list.items) longer.items ≡ lengthened (map (λ list. list.items) lists.items) more.items) }
{
    let mut longer = Vec::new(alloc);
    let mut more = more.into_iter();
    for list in lists {
        let mut list = list;
        list.push(more.next().unwrap())?;
        longer.push(list)?;
    }
    Ok(longer)
}
