//! Partitions of scripts, and requests that they serve.
ghost use Rattle.sql_base.specs.Scripts.{IsScript};

use crate::asking::{Deed, ask_of};
use crate::read_scripts::script_of;
use crate::replying::{Wanted, is_wanted};
use dp_messages::{Ask, Request};
use partition_core::{Partition, Pick, Served};
use sql_base::Script;
use std::alloc::Global;
use std::process::Abort;
use std::test::Fail;

/// A request: the opener, the ordinal of its attempt, what it asks, and the reply that is wanted.
pub type Step<'a> = (u32, u32, Deed, Wanted<'a>);

/// The first partition of the script's first LOAD with its rows.
#[tactic(auto, using(crate::proofs::Openings::table_at, crate::proofs::Openings::rows_at))]
fn opened(alloc: Global, script: &Script) -> Result<Partition, Fail>
    requires { IsScript script.now }
{
    let [load, ..] = script.loads.items() else {
        return Err("no rows".into());
    };
    let Some(table) = script.tables.items().get(load.table as usize) else {
        return Err("no table".into());
    };
    Ok(Partition::new(alloc, table, 0, script.limits, load.rows.items())?)
}

/// The partition that a table and its rows open.
pub fn partition_of(alloc: Global, lines: &[&str]) -> Result<Partition, Fail> {
    let mut script = lines.to_vec(alloc)?;
    script.extend_from_slice(&["SESSION;", "COMMIT WORK;"])?;
    opened(alloc, &script_of(alloc, script.as_slice())?)
}

/// What becomes of a request with a sync, or none where there can be no such opener or sync.
pub fn served(
    alloc: Global,
    partition: &mut Partition,
    opener: u32,
    sync: u64,
    request: &Request,
) -> Option<Served> {
    if opener < 1 {
        return None;
    }
    if opener > 8 {
        return None;
    }
    if sync == 0 {
        return None;
    }
    Some(partition.serve(alloc, opener, sync, request))
}

/// What there is for an opener that asks for the reply to a sync, or none where there can be no such opener or sync.
pub fn found(partition: &Partition, opener: u32, sync: u64) -> Option<Pick<'_>> {
    if opener < 1 {
        return None;
    }
    if opener > 8 {
        return None;
    }
    if sync == 0 {
        return None;
    }
    Some(partition.pickup(opener, sync))
}

/// Whether the reply that is kept for a sync is the one that is wanted.
pub fn has_kept(partition: &Partition, opener: u32, sync: u64, wanted: Wanted<'_>) -> bool {
    match found(partition, opener, sync) {
        Some(Pick::Reply(reply)) => is_wanted(reply, wanted),
        _ => false,
    }
}

/// Whether a request is new, and replied to as is wanted.
pub fn replies(
    alloc: Global,
    partition: &mut Partition,
    opener: u32,
    sync: u64,
    request: &Request,
    wanted: Wanted<'_>,
) -> bool {
    served(alloc, partition, opener, sync, request) == Some(Served::New)
        && has_kept(partition, opener, sync, wanted)
}

/// Serves the steps one after the other with the syncs from 1 on, and compares the replies.
pub fn expect_replies(
    rt: &impl Abort,
    alloc: Global,
    partition: &mut Partition,
    steps: &[Step<'_>],
) -> Result<(), Fail> {
    let mut sync = 0u64;
    for (opener, ordinal, deed, wanted) in steps {
        sync = sync.saturating_add(1);
        let request = Request {
            ordinal: *ordinal,
            ask: ask_of(alloc, *deed)?,
        };
        let same = replies(alloc, partition, *opener, sync, &request, *wanted);
        assert!(rt; same, "step {sync}");
    }
    Ok(())
}
