//! ReadKey: the record of one key.
ghost use Rattle.std.specs.Prelude.{◌≡◌, ◌≢◌, ◌&&◌, [], ℕ, List, IfOk, Some, None, true};
ghost use Rattle.sql_base.specs.declared.faults.Cause.{Cause};
ghost use Rattle.quantum_core.specs.declared.works.Doing.TheVariants as doing;
ghost use Rattle.predicate_codes.specs.Decoding.{filter_of};
ghost use Rattle.partition_state.specs.Step.{are_columns_here, as_row, is_key_here, read_key, set_work};
ghost use Rattle.quantum_runner.specs.Scaffold.Works.{IsWork};
ghost use Rattle.partition_core.specs.Scaffold.Changes.{tells, IsFitting, granule_wanted};
ghost use Rattle.partition_core.specs.Scaffold.Contents.{state_of, parts_of, IsServing};
ghost use Rattle.partition_core.specs.Scaffold.Firsts.{key_change, key_reply};

use crate::begins::{First, begun, copy_of, first_block, granule_lock};
use crate::changes::{Change, Judgement, refusal};
use crate::codes::read_work;
use crate::contents::Contents;
use dp_messages::Reply;
use quantum_core::QuantumReply;
use quantum_runner::{Task, Walk, Work};
use sql_base::{Access, Code, Key, KeyRange, List, NoMemory, Packed, Prefix, TxnName};
use std::alloc::Global;
use subset_blocks::Block;

impl Contents {
    /// Reads the named columns of the record of a key.
    pub fn read_key(
        &self,
        alloc: Global,
        t: TxnName,
        access: Access,
        key: &Key,
        filter: &Option<Code>,
        columns: &List<u8>,
    ) -> Result<Judgement, NoMemory>
        requires serving { IsServing (parts_of self.now) }
        ensures told { IfOk result (λ j. tells (state_of (parts_of self.now)) t j
            ≡ read_key (state_of (parts_of self.now)) t access key.now
            (is_key_here (state_of (parts_of self.now)) key.now && are_columns_here (state_of (parts_of self.now)) columns.now)
            (set_work (filter_of self.now.table filter.now) (Some (doing.Read columns.now)))) }
        ensures fits { IfOk result (λ j. IsFitting (parts_of self.now) j.change) }
    {
        if !self.suits_key(key.bytes(), columns.items()) {
            return Ok(refusal(Reply::BadShape));
        }
        let task = Task::Read(copy_of(columns)?);
        let read = read_work(alloc, self.table.table(), filter, task)?;
        match read {
            Some(work) => self.read_one(alloc, t, access, key, work),
            None => Ok(refusal(Reply::BadCode)),
        }
    }

    fn read_one(
        &self,
        alloc: Global,
        t: TxnName,
        access: Access,
        key: &Key,
        work: Work,
    ) -> Result<Judgement, NoMemory>
        requires serving { IsServing (parts_of self.now) }
        requires work { IsWork self.now.table work }
        ensures told { IfOk result (λ j. tells (state_of (parts_of self.now)) t j ≡ read_key (state_of (parts_of self.now)) t access key.now true (Some work)) }
        ensures fits { IfOk result (λ j. IsFitting (parts_of self.now) j.change) }
    {
        let granule = granule_of(alloc, key)?;
        let range = range_of(key)?;
        let block = first_block(t, access, &range, work)?;
        match self.walk_first(alloc, &block, &granule)? {
            First::Barred(lock) => Ok(begun(alloc, Reply::Locked(lock))),
            First::Walked(walk) => after_key(alloc, &block, &granule, walk),
        }
    }
}

fn granule_of(alloc: Global, key: &Key) -> Result<Prefix, NoMemory>
    ensures { IfOk result (λ granule. granule ≡ key.now) }
{
    Ok(Prefix::from_vec(key.bytes().to_vec(alloc)?))
}

fn range_of(key: &Key) -> Result<KeyRange, NoMemory>
    ensures { IfOk result (λ range. range ≡ record { low = key.now; high = key.now }) }
{
    Ok(KeyRange {
        low: key.clone()?,
        high: key.clone()?,
    })
}

/// What the quantum of one key comes to.
fn after_key(
    alloc: Global,
    block: &Block<Work>,
    granule: &Prefix,
    walk: Walk,
) -> Result<Judgement, NoMemory>
    requires { (last : List ℕ) (cause : Cause) (rows : List (List ℕ)) (changed : ℕ) → walk.reply ≢ QuantumReply.Redrive last cause rows changed }
    ensures reply { IfOk result (λ j. j.reply ≡ key_reply walk.reply) }
    ensures change { IfOk result (λ j. j.change ≡ key_change (granule_wanted block.now granule.now block.now.access) walk) }
{
    let Walk { reply, plans } = walk;
    match reply {
        QuantumReply::Ended { rows, changed: _ } => Ok(Judgement {
            reply: first_row(rows),
            change: Change::Begins {
                plans,
                granule: granule_lock(block, granule)?,
                opened: None,
            },
        }),
        QuantumReply::Redrive {
            last: _last,
            cause: _,
            rows: _rows,
            changed: _,
        } => unreachable!(),
        QuantumReply::Locked(lock) => Ok(begun(alloc, Reply::Locked(lock))),
        QuantumReply::Failed { key, fault } => Ok(begun(alloc, Reply::Failed { key, fault })),
    }
}

fn first_row(rows: List<Packed>) -> Reply
    ensures { result ≡ as_row (Reply.Ended rows 0) }
{
    match rows.into_vec().into_iter().next() {
        Some(row) => Reply::Row(row),
        None => Reply::NoRow,
    }
}
