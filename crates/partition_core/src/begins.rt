//! Begin: the first quantum of a subset.
ghost use Rattle.std.specs.Prelude.{◌≡◌, ◌<◌, [], length, IfOk, IfSome, Some, None, option_copied, option_map};
ghost use Rattle.sql_base.specs.declared.key_ranges.Start.TheVariants.{At, After};
ghost use Rattle.quantum_core.specs.declared.works.Doing.TheVariants as doing;
ghost use Rattle.quantum_runner.specs.Scaffold.Works.{IsWork};
ghost use Rattle.predicate_codes.specs.Decoding.{filter_of};
ghost use Rattle.predicate_codes.specs.SetLists.{sets_of};
ghost use Rattle.subset_blocks.specs.Blocks.{free_number, most_blocks};
ghost use Rattle.partition_state.specs.Step.{against_granule, are_columns_here, begin, begin_with, may_change, mode_of, set_work};
ghost use Rattle.partition_core.specs.Scaffold.Contents.{state_of, parts_of, IsServing};
ghost use Rattle.partition_core.specs.Scaffold.Changes.{tells, IsFitting, granule_wanted};
ghost use Rattle.partition_core.specs.Scaffold.Firsts.{IsFirst, first_change, first_reply};

use crate::changes::{Change, Judgement, refusal};
use crate::codes::{read_update, read_work};
use crate::contents::Contents;
use dp_messages::Reply;
use quantum_core::QuantumReply;
use quantum_runner::{Planned, Task, Walk, Work, walk};
use sql_base::{Access, Code, Key, KeyRange, List, Lock, Mode, NoMemory, Prefix, Start, TxnName};
use std::alloc::Global;
use subset_blocks::{Block, MOST_BLOCKS, Numbered, free_number};

impl Contents {
    /// Begins to read the named columns of the records of a range.
    pub fn begin_read(
        &self,
        alloc: Global,
        t: TxnName,
        access: Access,
        granule: &Prefix,
        range: &KeyRange,
        filter: &Option<Code>,
        columns: &List<u8>,
    ) -> Result<Judgement, NoMemory>
        requires serving { IsServing (parts_of self.now) }
        ensures told { IfOk result (λ j. tells (state_of (parts_of self.now)) t j
            ≡ begin (state_of (parts_of self.now)) t access granule.now range.now (are_columns_here (state_of (parts_of self.now)) columns.now)
            (set_work (filter_of self.now.table filter.now) (Some (doing.Read columns.now)))) }
        ensures fits { IfOk result (λ j. IsFitting (parts_of self.now) j.change) }
    {
        if !self.are_columns_here(columns.items()) || !self.is_shaped(range, granule) {
            return Ok(refusal(Reply::BadShape));
        }
        let task = Task::Read(copy_of(columns)?);
        let work = read_work(alloc, self.table.table(), filter, task)?;
        self.begin_with(alloc, t, access, granule, range, work)
    }

    /// Begins to update the records of a range.
    pub fn begin_update(
        &self,
        alloc: Global,
        t: TxnName,
        access: Access,
        granule: &Prefix,
        range: &KeyRange,
        filter: &Option<Code>,
        sets: &Code,
    ) -> Result<Judgement, NoMemory>
        requires serving { IsServing (parts_of self.now) }
        ensures told { IfOk result (λ j. tells (state_of (parts_of self.now)) t j
            ≡ begin (state_of (parts_of self.now)) t access granule.now range.now (may_change access)
            (set_work (filter_of self.now.table filter.now) (option_map doing.Update (sets_of self.now.table sets.now)))) }
        ensures fits { IfOk result (λ j. IsFitting (parts_of self.now) j.change) }
    {
        if !may_change(access) || !self.is_shaped(range, granule) {
            return Ok(refusal(Reply::BadShape));
        }
        let work = read_update(alloc, self.table.table(), filter, sets)?;
        self.begin_with(alloc, t, access, granule, range, work)
    }

    /// Begins to delete the records of a range.
    pub fn begin_delete(
        &self,
        alloc: Global,
        t: TxnName,
        access: Access,
        granule: &Prefix,
        range: &KeyRange,
        filter: &Option<Code>,
    ) -> Result<Judgement, NoMemory>
        requires serving { IsServing (parts_of self.now) }
        ensures told { IfOk result (λ j. tells (state_of (parts_of self.now)) t j
            ≡ begin (state_of (parts_of self.now)) t access granule.now range.now (may_change access) (set_work (filter_of self.now.table filter.now) (Some doing.Delete))) }
        ensures fits { IfOk result (λ j. IsFitting (parts_of self.now) j.change) }
    {
        if !may_change(access) || !self.is_shaped(range, granule) {
            return Ok(refusal(Reply::BadShape));
        }
        let work = read_work(alloc, self.table.table(), filter, Task::Delete)?;
        self.begin_with(alloc, t, access, granule, range, work)
    }

    fn begin_with(
        &self,
        alloc: Global,
        t: TxnName,
        access: Access,
        granule: &Prefix,
        range: &KeyRange,
        work: Option<Work>,
    ) -> Result<Judgement, NoMemory>
        requires serving { IsServing (parts_of self.now) }
        requires work { IfSome work (IsWork self.now.table) }
        ensures told { IfOk result (λ j. tells (state_of (parts_of self.now)) t j
            ≡ begin_with (state_of (parts_of self.now)) t access granule.now range.now work) }
        ensures fits { IfOk result (λ j. IsFitting (parts_of self.now) j.change) }
    {
        let Some(work) = work else {
            return Ok(refusal(Reply::BadCode));
        };
        if self.blocks.len() >= MOST_BLOCKS {
            return Ok(refusal(Reply::TooManySubsets));
        }
        let block = first_block(t, access, range, work)?;
        match self.walk_first(alloc, &block, granule)? {
            First::Barred(lock) => Ok(begun(alloc, Reply::Locked(lock))),
            First::Walked(walk) => self.after_first(alloc, block, granule, walk),
        }
    }

    /// The first quantum of a block, unless a lock stands against its granule.
    pub fn walk_first(
        &self,
        alloc: Global,
        block: &Block<Work>,
        granule: &Prefix,
    ) -> Result<First, NoMemory>
        requires serving { IsServing (parts_of self.now) }
        requires work { IsWork self.now.table block.now.work }
        ensures { IfOk result (λ first. IsFirst (state_of (parts_of self.now)) block.now granule.now first) }
    {
        if let Some(lock) = self.against_granule(block, granule) {
            return Ok(First::Barred(lock.clone()?));
        }
        let walked = walk(
            alloc,
            self.limits,
            &self.table,
            &self.store.file,
            &self.store.locks,
            block,
        )?;
        Ok(First::Walked(walked))
    }

    /// Under REPEATABLE, the lock that stands against the granule.
    fn against_granule(&self, block: &Block<Work>, granule: &Prefix) -> Option<&Lock>
        ensures { option_copied result ≡ against_granule (state_of (parts_of self.now)) block.now granule.now block.now.access }
    {
        match block.access {
            Access::Browse => None,
            Access::Stable => None,
            Access::Repeatable => {
                let mode = mode_of(&block.work);
                self.store
                    .locks
                    .stands_against(block.holder, granule.bytes(), mode)
            }
        }
    }

    fn after_first(
        &self,
        alloc: Global,
        block: Block<Work>,
        granule: &Prefix,
        walk: Walk,
    ) -> Result<Judgement, NoMemory>
        requires few { length self.now.blocks.items < most_blocks }
        ensures reply { IfOk result (λ j. j.reply ≡ first_reply (free_number self.now.blocks.items) walk.reply) }
        ensures change { IfOk result (λ j. j.change ≡ first_change (free_number self.now.blocks.items) block granule.now walk) }
    {
        let Walk { reply, plans } = walk;
        match reply {
            QuantumReply::Ended { rows, changed } => Ok(Judgement {
                reply: Reply::Ended { rows, changed },
                change: Change::Begins {
                    plans,
                    granule: granule_lock(&block, granule)?,
                    opened: None,
                },
            }),
            QuantumReply::Redrive {
                last,
                cause,
                rows,
                changed,
            } => {
                let subset = free_number(&self.blocks);
                let change = opening(plans, block, granule, subset, &last)?;
                let reply = Reply::Redrive {
                    subset,
                    last,
                    cause,
                    rows,
                    changed,
                };
                Ok(Judgement { reply, change })
            }
            QuantumReply::Locked(lock) => Ok(begun(alloc, Reply::Locked(lock))),
            QuantumReply::Failed { key, fault } => Ok(begun(alloc, Reply::Failed { key, fault })),
        }
    }
}

/// What the first quantum of a block comes to.
#[derive(Debug, Drop)]
pub enum First {
    /// This lock stands against the granule.
    Barred(Lock),
    Walked(Walk),
}

/// A block at its beginning.
pub fn first_block(
    holder: TxnName,
    access: Access,
    range: &KeyRange,
    work: Work,
) -> Result<Block<Work>, NoMemory>
    ensures { IfOk result (λ block. block ≡ record { holder = holder; start = At range.now.low; high = range.now.high; access = access; work = work }) }
{
    Ok(Block {
        holder,
        start: Start::At(range.low.clone()?),
        high: range.high.clone()?,
        access,
        work,
    })
}

/// A reply with which the transaction is live and nothing else changes.
pub fn begun(alloc: Global, reply: Reply) -> Judgement
    ensures { result ≡ record { reply = reply; change = Change.Begins [] None None } }
{
    Judgement {
        reply,
        change: Change::Begins {
            plans: List::new(alloc),
            granule: None,
            opened: None,
        },
    }
}

/// A lock stands against the request, whose transaction is live.
pub fn locked(alloc: Global, lock: &Lock) -> Result<Judgement, NoMemory>
    ensures { IfOk result (λ j. j ≡ record { reply = Reply.Locked lock.now; change = Change.Begins [] None None }) }
{
    Ok(begun(alloc, Reply::Locked(lock.clone()?)))
}

/// The granule is locked, and the block goes on after the key under its number.
fn opening(
    plans: List<Planned>,
    block: Block<Work>,
    granule: &Prefix,
    subset: u32,
    last: &Key,
) -> Result<Change, NoMemory>
    ensures { IfOk result (λ change. change
        ≡ Change.Begins plans (granule_wanted block granule.now block.access) (Some (record { number = subset; block = record block { start = After last.now } }))) }
{
    let locked = granule_lock(&block, granule)?;
    let start = Start::After(last.clone()?);
    Ok(Change::Begins {
        plans,
        granule: locked,
        opened: Some(numbered(subset, starting(block, start))),
    })
}

fn numbered(number: u32, block: Block<Work>) -> Numbered<Work>
    ensures { result ≡ record { number = number; block = block } }
{
    Numbered { number, block }
}

fn starting(block: Block<Work>, start: Start) -> Block<Work>
    ensures { result ≡ record block { start = start } }
{
    let Block {
        holder,
        start: _start,
        high,
        access,
        work,
    } = block;
    Block {
        holder,
        start,
        high,
        access,
        work,
    }
}

/// Under REPEATABLE, the lock on the granule.
pub fn granule_lock(block: &Block<Work>, granule: &Prefix) -> Result<Option<Lock>, NoMemory>
    ensures { IfOk result (λ lock. lock ≡ granule_wanted block.now granule.now block.now.access) }
{
    match block.access {
        Access::Browse => Ok(None),
        Access::Stable => Ok(None),
        Access::Repeatable => Ok(Some(Lock {
            holder: block.holder,
            prefix: granule.clone()?,
            mode: mode_of(&block.work),
        })),
    }
}

fn mode_of(work: &Work) -> Mode
    ensures { result ≡ mode_of work.now.doing }
{
    if work.changes() { Mode::X } else { Mode::S }
}

/// BROWSE changes nothing.
fn may_change(access: Access) -> bool
    ensures { result ≡ may_change access }
{
    match access {
        Access::Browse => false,
        Access::Stable => true,
        Access::Repeatable => true,
    }
}

pub fn copy_of(columns: &List<u8>) -> Result<List<u8>, NoMemory>
    ensures { IfOk result (λ copy. copy ≡ columns.now) }
{
    Ok(columns.clone()?)
}
