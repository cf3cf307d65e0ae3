//! Continue: the next quantum of a subset.
ghost use Rattle.std.specs.Prelude.{◌≡◌, IfOk};
ghost use Rattle.sql_base.specs.Keys.{key_eq};
ghost use Rattle.subset_blocks.specs.Blocks.{find_block};
ghost use Rattle.partition_state.specs.Step.{goes_on, kept_key};
ghost use Rattle.partition_core.specs.Scaffold.Changes.{tells, IsFitting};
ghost use Rattle.partition_core.specs.Scaffold.Contents.{state_of, parts_of, IsServing};
ghost use Rattle.partition_core.specs.Scaffold.Firsts.{next_change, next_reply};

use crate::changes::{Change, Judgement, refusal};
use crate::contents::Contents;
use dp_messages::Reply;
use quantum_core::QuantumReply;
use quantum_runner::{Walk, walk};
use sql_base::{Key, NoMemory, Start, TxnName};
use std::alloc::Global;
use subset_blocks::find_block;

impl Contents {
    /// Goes on with a subset of the transaction just after its last key.
    pub fn go_on(
        &self,
        alloc: Global,
        t: TxnName,
        subset: u32,
        last: &Key,
    ) -> Result<Judgement, NoMemory>
        requires serving { IsServing (parts_of self.now) }
        ensures told { IfOk result (λ j. tells (state_of (parts_of self.now)) t j
            ≡ goes_on (state_of (parts_of self.now)) last.now (find_block subset t self.now.blocks.items)) }
        ensures fits { IfOk result (λ j. IsFitting (parts_of self.now) j.change) }
    {
        let Some(numbered) = find_block(&self.blocks, subset, t) else {
            return Ok(refusal(Reply::NoSubset));
        };
        let kept = kept_key(&numbered.block.start);
        if !is_key(kept, last) {
            return Ok(refusal(wrong_key(kept)?));
        }
        let walked = walk(
            alloc,
            self.limits,
            &self.table,
            &self.store.file,
            &self.store.locks,
            &numbered.block,
        )?;
        after_next(numbered.number, walked)
    }
}

/// What the walk of a block's next quantum comes to.
fn after_next(subset: u32, walk: Walk) -> Result<Judgement, NoMemory>
    ensures reply { IfOk result (λ j. j.reply ≡ next_reply subset walk.reply) }
    ensures change { IfOk result (λ j. j.change ≡ next_change subset walk) }
{
    let Walk { reply, plans } = walk;
    match reply {
        QuantumReply::Ended { rows, changed } => Ok(Judgement {
            reply: Reply::Ended { rows, changed },
            change: Change::Closes { plans, subset },
        }),
        QuantumReply::Redrive {
            last,
            cause,
            rows,
            changed,
        } => {
            let change = Change::Advances {
                plans,
                subset,
                last: last.clone()?,
            };
            let reply = Reply::Redrive {
                subset,
                last,
                cause,
                rows,
                changed,
            };
            Ok(Judgement { reply, change })
        }
        QuantumReply::Locked(lock) => Ok(refusal(Reply::Locked(lock))),
        QuantumReply::Failed { key, fault } => Ok(refusal(Reply::Failed { key, fault })),
    }
}

/// The key at which a subset under way stopped.
fn kept_key(start: &Start) -> &Key
    ensures { result.now ≡ kept_key start.now }
{
    match start {
        Start::At(low) => low,
        Start::After(last) => last,
    }
}

fn wrong_key(kept: &Key) -> Result<Reply, NoMemory>
    ensures { IfOk result (λ reply. reply ≡ Reply.WrongKey kept.now) }
{
    Ok(Reply::WrongKey {
        kept: kept.clone()?,
    })
}

fn is_key(a: &Key, b: &Key) -> bool
    ensures { result ≡ key_eq a.now b.now }
{
    a.bytes().cmp(b.bytes()).is_eq()
}
