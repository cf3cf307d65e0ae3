//! What a request comes to, by the checks before the kinds and then by kind.
ghost use Rattle.std.specs.Prelude.{◌≡◌, ◌<◌, ◌≤◌, false, IfOk, OnErr, slice_index_or};
ghost use Rattle.sql_base.specs.Scripts.{Lies};
ghost use Rattle.partition_core.specs.Scaffold.Contents.{state_of, parts_of, IsServing};
ghost use Rattle.partition_core.specs.Scaffold.Changes.{tells, IsFitting};
ghost use Rattle.partition_core.specs.Rooms.{IsSettled};
ghost use Rattle.partition_state.specs.Step.{answered, by_kind, is_closing, unless_prepared};

use crate::changes::{Judgement, refusal};
use crate::contents::Contents;
use crate::lives::{floor_of, other_live};
use dp_messages::{Ask, Reply};
use sql_base::{NoMemory, TxnName};
use std::alloc::Global;

impl Contents {
    /// What a request of the transaction comes to. Nothing changes yet. A Prepare or an End takes no memory.
    pub fn judge(&self, alloc: Global, t: TxnName, ask: &Ask) -> Result<Judgement, NoMemory>
        requires opener { Lies 1 8 t.session }
        requires serving { IsServing (parts_of self.now) }
        ensures told { IfOk result (λ j. tells (state_of (parts_of self.now)) t j ≡ answered (state_of (parts_of self.now)) t ask.now) }
        ensures fits { IfOk result (λ j. IsFitting (parts_of self.now) j.change) }
        ensures settled { IfOk result (λ j. IsSettled (state_of (parts_of self.now)) t ask.now j.change) }
        ensures closing { OnErr result (is_closing ask.now ≡ false) }
    {
        let ended = self.ended[t.session as usize - 1];
        if t.ordinal <= ended {
            return Ok(refusal(Reply::AfterEnd { ended }));
        }
        if let Some(other) = other_live(&self.lives, t) {
            return Ok(refusal(Reply::StillLive {
                ordinal: other.name.ordinal,
            }));
        }
        match floor_of(&self.lives, t) {
            Some(floor) => self.judge_prepared(alloc, t, ask, floor),
            None => self.judge_kind(alloc, t, ask),
        }
    }

    fn judge_prepared(
        &self,
        alloc: Global,
        t: TxnName,
        ask: &Ask,
        floor: u64,
    ) -> Result<Judgement, NoMemory>
        requires serving { IsServing (parts_of self.now) }
        ensures told { IfOk result (λ j. tells (state_of (parts_of self.now)) t j ≡ unless_prepared (state_of (parts_of self.now)) t ask.now (Some floor)) }
        ensures fits { IfOk result (λ j. IsFitting (parts_of self.now) j.change) }
        ensures settled { IfOk result (λ j. IsSettled (state_of (parts_of self.now)) t ask.now j.change) }
        ensures closing { OnErr result (is_closing ask.now ≡ false) }
    {
        if is_closing(ask) {
            self.judge_kind(alloc, t, ask)
        } else {
            Ok(refusal(Reply::AfterPrepare { floor }))
        }
    }

    fn judge_kind(&self, alloc: Global, t: TxnName, ask: &Ask) -> Result<Judgement, NoMemory>
        requires serving { IsServing (parts_of self.now) }
        ensures told { IfOk result (λ j. tells (state_of (parts_of self.now)) t j ≡ by_kind (state_of (parts_of self.now)) t ask.now) }
        ensures fits { IfOk result (λ j. IsFitting (parts_of self.now) j.change) }
        ensures settled { IfOk result (λ j. IsSettled (state_of (parts_of self.now)) t ask.now j.change) }
        ensures closing { OnErr result (is_closing ask.now ≡ false) }
    {
        match ask {
            Ask::BeginRead {
                access,
                granule,
                range,
                filter,
                columns,
            } => self.begin_read(alloc, t, *access, granule, range, filter, columns),
            Ask::BeginUpdate {
                access,
                granule,
                range,
                filter,
                sets,
            } => self.begin_update(alloc, t, *access, granule, range, filter, sets),
            Ask::BeginDelete {
                access,
                granule,
                range,
                filter,
            } => self.begin_delete(alloc, t, *access, granule, range, filter),
            Ask::Continue { subset, last } => self.go_on(alloc, t, *subset, last),
            Ask::ReadKey {
                access,
                key,
                filter,
                columns,
            } => self.read_key(alloc, t, *access, key, filter, columns),
            Ask::Insert { row } => self.insert(alloc, t, row),
            Ask::LockGranule { prefix, mode } => self.lock_granule(alloc, t, prefix, *mode),
            Ask::Prepare => Ok(self.prepare(t)),
            Ask::EndCommit { stamp } => Ok(self.end_commit(t, *stamp)),
            Ask::EndUndo => Ok(self.end_undo(t)),
        }
    }
}

/// Whether a prepared transaction may still ask this.
fn is_closing(ask: &Ask) -> bool
    ensures { result ≡ is_closing ask.now }
{
    match ask {
        Ask::Prepare => true,
        Ask::EndCommit { stamp: _ } => true,
        Ask::EndUndo => true,
        _ => false,
    }
}
