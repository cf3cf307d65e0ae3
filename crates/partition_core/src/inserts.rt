//! Insert and LockGranule.
ghost use Rattle.std.specs.Prelude.{◌≡◌, IfOk, None, Some, is_some, option_and_then};
ghost use Rattle.sql_base.specs.Locks.{first_conflict};
ghost use Rattle.sql_base.specs.Rows.{IsRow, kinds, unpacked};
ghost use Rattle.key_sequenced.specs.Cells.{find_cell};
ghost use Rattle.partition_state.specs.Step.{insert_row, lock_granule};
ghost use Rattle.partition_core.specs.Scaffold.Changes.{tells, IsFitting};
ghost use Rattle.partition_core.specs.Scaffold.Contents.{state_of, parts_of, IsServing};

use crate::begins::{begun, locked};
use crate::changes::{Change, Judgement, refusal};
use crate::contents::Contents;
use dp_messages::Reply;
use sql_base::{
    Key, List, Lock, Mode, NoMemory, Packed, Prefix, Row, TxnName, UnpackFault, row_key, unpack,
};
use std::alloc::Global;

impl Contents {
    /// Inserts a packed row.
    pub fn insert(&self, alloc: Global, t: TxnName, packed: &Packed) -> Result<Judgement, NoMemory>
        requires serving { IsServing (parts_of self.now) }
        ensures told { IfOk result (λ j. tells (state_of (parts_of self.now)) t j ≡ insert_row (state_of (parts_of self.now)) t (unpacked (kinds self.now.table) packed.now)) }
        ensures fits { IfOk result (λ j. IsFitting (parts_of self.now) j.change) }
    {
        match unpack(alloc, packed, self.kinds.items()) {
            Ok(row) => self.insert_row(alloc, t, row),
            Err(UnpackFault::WrongLength) => Ok(refusal(Reply::BadShape)),
            Err(UnpackFault::NotPrintable) => Ok(refusal(Reply::BadShape)),
            Err(UnpackFault::NoMemory) => Err(NoMemory),
        }
    }

    fn insert_row(&self, alloc: Global, t: TxnName, row: Row) -> Result<Judgement, NoMemory>
        requires serving { IsServing (parts_of self.now) }
        requires row { IsRow self.now.table row }
        ensures told { IfOk result (λ j. tells (state_of (parts_of self.now)) t j ≡ insert_row (state_of (parts_of self.now)) t (Some row)) }
        ensures fits { IfOk result (λ j. IsFitting (parts_of self.now) j.change) }
    {
        let key = row_key(alloc, &row, self.table.table())?;
        if !self.is_key_here(key.bytes()) {
            return Ok(refusal(Reply::BadShape));
        }
        if let Some(lock) = self.store.locks.stands_against(t, key.bytes(), Mode::X) {
            return locked(alloc, lock);
        }
        if self.stands(key.bytes()) {
            return Ok(begun(alloc, Reply::DuplicateKey { key }));
        }
        if let Some(fault) = self.table.first_failing(&row) {
            return Ok(begun(alloc, Reply::Failed { key, fault }));
        }
        let lock = exclusive(alloc, t, &key)?;
        Ok(Judgement {
            reply: Reply::Done,
            change: Change::Inserts { key, row, lock },
        })
    }

    /// Whether a record of the key stands.
    fn stands(&self, key: &[u8]) -> bool
        ensures { result ≡ is_some (option_and_then (λ cell. cell.now) (find_cell key.now self.now.store.file.cells)) }
    {
        match self.store.file.find(key) {
            Some(cell) => cell.now.is_some(),
            None => false,
        }
    }

    /// Locks a granule.
    pub fn lock_granule(
        &self,
        alloc: Global,
        t: TxnName,
        prefix: &Prefix,
        mode: Mode,
    ) -> Result<Judgement, NoMemory>
        requires serving { IsServing (parts_of self.now) }
        ensures told { IfOk result (λ j. tells (state_of (parts_of self.now)) t j ≡ lock_granule (state_of (parts_of self.now)) t prefix.now mode) }
        ensures fits { IfOk result (λ j. IsFitting (parts_of self.now) j.change) }
    {
        if self.is_too_long(prefix) {
            return Ok(refusal(Reply::BadShape));
        }
        if let Some(lock) = self.store.locks.stands_against(t, prefix.bytes(), mode) {
            return locked(alloc, lock);
        }
        let lock = lock_on(t, prefix, mode)?;
        Ok(Judgement {
            reply: Reply::Done,
            change: Change::Begins {
                plans: List::new(alloc),
                granule: Some(lock),
                opened: None,
            },
        })
    }
}

fn exclusive(alloc: Global, holder: TxnName, key: &Key) -> Result<Lock, NoMemory>
    ensures { IfOk result (λ lock. lock ≡ record { holder = holder; prefix = key.now; mode = Mode.X }) }
{
    Ok(Lock {
        holder,
        prefix: Prefix::from_vec(key.bytes().to_vec(alloc)?),
        mode: Mode::X,
    })
}

fn lock_on(holder: TxnName, prefix: &Prefix, mode: Mode) -> Result<Lock, NoMemory>
    ensures { IfOk result (λ lock. lock ≡ record { holder = holder; prefix = prefix.now; mode = mode }) }
{
    Ok(Lock {
        holder,
        prefix: prefix.clone()?,
        mode,
    })
}
