//! The fields of messages, read one after the other.

ghost use Rattle.std.specs.Prelude.{◌≡◌, nat_eq, length};
ghost use Rattle.std.specs.Int.{w16, w32, w64};
ghost use Rattle.sql_base.specs.Tables.{all_differ};
ghost use Rattle.dp_messages.specs.Reading.{Gives, byte_at, number_at, front_at, sized_at, counted_at, columns_at, optional_at, rows_at, rows_from, access_at, mode_at, cause_at, fault_at, lock_at};

use crate::faults::BytesFault;
use sql_base::{Access, Cause, Code, Fault, Key, List, Lock, Mode, Packed, Prefix, TxnName};
use std::alloc::Global;
use std::marker::Model;

/// Bytes that are being read, which contracts see as those that are left.
#[derive(Debug, Drop)]
pub struct Input<'a> {
    left: &'a [u8],
}

impl<'a> Model for Input<'a> {
    ghost use Rattle.std.specs.Prelude.{List, ℕ};

    ghost Value = { List ℕ };

    ghost view = { λ it. it.left.now };
}

impl<'a> Input<'a> {
    pub fn new(bytes: &'a [u8]) -> Input<'a>
        ensures { result ≡ bytes.now }
    {
        Input { left: bytes }
    }

    #[tactic(auto, unfolding(crate::specs::Reading::byte_at))]
    pub fn byte(&mut self) -> Result<u8, BytesFault>
        ensures { Gives (λ b. b) result self.new (byte_at self.old) }
    {
        match self.left {
            [] => Err(BytesFault::Malformed),
            [byte, rest @ ..] => {
                self.left = rest;
                Ok(*byte)
            }
        }
    }

    #[tactic(auto, unfolding(crate::specs::Reading::front_at))]
    fn front(&mut self, length: usize) -> Result<&'a [u8], BytesFault>
        ensures { Gives (λ bytes. bytes.now) result self.new (front_at length self.old) }
    {
        if self.left.len() < length {
            return Err(BytesFault::Malformed);
        }
        let (front, rest) = self.left.split_at(length);
        self.left = rest;
        Ok(front)
    }

    #[tactic(auto, unfolding(crate::specs::Reading::number_at, crate::specs::Reading::front_at))]
    fn two(&mut self) -> Result<u16, BytesFault>
        ensures { Gives (λ n. n) result self.new (number_at w16 self.old) }
    {
        let front = self.front(2)?;
        Ok(u16::from_be_bytes(<[u8; 2]>::try_from(front).unwrap()))
    }

    #[tactic(auto, unfolding(crate::specs::Reading::number_at, crate::specs::Reading::front_at))]
    pub fn four(&mut self) -> Result<u32, BytesFault>
        ensures { Gives (λ n. n) result self.new (number_at w32 self.old) }
    {
        let front = self.front(4)?;
        Ok(u32::from_be_bytes(<[u8; 4]>::try_from(front).unwrap()))
    }

    #[tactic(auto, unfolding(crate::specs::Reading::number_at, crate::specs::Reading::front_at))]
    pub fn eight(&mut self) -> Result<u64, BytesFault>
        ensures { Gives (λ n. n) result self.new (number_at w64 self.old) }
    {
        let front = self.front(8)?;
        Ok(u64::from_be_bytes(<[u8; 8]>::try_from(front).unwrap()))
    }

    #[tactic(auto, unfolding(crate::specs::Reading::sized_at))]
    fn sized(&mut self, alloc: Global) -> Result<Vec<u8>, BytesFault>
        ensures { Gives (λ bytes. bytes.items) result self.new (sized_at self.old) }
    {
        let length = self.byte()?;
        let bytes = self.front(length as usize)?;
        Ok(bytes.to_vec(alloc)?)
    }

    #[tactic(auto, unfolding(crate::specs::Reading::counted_at))]
    fn counted(&mut self, alloc: Global) -> Result<Vec<u8>, BytesFault>
        ensures { Gives (λ bytes. bytes.items) result self.new (counted_at self.old) }
    {
        let length = self.two()?;
        let bytes = self.front(length as usize)?;
        Ok(bytes.to_vec(alloc)?)
    }

    pub fn key(&mut self, alloc: Global) -> Result<Key, BytesFault>
        ensures { Gives (λ key. key) result self.new (sized_at self.old) }
    {
        Ok(Key::from_vec(self.sized(alloc)?))
    }

    pub fn prefix(&mut self, alloc: Global) -> Result<Prefix, BytesFault>
        ensures { Gives (λ prefix. prefix) result self.new (sized_at self.old) }
    {
        Ok(Prefix::from_vec(self.sized(alloc)?))
    }

    pub fn code(&mut self, alloc: Global) -> Result<Code, BytesFault>
        ensures { Gives (λ code. code) result self.new (counted_at self.old) }
    {
        Ok(Code::from_vec(self.counted(alloc)?))
    }

    pub fn packed(&mut self, alloc: Global) -> Result<Packed, BytesFault>
        ensures { Gives (λ row. row) result self.new (counted_at self.old) }
    {
        Ok(Packed::from_vec(self.counted(alloc)?))
    }

    #[tactic(auto, unfolding(crate::specs::Reading::access_at))]
    pub fn access(&mut self) -> Result<Access, BytesFault>
        ensures { Gives (λ access. access) result self.new (access_at self.old) }
    {
        match self.byte()? {
            1 => Ok(Access::Browse),
            2 => Ok(Access::Stable),
            3 => Ok(Access::Repeatable),
            _ => Err(BytesFault::Malformed),
        }
    }

    #[tactic(auto, unfolding(crate::specs::Reading::optional_at))]
    pub fn optional_code(&mut self, alloc: Global) -> Result<Option<Code>, BytesFault>
        ensures { Gives (λ code. code) result self.new (optional_at self.old) }
    {
        match self.byte()? {
            0 => Ok(None),
            1 => Ok(Some(self.code(alloc)?)),
            _ => Err(BytesFault::Malformed),
        }
    }

    #[tactic(auto, unfolding(crate::specs::Reading::columns_at))]
    pub fn columns(&mut self, alloc: Global) -> Result<List<u8>, BytesFault>
        ensures { Gives (λ columns. columns) result self.new (columns_at self.old) }
    {
        let columns = List::from_vec(self.sized(alloc)?);
        if !all_differ(columns.items()) {
            return Err(BytesFault::Malformed);
        }
        Ok(columns)
    }

    #[tactic(auto, unfolding(crate::specs::Reading::rows_at))]
    pub fn rows(&mut self, alloc: Global) -> Result<List<Packed>, BytesFault>
        ensures { Gives (λ rows. rows) result self.new (rows_at self.old) }
    {
        let count = self.two()?;
        self.rows_of(alloc, count)
    }

    // So many rows. The room grows with the rows that are there.
    fn rows_of(&mut self, alloc: Global, count: u16) -> Result<List<Packed>, BytesFault>
        ensures { Gives (λ rows. rows) result self.new (rows_from count self.old) }
    {
        let mut rows = List::new(alloc);
        for _ in 0..count {
            let row = self.packed(alloc)?;
            rows.push(row)?;
        }
        Ok(rows)
    }

    #[tactic(auto, unfolding(crate::specs::Reading::mode_at))]
    pub fn mode(&mut self) -> Result<Mode, BytesFault>
        ensures { Gives (λ mode. mode) result self.new (mode_at self.old) }
    {
        match self.byte()? {
            1 => Ok(Mode::S),
            2 => Ok(Mode::X),
            _ => Err(BytesFault::Malformed),
        }
    }

    #[tactic(auto, unfolding(crate::specs::Reading::cause_at))]
    pub fn cause(&mut self) -> Result<Cause, BytesFault>
        ensures { Gives (λ cause. cause) result self.new (cause_at self.old) }
    {
        match self.byte()? {
            1 => Ok(Cause::Visits),
            2 => Ok(Cause::Lock),
            3 => Ok(Cause::Fault),
            4 => Ok(Cause::Buffer),
            _ => Err(BytesFault::Malformed),
        }
    }

    #[tactic(auto, unfolding(crate::specs::Reading::fault_at))]
    pub fn fault(&mut self) -> Result<Fault, BytesFault>
        ensures { Gives (λ fault. fault) result self.new (fault_at self.old) }
    {
        match self.byte()? {
            1 => Ok(Fault::Overflow),
            2 => Ok(Fault::ZeroDivide),
            3 => Ok(Fault::CheckFailed {
                number: self.four()?,
            }),
            _ => Err(BytesFault::Malformed),
        }
    }

    #[tactic(auto, unfolding(crate::specs::Reading::lock_at))]
    pub fn lock(&mut self, alloc: Global) -> Result<Lock, BytesFault>
        ensures { Gives (λ lock. lock) result self.new (lock_at self.old) }
    {
        let session = self.four()?;
        let ordinal = self.four()?;
        let prefix = self.prefix(alloc)?;
        let mode = self.mode()?;
        Ok(Lock {
            holder: TxnName { session, ordinal },
            prefix,
            mode,
        })
    }

    /// Whether all bytes are read.
    pub fn is_empty(&self) -> bool
        ensures { result ≡ nat_eq (length self.now) 0 }
    {
        self.left.is_empty()
    }
}

/// Whether no column stands twice.
pub fn all_differ(columns: &[u8]) -> bool
    ensures { result ≡ all_differ nat_eq columns.now }
{
    let mut left = columns;
    while let [column, others @ ..] = left {
        if others.contains(column) {
            return false;
        }
        left = others;
    }
    true
}
