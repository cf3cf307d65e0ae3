//! A sink in memory.

ghost use Rattle.std.specs.Prelude.{◌≡◌, ◌≢◌, ◌≤◌, ◌-◌, ◌↔◌, ◌⊎◌, [], ◌++◌, length, take, min, IsErr, IfOk, OnOk, OnErr, Some};
ghost use Rattle.outside.specs.Calls.{FailsNext, no_call, succeeded, failed};

use super::Sink;
use crate::calls::Calls;
use crate::failure::{Failed, NoMemory};
use std::alloc::Global;
use std::marker::Model;

/// A sink over a room in memory, some of whose calls fail.
#[derive(Debug, Drop)]
pub struct MemorySink {
    bytes: Vec<u8>,
    room: usize,
    calls: Calls,
}

impl Model for MemorySink {
    ghost use Rattle.std.specs.Prelude.{◌≤◌, ◌+◌, vec_len, vec_capacity};
    ghost use Rattle.outside.specs.Store.{Store};

    ghost Value = { Store };

    ghost view = { λ sink. record {
      taken = sink.bytes.items;
      room = sink.room;
      calls = sink.calls;
    } };

    ghost invariant = { λ sink. vec_len sink.bytes + sink.room ≤ vec_capacity sink.bytes };
}

impl MemorySink {
    /// A sink that takes up to `room` bytes, and has all the memory for them. Its calls are counted
    /// from 1, and those whose numbers are in `fails` fail.
    pub fn new(alloc: Global, room: usize, fails: Vec<u64>) -> Result<MemorySink, NoMemory>
        ensures taken { IfOk result (λ sink. sink.taken ≡ []) }
        ensures room { IfOk result (λ sink. sink.room ≡ room) }
        ensures calls { IfOk result (λ sink. sink.calls ≡ no_call fails.items) }
    {
        Ok(MemorySink {
            bytes: Vec::with_capacity(alloc, room)?,
            room,
            calls: Calls::new(fails),
        })
    }

    /// The bytes taken so far.
    pub fn taken(&self) -> &[u8]
        ensures { result.now ≡ self.now.taken }
    {
        self.bytes.as_slice()
    }
}

impl Sink for MemorySink {
    ghost taken = { λ sink. Some sink.taken };

    ghost faults = { λ sink. sink.calls.faults };

    /// Takes as many bytes as there is room for. Fails exactly where the number of the call is one
    /// of those that fail, or there is no room for a byte of a piece that has any.
    fn write(&mut self, piece: &[u8]) -> Result<usize, Failed>
        ensures fails { IsErr result
            ↔ (FailsNext self.old.calls ⊎ ((self.old.room ≡ 0) × (piece.now ≢ []))) }
        ensures count { IfOk result (λ count. count ≡ min (length piece.now) self.old.room) }

        ensures taken { IfOk result (λ count. self.new.taken ≡ self.old.taken ++ take count piece.now) }
        ensures room { IfOk result (λ count. self.new.room ≡ self.old.room - count) }
        ensures ok { OnOk result (self.new.calls ≡ succeeded self.old.calls) }
        ensures untaken { OnErr result (self.new.taken ≡ self.old.taken) }
        ensures same_room { OnErr result (self.new.room ≡ self.old.room) }
        ensures err { OnErr result (self.new.calls ≡ failed self.old.calls) }
    {
        self.calls.next()?;
        if self.room == 0 && !piece.is_empty() {
            return Err(self.calls.fault());
        }
        let count = piece.len().min(self.room);
        self.bytes.extend_from_slice(&piece[..count]).unwrap();
        self.room -= count;
        Ok(count)
    }
}
