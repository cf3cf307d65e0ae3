//! A source in memory.

ghost use Rattle.std.specs.Prelude.{◌≡◌, ◌≤◌, ◌↔◌, length, take, drop, min, IsErr, IfOk, OnOk, OnErr, Some};
ghost use Rattle.outside.specs.Calls.{FailsNext, no_call, succeeded, failed};

use super::Source;
use crate::calls::Calls;
use crate::failure::Failed;
use std::marker::Model;

/// A source over bytes in memory, some of whose calls fail.
#[derive(Debug, Drop)]
pub struct MemorySource {
    bytes: Vec<u8>,
    given: usize,
    calls: Calls,
}

impl Model for MemorySource {
    ghost use Rattle.std.specs.Prelude.{◌≤◌, drop, length};
    ghost use Rattle.outside.specs.Supply.{Supply};

    ghost Value = { Supply };

    ghost view = { λ source. record {
      left = drop source.given source.bytes.items;
      calls = source.calls;
    } };

    ghost invariant = { λ source. source.given ≤ length source.bytes.items };
}

impl MemorySource {
    /// A source of these bytes. Its calls are counted from 1, and those whose numbers are in
    /// `fails` fail.
    pub fn new(bytes: Vec<u8>, fails: Vec<u64>) -> MemorySource
        ensures left { result.left ≡ bytes.items }
        ensures calls { result.calls ≡ no_call fails.items }
    {
        MemorySource {
            bytes,
            given: 0,
            calls: Calls::new(fails),
        }
    }
}

impl Source for MemorySource {
    ghost left = { λ source. Some source.left };

    ghost faults = { λ source. source.calls.faults };

    /// Gives as many bytes as there are and `into` has room for, and leaves what stands behind
    /// them. Fails exactly where the number of the call is one of those that fail.
    fn read(&mut self, into: &mut [u8]) -> Result<usize, Failed>
        ensures fails { IsErr result ↔ FailsNext self.old.calls }
        ensures count { IfOk result (λ count. count ≡ min (length into.new) (length self.old.left)) }
        ensures given { IfOk result (λ count. take count into.new ≡ take count self.old.left) }
        ensures behind { IfOk result (λ count. drop count into.new ≡ drop count into.old) }

        ensures left { IfOk result (λ count. self.new.left ≡ drop count self.old.left) }
        ensures ok { OnOk result (self.new.calls ≡ succeeded self.old.calls) }
        ensures unread { OnErr result (self.new.left ≡ self.old.left) }
        ensures err { OnErr result (self.new.calls ≡ failed self.old.calls) }
    {
        self.calls.next()?;
        let left = &self.bytes[self.given..];
        let count = into.len().min(left.len());
        into[..count].copy_from_slice(&left[..count]);
        self.given += count;
        Ok(count)
    }
}
