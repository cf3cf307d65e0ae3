//! The calls of an end in memory.

ghost use Rattle.std.specs.Prelude.{◌≡◌, ◌↔◌, IsErr, OnOk, OnErr};
ghost use Rattle.outside.specs.Calls.{FailsNext, no_call, succeeded, failed};
ghost use Rattle.outside.specs.Counter.{raised};

use crate::failure::Failed;
use std::marker::Model;

/// The calls of an end in memory: which of them fail, and how many calls and faults there were.
#[derive(Debug, Drop)]
pub struct Calls {
    failing: Vec<u64>,
    made: u64,
    faults: u64,
}

impl Model for Calls {
    ghost use Rattle.outside.specs.Calls.{CallRecord};

    ghost Value = { CallRecord };

    ghost view = { λ calls. record {
      failing = calls.failing.items;
      made = calls.made;
      faults = calls.faults;
    } };
}

impl Calls {
    /// No call yet. Calls are counted from 1, and those whose numbers are in `failing` fail.
    pub fn new(failing: Vec<u64>) -> Calls
        ensures { result ≡ no_call failing.items }
    {
        Calls {
            failing,
            made: 0,
            faults: 0,
        }
    }

    /// Counts a call, and a fault if it is one of those that fail.
    pub fn next(&mut self) -> Result<(), Failed>
        ensures fails { IsErr result ↔ FailsNext self.old }
        ensures ok { OnOk result (self.new ≡ succeeded self.old) }
        ensures err { OnErr result (self.new ≡ failed self.old) }
    {
        self.made = self.made.saturating_add(1);
        if self.failing.contains(&self.made) {
            return Err(self.fault());
        }
        Ok(())
    }

    /// Counts a fault.
    pub fn fault(&mut self) -> Failed
        ensures { self.new ≡ record self.old { faults = raised self.old.faults } }
    {
        self.faults = self.faults.saturating_add(1);
        Failed
    }
}
