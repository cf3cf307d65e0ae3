//! Where bytes come from.

ghost use Rattle.std.specs.Prelude.{◌≡◌, ℕ, ◌<◌, ◌≤◌, List, Option, length, take, IfOk, OnOk, OnErr};
ghost use Rattle.std.specs.Io.KnownBytes.{Consumes, Keeps, IsAtEnd};
ghost use Rattle.outside.specs.Counter.{Rose};

use crate::failure::Failed;

pub mod memory;
pub mod standard;

/// Where bytes come from.
///
/// Contracts see the bytes that are left, where the source tells them, and how many faults there
/// were.
pub trait Source {
    ghost left: { Self → Option (List ℕ) };

    ghost faults: { Self → ℕ };

    /// Reads the next bytes into the front of `into` and says how many they are. It gives none only
    /// at the end of the source, or where `into` is empty. What stands in `into` behind them, and
    /// after `Failed`, is left open. `Failed` loses no byte, and a later call may go on.
    fn read(&mut self, into: &mut [u8]) -> Result<usize, Failed>
        ensures within { IfOk result (λ count. count ≤ length into.new) }
        ensures next { IfOk result (λ count. Consumes (left self.old) (left self.new) (take count into.new)) }
        ensures end { IfOk result (λ count. count ≡ 0 → 0 < length into.new → IsAtEnd (left self.new)) }

        ensures no_fault { OnOk result (faults self.new ≡ faults self.old) }
        ensures failed { OnErr result (Rose (faults self.old) (faults self.new)) }
        ensures unread { OnErr result (Keeps (left self.old) (left self.new)) }
        ensures counted { faults self.old ≤ faults self.new };
}
