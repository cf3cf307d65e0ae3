//! Where bytes go to.

ghost use Rattle.std.specs.Prelude.{◌≡◌, ℕ, ◌<◌, ◌≤◌, List, Option, length, take, IfOk, OnOk, OnErr};
ghost use Rattle.std.specs.Io.KnownBytes.{Appends, Keeps};
ghost use Rattle.outside.specs.Counter.{Rose};

use crate::failure::Failed;

pub mod memory;
pub mod standard;

/// Where bytes go to.
///
/// Contracts see the bytes that were taken, where the sink tells them, and how many faults there
/// were.
pub trait Sink {
    ghost taken: { Self → Option (List ℕ) };

    ghost faults: { Self → ℕ };

    /// Takes bytes from the front of `piece` and says how many, at least one of a piece that has
    /// any. A piece with none is answered `Ok(0)`, or `Failed` as any other. `Failed` takes no byte,
    /// and a later call may go on.
    fn write(&mut self, piece: &[u8]) -> Result<usize, Failed>
        ensures within { IfOk result (λ count. count ≤ length piece.now) }
        ensures some { IfOk result (λ count. 0 < length piece.now → 0 < count) }
        ensures taken { IfOk result (λ count. Appends (taken self.old) (taken self.new) (take count piece.now)) }

        ensures no_fault { OnOk result (faults self.new ≡ faults self.old) }
        ensures failed { OnErr result (Rose (faults self.old) (faults self.new)) }
        ensures untaken { OnErr result (Keeps (taken self.old) (taken self.new)) }
        ensures counted { faults self.old ≤ faults self.new };
}
