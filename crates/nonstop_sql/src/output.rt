//! Writes bytes to a sink, piece by piece.
ghost use Rattle.std.specs.Prelude.{ℕ, ◌≤◌, take, OnOk, OnErr};
ghost use Rattle.std.specs.Io.KnownBytes.{Appends};
ghost use Rattle.outside.specs.Counter.{Rose};

use outside::{Failed, Sink};

/// The most bytes that are handed over in one write.
const PIECE: usize = 65_536;

/// Writes all the bytes, in order and in pieces of at most 65,536. After `Failed` a part of them
/// from the front is written.
pub fn write_all<K: Sink>(sink: &mut K, bytes: &[u8]) -> Result<(), Failed>
    ensures written { OnOk result (Appends (K.taken sink.old) (K.taken sink.new) bytes.now) }

    ensures failed { OnErr result (Rose (K.faults sink.old) (K.faults sink.new)) }
    ensures front { OnErr result
        ((count : ℕ) × Appends (K.taken sink.old) (K.taken sink.new) (take count bytes.now)) }
    ensures counted { K.faults sink.old ≤ K.faults sink.new }
{
    let mut rest = bytes;
    while !rest.is_empty() {
        let piece = &rest[..rest.len().min(PIECE)];
        let count = sink.write(piece)?;
        rest = &rest[count..];
    }
    Ok(())
}
