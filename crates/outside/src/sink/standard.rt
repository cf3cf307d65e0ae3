//! A sink over a writer of std.

ghost use Rattle.std.specs.Prelude.{◌≡◌};

use super::Sink;
use crate::failure::Failed;
use std::io::Write;

/// A sink over any writer of std.
///
/// It tells what its writer tells of the bytes taken: nothing for a standard stream. Each error of
/// the writer, also an interrupted write, and each write that takes no byte of a piece that has
/// any, is counted and answered `Failed`. It never flushes, so its writer is to have no buffer of
/// its own, as the standard streams have none.
#[derive(Debug, Drop)]
pub struct StdSink<W> {
    writer: W,
    faults: u64,
}

impl<W: Write> StdSink<W> {
    pub fn new(writer: W) -> StdSink<W>
        ensures taken { ⟦<StdSink<W> as Sink>⟧.taken result ≡ W.contents writer }
        ensures faults { ⟦<StdSink<W> as Sink>⟧.faults result ≡ 0 }
    {
        StdSink { writer, faults: 0 }
    }
}

impl<W: Write> Sink for StdSink<W> {
    ghost taken = { λ sink. W.contents sink.writer };

    ghost faults = { λ sink. sink.faults };

    fn write(&mut self, piece: &[u8]) -> Result<usize, Failed> {
        match self.writer.write(piece) {
            Ok(count) if 0 < count || piece.is_empty() => Ok(count),
            _ => {
                self.faults = self.faults.saturating_add(1);
                Err(Failed)
            }
        }
    }
}
