//! Reading to the end, and writing in pieces.
ghost use Rattle.std.specs.Prelude.{None};

use super::*;
use outside::{Failed, MemorySource, Sink};
use std::test::Fail;

/// How many bytes a source has, how many are read of it, and how many of what is left.
const READS: [(usize, usize, usize); 2] = [(70_000, 70_000, 0), (4_194_310, 4_194_305, 5)];

#[test]
fn sources_are_read_to_their_end(rt: HostRuntime) -> Result<(), Fail> {
    for (length, first, rest) in &READS {
        let bytes = vec![in rt.alloc(); b'x'; *length]?;
        let mut source = MemorySource::new(bytes, Vec::new(rt.alloc()));
        assert_eq!(rt; read_to_limit(rt.alloc(), &mut source)?.len(), *first);
        assert_eq!(rt; read_to_limit(rt.alloc(), &mut source)?.len(), *rest);
    }
    Ok(())
}

/// A sink that takes all, and keeps the length of the longest piece and how many bytes there were.
#[derive(Drop)]
struct Lengths {
    longest: usize,
    bytes: usize,
}

impl Sink for Lengths {
    ghost taken = { λ _. None };

    ghost faults = { λ _. 0 };

    fn write(&mut self, piece: &[u8]) -> Result<usize, Failed> {
        self.longest = self.longest.max(piece.len());
        self.bytes = self.bytes.saturating_add(piece.len());
        Ok(piece.len())
    }
}

#[test]
fn pieces_have_at_most_65_536_bytes(rt: HostRuntime) -> Result<(), Fail> {
    let bytes = vec![in rt.alloc(); b'x'; 70_000]?;
    let mut sink = Lengths {
        longest: 0,
        bytes: 0,
    };
    assert_eq!(rt; write_all(&mut sink, &bytes), Ok(()));
    assert_eq!(rt; (sink.longest, sink.bytes), (65_536, 70_000));
    Ok(())
}
