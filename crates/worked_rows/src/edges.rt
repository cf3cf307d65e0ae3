//! The sources, sinks, wires and collectors at the edges of the program.

use outside::{
    Collector, Cycle, Failed, Listed, MemorySink, MemorySource, NoMemory, Passage, Seen, Sink,
    Source, StdSink, StdSource, Wire,
};
use std::alloc::AllocError;
use std::io;
use std::io::{Cursor, ErrorKind, Read, Write};
use std::process::Abort;
use std::test::Fail;

/// A stream of std whose second call fails.
#[derive(Drop)]
struct FailsSecond<S> {
    stream: S,
    calls: u64,
}

impl<S> FailsSecond<S> {
    fn new(stream: S) -> Self {
        FailsSecond { stream, calls: 0 }
    }

    fn call(&mut self) -> io::Result<()> {
        self.calls = self.calls.saturating_add(1);
        if self.calls == 2 {
            return Err(io::Error::from(ErrorKind::Interrupted));
        }
        Ok(())
    }
}

impl<R: Read> Read for FailsSecond<R> {
    fn read(&mut self, buf: &mut [u8]) -> io::Result<usize> {
        self.call()?;
        self.stream.read(buf)
    }
}

impl<W: Write> Write for FailsSecond<W> {
    fn write(&mut self, buf: &[u8]) -> io::Result<usize> {
        self.call()?;
        self.stream.write(buf)
    }

    fn flush(&mut self) -> io::Result<()> {
        self.stream.flush()
    }
}

/// Reads pieces of two bytes, and compares each with the bytes that are expected, or `None` for
/// `Failed`.
fn expect_reads<S: Source>(rt: &impl Abort, source: &mut S, expected: &[Option<&[u8]>]) {
    for want in expected {
        let mut piece = [0; 2];
        let got = match source.read(&mut piece) {
            Ok(count) => Some(&piece[..count]),
            Err(Failed) => None,
        };
        assert_eq!(rt; got, *want);
    }
}

/// Writes each piece, and compares the answer with the count that is expected, or `None` for
/// `Failed`.
fn expect_writes<K: Sink>(rt: &impl Abort, sink: &mut K, expected: &[(&[u8], Option<usize>)]) {
    for (piece, want) in expected {
        let got = sink.write(piece).ok();
        assert_eq!(rt; got, *want, "at {piece:?}");
    }
}

#[test]
fn memory_source_fails_where_listed(rt: HostRuntime) -> Result<(), Fail> {
    let bytes = b"abcde".to_vec(rt.alloc())?;
    let mut source = MemorySource::new(bytes, vec![in rt.alloc(); 2, 4]?);
    let expected: [Option<&[u8]>; 6] = [
        Some(b"ab"),
        None,
        Some(b"cd"),
        None,
        Some(b"e"),
        Some(b""),
    ];
    expect_reads(&rt, &mut source, &expected);
    Ok(())
}

#[test]
fn memory_sink_takes_what_fits(rt: HostRuntime) -> Result<(), Fail> {
    let mut sink = MemorySink::new(rt.alloc(), 3, vec![in rt.alloc(); 1]?)?;
    let expected: [(&[u8], Option<usize>); 5] = [
        (b"ab", None),
        (b"ab", Some(2)),
        (b"cd", Some(1)),
        (b"d", None),
        (b"", Some(0)),
    ];
    expect_writes(&rt, &mut sink, &expected);
    assert_eq!(rt; sink.taken(), b"abc".as_slice());
    Ok(())
}

#[test]
fn std_source_goes_on_after_a_failure(rt: HostRuntime) {
    let reader: &[u8] = b"abc";
    let mut source = StdSource::new(FailsSecond::new(reader));
    let expected: [Option<&[u8]>; 4] = [Some(b"ab"), None, Some(b"c"), Some(b"")];
    expect_reads(&rt, &mut source, &expected);
}

#[test]
fn std_sink_fails_where_no_byte_is_taken(rt: HostRuntime) {
    let mut sink = StdSink::new(FailsSecond::new(Cursor::new([0u8; 3])));
    let expected: [(&[u8], Option<usize>); 5] = [
        (b"ab", Some(2)),
        (b"cd", None),
        (b"cd", Some(1)),
        (b"d", None),
        (b"", Some(0)),
    ];
    expect_writes(&rt, &mut sink, &expected);
}

/// Tells the answers of the wire, and compares them with those that are expected.
fn expect_answers(rt: &impl Abort, wire: &mut Box<dyn Wire + Send>, expected: &[Passage]) {
    wire.start(1);
    for want in expected {
        assert_eq!(rt; wire.pass(), *want);
    }
}

#[test]
fn wires_tell_their_lists(rt: HostRuntime) -> Result<(), Fail> {
    let alloc = rt.alloc();
    let list = [Passage::LoseRequest, Passage::LoseReply, Passage::Repeat];
    let cycled = list.to_vec(alloc)?;
    assert!(rt; !cycled.is_empty());
    let mut cycle: Box<dyn Wire + Send> = Box::new(alloc, Cycle::new(cycled))?;
    let mut listed: Box<dyn Wire + Send> = Box::new(alloc, Listed::new(list.to_vec(alloc)?))?;
    let [first, second, third] = list;
    expect_answers(&rt, &mut cycle, &[first, second, third, first, second]);
    let carry = Passage::Carry;
    expect_answers(&rt, &mut listed, &[first, second, third, carry, carry]);
    Ok(())
}

/// A collector whose content is the kinds of the requests that it saw, and whose text is those and
/// a byte of its own.
#[derive(Drop)]
struct Requests {
    requests: Vec<u8>,
    last: u8,
}

impl Collector for Requests {
    ghost use Rattle.std.specs.Prelude.{◌++◌, [], ◌∷◌};

    ghost collecting = { λ collector. record {
      content = collector.requests.items;
      step = λ entry content. content ++ entry.request ∷ [];
      form = λ content. content ++ collector.last ∷ [];
    } };

    fn see(&mut self, entry: &Seen) -> Result<(), NoMemory> {
        self.requests.push(entry.request).map_err(AllocError::from)?;
        Ok(())
    }

    fn text(&self, out: &mut Vec<u8>) -> Result<(), NoMemory> {
        out.extend_from_slice(&self.requests)?;
        out.push(self.last).map_err(AllocError::from)?;
        Ok(())
    }
}

#[test]
fn boxed_collector_appends_its_text(rt: HostRuntime) -> Result<(), Fail> {
    let requests = Requests {
        requests: Vec::new(rt.alloc()),
        last: b'.',
    };
    let mut collector: Box<dyn Collector> = Box::new(rt.alloc(), requests)?;
    let mut entry = Seen {
        part: 0,
        place: 0,
        opener: 1,
        sync: 1,
        ordinal: 1,
        request: b'b',
        reply: 1,
        cause: 0,
        rows: 0,
        changed: 0,
        mode: 0,
    };
    collector.see(&entry)?;
    entry.request = b'c';
    collector.see(&entry)?;
    let mut out = b"a".to_vec(rt.alloc())?;
    collector.text(&mut out)?;
    assert_eq!(rt; out.as_slice(), b"abc.".as_slice());
    Ok(())
}
