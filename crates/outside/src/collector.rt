//! What sees the entries of a log.

ghost use Rattle.std.specs.Prelude.{◌≡◌, ◌++◌, OnOk, OnErr};
ghost use Rattle.std.specs.Io.{StartsWith};

use crate::failure::NoMemory;

/// One entry of a log, in numbers.
#[derive(Clone, Copy, Debug, PartialEq, Eq)]
pub struct Seen {
    /// The number of the partition, from 0.
    pub part: u32,
    /// The place in the partition's history, from 0.
    pub place: u64,
    /// The number of the session that sent the request.
    pub opener: u32,
    /// The number by which the partition knows a request that is sent again.
    pub sync: u64,
    /// The number of the transaction among those of its session, from 1.
    pub ordinal: u32,
    /// The kind of the request.
    pub request: u8,
    /// The kind of the reply.
    pub reply: u8,
    /// The cause of a redrive, or 0.
    pub cause: u8,
    /// How many rows the reply brings.
    pub rows: u32,
    /// How many records the request changed.
    pub changed: u32,
    /// The mode of the lock that the request asks for: 1 for S, 2 for X, 0 for none.
    pub mode: u8,
}

/// What sees the entries of a log one after another, and says a text of them.
///
/// Contracts see its content, how an entry changes that, and the text of a content. The last two never change.
pub trait Collector: Drop {
    ghost use Rattle.outside.specs.Collecting.{Collecting, behind, said};

    ghost collecting: { Self → Collecting };

    /// Takes an entry into the content, or leaves the content as it is where memory is out.
    fn see(&mut self, entry: &Seen) -> Result<(), NoMemory>
        ensures ok { OnOk result (collecting self.new ≡ behind entry.now (collecting self.old)) }
        ensures err { OnErr result (collecting self.new ≡ collecting self.old) };

    /// Appends the text of the content to `out`. After `NoMemory` a part of it may stand there.
    fn text(&self, out: &mut Vec<u8>) -> Result<(), NoMemory>
        ensures ok { OnOk result (out.new.items ≡ out.old.items ++ said (collecting self.now)) }
        ensures err { OnErr result (StartsWith out.new.items out.old.items) };
}
