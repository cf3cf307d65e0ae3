//! Requests that a partition serves one after the other, what it replies, and what is left of it.
use crate::asking::Deed;
use crate::replying::Wanted;
use crate::serving::Step;
use sql_base::{Access, Cause, Fault, Mode};

/// A table and its rows, the requests with their replies, and the rows, locks and subsets after them, with the
/// greatest stamp that ended there.
#[derive(Drop)]
pub struct Case {
    pub script: &'static [&'static str],
    pub steps: &'static [Step<'static>],
    pub rows: &'static [(i64, i64)],
    pub locks: usize,
    pub subsets: usize,
    pub high: u64,
}

pub const TABLE: &str = "TABLE t (k INT, v INT, PRIMARY KEY (k));";

pub const LOAD: &str = "LOAD t (1,10),(2,20),(3,30),(4,40),(5,50);";

const LOADED: &[(i64, i64)] = &[(1, 10), (2, 20), (3, 30), (4, 40), (5, 50)];

// Rows as they are packed.
const ONE: &[u8] = b"\0\0\0\0\0\0\0\x01\0\0\0\0\0\0\0\x0a";

const TWO: &[u8] = b"\0\0\0\0\0\0\0\x02\0\0\0\0\0\0\0\x14";

const THREE: &[u8] = b"\0\0\0\0\0\0\0\x03\0\0\0\0\0\0\0\x1e";

const CHANGED_THREE: &[u8] = b"\0\0\0\0\0\0\0\x03\0\0\0\0\0\0\0\x1f";

const FOUR: &[u8] = b"\0\0\0\0\0\0\0\x04\0\0\0\0\0\0\0\x28";

const FIVE: &[u8] = b"\0\0\0\0\0\0\0\x05\0\0\0\0\0\0\0\x32";

const KEY_ONE: &[u8] = b"\x80\0\0\0\0\0\0\x01";

const KEY_THREE: &[u8] = b"\x80\0\0\0\0\0\0\x03";

pub const READ: Deed = Deed::Read(Access::Stable);

pub const CASES: [Case; 17] = [
    // A changed record stops a reader until the change is undone.
    Case {
        script: &[TABLE, LOAD],
        steps: &[
            (1, 1, Deed::Add(3), Wanted::Ended(&[], 1)),
            (2, 1, READ, Wanted::Redrive(2, Cause::Lock, &[ONE, TWO], 0)),
            (
                2,
                1,
                Deed::GoOn(1, 2),
                Wanted::Locked(1, KEY_THREE, Mode::X),
            ),
            (1, 1, Deed::Undo, Wanted::Done),
            (
                2,
                1,
                Deed::GoOn(1, 2),
                Wanted::Ended(&[THREE, FOUR, FIVE], 0),
            ),
        ],
        rows: LOADED,
        locks: 0,
        subsets: 0,
        high: 0,
    },
    // So does a deleted one.
    Case {
        script: &[TABLE, LOAD],
        steps: &[
            (1, 1, Deed::Delete(3), Wanted::Ended(&[], 1)),
            (2, 1, READ, Wanted::Redrive(2, Cause::Lock, &[ONE, TWO], 0)),
            (
                2,
                1,
                Deed::GoOn(1, 2),
                Wanted::Locked(1, KEY_THREE, Mode::X),
            ),
        ],
        rows: &[(1, 10), (2, 20), (4, 40), (5, 50)],
        locks: 1,
        subsets: 1,
        high: 0,
    },
    // A browser reads what others have changed.
    Case {
        script: &[TABLE, LOAD],
        steps: &[
            (1, 1, Deed::Add(3), Wanted::Ended(&[], 1)),
            (
                2,
                1,
                Deed::Read(Access::Browse),
                Wanted::Ended(&[ONE, TWO, CHANGED_THREE, FOUR, FIVE], 0),
            ),
        ],
        rows: &[(1, 10), (2, 20), (3, 31), (4, 40), (5, 50)],
        locks: 1,
        subsets: 0,
        high: 0,
    },
    // What was read again and again takes no new record.
    Case {
        script: &[TABLE, LOAD],
        steps: &[
            (
                1,
                1,
                Deed::ReadFromTwo,
                Wanted::Ended(&[TWO, THREE, FOUR, FIVE], 0),
            ),
            (2, 1, Deed::Insert(9, 90), Wanted::Locked(1, b"", Mode::S)),
        ],
        rows: LOADED,
        locks: 1,
        subsets: 0,
        high: 0,
    },
    // Undo gives back what was deleted and inserted anew.
    Case {
        script: &[TABLE, LOAD],
        steps: &[
            (1, 1, Deed::Delete(3), Wanted::Ended(&[], 1)),
            (1, 1, Deed::Insert(3, 7), Wanted::Done),
            (1, 1, Deed::Undo, Wanted::Done),
        ],
        rows: LOADED,
        locks: 0,
        subsets: 0,
        high: 0,
    },
    // An update that fails at its first record changes nothing, and its transaction is live.
    Case {
        script: &[
            "TABLE t (k INT, v INT, PRIMARY KEY (k), CHECK (v >= 0));",
            LOAD,
        ],
        steps: &[
            (
                1,
                1,
                Deed::TakeFromAll,
                Wanted::Failed(1, Fault::CheckFailed { number: 1 }),
            ),
            (1, 1, Deed::Prepare, Wanted::Floor(0)),
        ],
        rows: LOADED,
        locks: 0,
        subsets: 0,
        high: 0,
    },
    // A key that stands, and a Prepare of nothing.
    Case {
        script: &[TABLE, LOAD],
        steps: &[
            (1, 1, Deed::Insert(3, 1), Wanted::Duplicate(3)),
            (2, 1, Deed::Prepare, Wanted::NotKnown),
            (2, 1, Deed::Commit(1), Wanted::NotKnown),
        ],
        rows: LOADED,
        locks: 0,
        subsets: 0,
        high: 0,
    },
    // Two records a quantum. The first one locks both, and then the whole table.
    Case {
        script: &["QUANTUM 2;", TABLE, LOAD],
        steps: &[
            (
                1,
                1,
                Deed::AddToAll(Access::Repeatable),
                Wanted::Redrive(2, Cause::Visits, &[], 2),
            ),
            (
                1,
                1,
                Deed::GoOn(1, 2),
                Wanted::Redrive(4, Cause::Visits, &[], 2),
            ),
            (1, 1, Deed::GoOn(1, 4), Wanted::Ended(&[], 1)),
        ],
        rows: &[(1, 11), (2, 21), (3, 31), (4, 41), (5, 51)],
        locks: 3,
        subsets: 0,
        high: 0,
    },
    // One record by its key.
    Case {
        script: &[TABLE, LOAD],
        steps: &[
            (1, 1, Deed::ReadKey(3), Wanted::Row(THREE)),
            (1, 1, Deed::ReadKey(7), Wanted::NoRow),
            (2, 1, Deed::Add(3), Wanted::Locked(1, KEY_THREE, Mode::S)),
        ],
        rows: LOADED,
        locks: 2,
        subsets: 0,
        high: 0,
    },
    // A code with a byte too many, and bounds, an access and a row that can't be: nothing is live.
    Case {
        script: &[TABLE, LOAD],
        steps: &[
            (1, 1, Deed::ReadByBadCode, Wanted::BadCode),
            (1, 1, Deed::ReadBackwards, Wanted::BadShape),
            (1, 1, Deed::AddToAll(Access::Browse), Wanted::BadShape),
            (1, 1, Deed::InsertShort, Wanted::BadShape),
            (1, 1, Deed::Prepare, Wanted::NotKnown),
        ],
        rows: LOADED,
        locks: 0,
        subsets: 0,
        high: 0,
    },
    // A subset that there isn't, and a key at which the subset doesn't stand.
    Case {
        script: &["QUANTUM 2;", TABLE, LOAD],
        steps: &[
            (
                1,
                1,
                READ,
                Wanted::Redrive(2, Cause::Visits, &[ONE, TWO], 0),
            ),
            (1, 1, Deed::GoOn(9, 2), Wanted::NoSubset),
            (2, 1, Deed::GoOn(1, 2), Wanted::NoSubset),
            (1, 1, Deed::GoOn(1, 1), Wanted::WrongKey(2)),
        ],
        rows: LOADED,
        locks: 0,
        subsets: 1,
        high: 0,
    },
    // Floors and stamps, and what comes after a Prepare and after an End.
    Case {
        script: &[TABLE, LOAD],
        steps: &[
            (1, 1, Deed::Add(3), Wanted::Ended(&[], 1)),
            (1, 1, Deed::Commit(5), Wanted::NotPrepared),
            (1, 1, Deed::Prepare, Wanted::Floor(0)),
            (1, 1, READ, Wanted::AfterPrepare(0)),
            (1, 1, Deed::Commit(0), Wanted::StampLow(0)),
            (1, 1, Deed::Commit(7), Wanted::Done),
            (1, 1, READ, Wanted::AfterEnd(1)),
            (2, 1, Deed::Insert(9, 90), Wanted::Done),
            (2, 1, Deed::Prepare, Wanted::Floor(7)),
            (2, 1, Deed::Commit(7), Wanted::StampLow(7)),
            (2, 1, Deed::Commit(8), Wanted::Done),
        ],
        rows: &[(1, 10), (2, 20), (3, 31), (4, 40), (5, 50), (9, 90)],
        locks: 0,
        subsets: 0,
        high: 8,
    },
    // An attempt that begins before the one before it has ended.
    Case {
        script: &[TABLE, LOAD],
        steps: &[
            (1, 1, Deed::Insert(9, 90), Wanted::Done),
            (1, 2, Deed::Insert(8, 80), Wanted::StillLive(1)),
            (1, 1, Deed::Undo, Wanted::Done),
            (1, 2, Deed::Insert(8, 80), Wanted::Done),
        ],
        rows: &[(1, 10), (2, 20), (3, 30), (4, 40), (5, 50), (8, 80)],
        locks: 1,
        subsets: 0,
        high: 0,
    },
    // Locks of the whole table.
    Case {
        script: &[TABLE, LOAD],
        steps: &[
            (1, 1, Deed::Lock(Mode::S), Wanted::Done),
            (2, 1, Deed::Lock(Mode::S), Wanted::Done),
            (2, 1, Deed::Lock(Mode::X), Wanted::Locked(1, b"", Mode::S)),
            (1, 1, Deed::Add(3), Wanted::Locked(2, b"", Mode::S)),
        ],
        rows: LOADED,
        locks: 2,
        subsets: 0,
        high: 0,
    },
    // The first record that a subset meets is another's.
    Case {
        script: &[TABLE, LOAD],
        steps: &[
            (1, 1, Deed::Add(1), Wanted::Ended(&[], 1)),
            (2, 1, READ, Wanted::Locked(1, KEY_ONE, Mode::X)),
            (2, 1, Deed::ReadKey(1), Wanted::Locked(1, KEY_ONE, Mode::X)),
            (2, 1, Deed::Add(1), Wanted::Locked(1, KEY_ONE, Mode::X)),
            (2, 1, Deed::Undo, Wanted::Done),
        ],
        rows: &[(1, 11), (2, 20), (3, 30), (4, 40), (5, 50)],
        locks: 1,
        subsets: 0,
        high: 0,
    },
    // A fault after the first record ends the quantum before it, and the next one at it.
    Case {
        script: &[
            "TABLE t (k INT, v INT, PRIMARY KEY (k), CHECK (v >= 0));",
            "LOAD t (1,40),(2,20);",
        ],
        steps: &[
            (
                1,
                1,
                Deed::TakeFromAll,
                Wanted::Redrive(1, Cause::Fault, &[], 1),
            ),
            (
                1,
                1,
                Deed::GoOn(1, 1),
                Wanted::Failed(2, Fault::CheckFailed { number: 1 }),
            ),
        ],
        rows: &[(1, 10), (2, 20)],
        locks: 2,
        subsets: 1,
        high: 0,
    },
    // A CHECK with each operator, and texts that no row has: of k above 2 the value isn't 7.
    Case {
        script: &[
            "TABLE t (k INT, v INT, PRIMARY KEY (k), CHECK ('A' = 'B' OR NOT (v + 1 = 8 AND k > 2)));",
            "LOAD t (1,7);",
        ],
        steps: &[
            (1, 1, Deed::Insert(2, 7), Wanted::Done),
            (
                1,
                1,
                Deed::Insert(9, 7),
                Wanted::Failed(9, Fault::CheckFailed { number: 1 }),
            ),
            (1, 1, Deed::Insert(9, 8), Wanted::Done),
        ],
        rows: &[(1, 7), (2, 7), (9, 8)],
        locks: 2,
        subsets: 0,
        high: 0,
    },
];
