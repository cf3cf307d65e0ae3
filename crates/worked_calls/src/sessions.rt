//! The logs of sessions whose requests are answered from a list.
ghost use Rattle.sql_base.specs.Scripts.{IsScript};

use crate::read_scripts::script_of;
use crate::replying::{Wanted, is_wanted};
use dp_messages::{Ask, decode_reply};
use requester_fs::Session;
use session_grammar::{Action, Answer, LogEntry};
use sql_base::{Access, Mode, NoMemory, Script};
use std::alloc::Global;
use std::process::Abort;
use std::test::Fail;

/// What a session asks.
#[derive(Clone, Copy)]
enum Asked {
    /// Adds 1 to the value at a key of two bytes.
    Add([u8; 2]),
    Prepare,
    Commit(u64),
    Undo,
}

/// A reply: its bytes, and what they spell.
type Came = (&'static [u8], Wanted<'static>);

/// An entry of a session's log.
#[derive(Clone, Copy)]
enum Line {
    /// The partition, the sync, the ordinal, what is asked, and the reply.
    Asks(u32, u64, u32, Asked, Came),
    /// The ordinal, the floor and the stamp.
    Draws(u32, u64, u64),
}

const LOW: Asked = Asked::Add([0, 1]);

const HIGH: Asked = Asked::Add([3, 0xe8]);

const ENDED: Came = (&[1, 0, 0, 0, 0, 0, 1], Wanted::Ended(&[], 1));

const DONE: Came = (&[7], Wanted::Done);

const FLOOR_0: Came = (&[8, 0, 0, 0, 0, 0, 0, 0, 0], Wanted::Floor(0));

const FLOOR_1: Came = (&[8, 0, 0, 0, 0, 0, 0, 0, 1], Wanted::Floor(1));

/// The first attempt of session 1 holds the record of the low key, and then that of the high one.
const LOW_HELD: Came = (
    &[3, 0, 0, 0, 1, 0, 0, 0, 1, 8, 0x80, 0, 0, 0, 0, 0, 0, 1, 2],
    Wanted::Locked(1, &[0x80, 0, 0, 0, 0, 0, 0, 1], Mode::X),
);

const HIGH_HELD: Came = (
    &[
        3, 0, 0, 0, 1, 0, 0, 0, 1, 8, 0x80, 0, 0, 0, 0, 0, 3, 0xe8, 2,
    ],
    Wanted::Locked(1, &[0x80, 0, 0, 0, 0, 0, 3, 0xe8], Mode::X),
);

/// The first attempt of session 2 holds the record of the high key.
const HELD_BY_2: Came = (
    &[
        3, 0, 0, 0, 2, 0, 0, 0, 1, 8, 0x80, 0, 0, 0, 0, 0, 3, 0xe8, 2,
    ],
    Wanted::Locked(2, &[0x80, 0, 0, 0, 0, 0, 3, 0xe8], Mode::X),
);

const FIRST: [Line; 8] = [
    Line::Asks(0, 1, 1, LOW, ENDED),
    Line::Asks(1, 2, 1, HIGH, HELD_BY_2),
    Line::Asks(1, 3, 1, HIGH, ENDED),
    Line::Asks(0, 4, 1, Asked::Prepare, FLOOR_0),
    Line::Asks(1, 5, 1, Asked::Prepare, FLOOR_0),
    Line::Draws(1, 0, 1),
    Line::Asks(0, 6, 1, Asked::Commit(1), DONE),
    Line::Asks(1, 7, 1, Asked::Commit(1), DONE),
];

/// The second session with two restarts; without one it ends with the first five entries.
const SECOND: [Line; 15] = [
    Line::Asks(1, 1, 1, HIGH, ENDED),
    Line::Asks(0, 2, 1, LOW, LOW_HELD),
    Line::Asks(0, 3, 1, LOW, LOW_HELD),
    Line::Asks(0, 4, 1, Asked::Undo, DONE),
    Line::Asks(1, 5, 1, Asked::Undo, DONE),
    Line::Asks(1, 6, 2, HIGH, HIGH_HELD),
    Line::Asks(1, 7, 2, HIGH, HIGH_HELD),
    Line::Asks(1, 8, 2, Asked::Undo, DONE),
    Line::Asks(1, 9, 3, HIGH, ENDED),
    Line::Asks(0, 10, 3, LOW, ENDED),
    Line::Asks(0, 11, 3, Asked::Prepare, FLOOR_1),
    Line::Asks(1, 12, 3, Asked::Prepare, FLOOR_1),
    Line::Draws(3, 1, 2),
    Line::Asks(0, 13, 3, Asked::Commit(2), DONE),
    Line::Asks(1, 14, 3, Asked::Commit(2), DONE),
];

/// Whether the request adds 1 to the value at the key, by the record's own granule.
fn adds(ask: &Ask, number: [u8; 2]) -> bool {
    let [high, low] = number;
    let key: &[u8] = &[0x80, 0, 0, 0, 0, 0, high, low];
    let at: &[u8] = &[3, 0, 1, 0, 0, 0, 0, 0, 0, high, low, 0x20];
    let adding: &[u8] = &[1, 1, 0, 12, 3, 1, 1, 0, 0, 0, 0, 0, 0, 0, 1, 0x10];
    match ask {
        Ask::BeginUpdate {
            access: Access::Repeatable,
            granule,
            range,
            filter: Some(filter),
            sets,
        } => {
            granule.bytes() == key
                && range.low.bytes() == key
                && range.high.bytes() == key
                && filter.bytes() == at
                && sets.bytes() == adding
        }
        _ => false,
    }
}

fn is_asked(ask: &Ask, asked: Asked) -> bool {
    match asked {
        Asked::Add(number) => adds(ask, number),
        Asked::Prepare => matches!(ask, Ask::Prepare),
        Asked::Commit(wanted) => matches!(ask, Ask::EndCommit { stamp } if *stamp == wanted),
        Asked::Undo => matches!(ask, Ask::EndUndo),
    }
}

/// Whether the entry is the one of the line, and its path lost nothing.
fn is_line(entry: &LogEntry, session: u32, line: Line) -> bool {
    match (entry, line) {
        (
            LogEntry::Asked {
                part,
                sync,
                request,
                losses: 0,
                answer: Answer::Reply(reply),
            },
            Line::Asks(its_part, its_sync, ordinal, asked, (_bytes, wanted)),
        ) => {
            *part == its_part
                && *sync == its_sync
                && request.ordinal == ordinal
                && is_asked(&request.ask, asked)
                && is_wanted(reply, wanted)
        }
        (
            LogEntry::Drew {
                name,
                floor,
                answer: Answer::Stamp(stamp),
            },
            Line::Draws(ordinal, its_floor, its_stamp),
        ) => {
            name.session == session
                && name.ordinal == ordinal
                && *floor == its_floor
                && *stamp == its_stamp
        }
        _ => false,
    }
}

/// Gives the session the reply of these bytes, and says whether it may come to what is asked.
fn replied(alloc: Global, session: &mut Session<'_>, bytes: &[u8]) -> Result<bool, NoMemory> {
    let Ok(reply) = decode_reply(alloc, bytes) else {
        return Ok(false);
    };
    if !session.fits(&reply) {
        return Ok(false);
    }
    session.take(Answer::Reply(reply), 0)?;
    Ok(true)
}

/// Gives the session a stamp, and says whether it draws one.
fn stamped(session: &mut Session<'_>, stamp: u64) -> Result<bool, NoMemory> {
    let Action::Commit { .. } = session.next() else {
        return Ok(false);
    };
    session.take(Answer::Stamp(stamp), 0)?;
    Ok(true)
}

/// Lets the session do what the line says.
fn goes_on(alloc: Global, session: &mut Session<'_>, line: Line) -> Result<bool, NoMemory> {
    match line {
        Line::Asks(_part, _sync, _ordinal, _asked, (bytes, _wanted)) => {
            replied(alloc, session, bytes)
        }
        Line::Draws(_ordinal, _floor, stamp) => stamped(session, stamp),
    }
}

fn begun(alloc: Global, script: &Script, number: u32) -> Result<Session<'_>, Fail>
    requires { IsScript script.now }
{
    if number < 1 {
        return Err("no session".into());
    }
    if number as usize > script.sessions.items().len() {
        return Err("too few sessions".into());
    }
    Ok(Session::new(alloc, script, number)?)
}

/// Lets a session of the script do what the lines say, and compares its log with them once it has finished.
fn expect_log(
    rt: &impl Abort,
    alloc: Global,
    script: &[&str],
    number: u32,
    lines: &[Line],
) -> Result<(), Fail> {
    let script = script_of(alloc, script)?;
    let mut session = begun(alloc, &script, number)?;
    for line in lines {
        assert!(rt; goes_on(alloc, &mut session, *line)?);
    }
    assert!(rt; matches!(session.next(), Action::Finished));
    assert_eq!(rt; session.log().len(), lines.len());
    let log = session.into_log();
    let same = log
        .items()
        .iter()
        .zip(lines)
        .all(|(entry, line)| is_line(entry, number, *line));
    assert!(rt; same);
    Ok(())
}

/// Two partitions of one row each, and sessions that change both rows in opposite order.
const HALVES: &str =
    "TABLE t (k INT, v INT, PRIMARY KEY (k)) FIRST KEY (1000); LOAD t (1,10),(1000,20);";

const ADD_LOW: &str = "UPDATE t SET v = v + 1 WHERE k = 1 FOR REPEATABLE ACCESS;";

const ADD_HIGH: &str = "UPDATE t SET v = v + 1 WHERE k = 1000 FOR REPEATABLE ACCESS;";

const COMMIT: &str = "COMMIT WORK;";

#[test]
fn sessions_keep_their_logs(rt: HostRuntime) -> Result<(), Fail> {
    let [first, second, third, fourth, fifth, ..] = SECOND;
    let locked_out = [first, second, third, fourth, fifth];
    let cases: [(&str, u32, &[Line]); 3] = [
        ("PATIENCE 1;", 1, &FIRST),
        ("PATIENCE 1;", 2, &locked_out),
        ("PATIENCE 1; RESTART 2;", 2, &SECOND),
    ];
    for (limits, number, lines) in cases {
        let script = [
            limits, HALVES, "SESSION;", ADD_LOW, ADD_HIGH, COMMIT, "SESSION;", ADD_HIGH, ADD_LOW,
            COMMIT,
        ];
        expect_log(&rt, rt.alloc(), &script, number, lines)?;
    }
    Ok(())
}
