//! Scripts that are refused, each with the reason, the line and the column of its first fault.
use crate::plain_checks::PlainChecks;
use crate::read_scripts::joined;
use statement_reader::{ReadFault, Reason, ScriptFault, read_script};
use std::alloc::Global;
use std::process::Abort;
use std::test::Fail;

/// The reason, line and column of the first fault of a script, and its lines, of which the last has no end.
pub type Refused<'a> = (Reason, u32, u32, &'a [&'a str]);

/// The first fault of the bytes, or none where they are a script.
pub fn first_fault(alloc: Global, text: &[u8]) -> Result<Option<ScriptFault>, Fail> {
    match read_script(alloc, &PlainChecks, text) {
        Ok(_script) => Ok(None),
        Err(ReadFault::Script(fault)) => Ok(Some(fault)),
        Err(ReadFault::NoMemory) => Err("out of memory".into()),
    }
}

/// Compares the first fault of each script with the one that is wanted.
pub fn expect_refused(rt: &impl Abort, alloc: Global, cases: &[Refused<'_>]) -> Result<(), Fail> {
    for (reason, line, column, lines) in cases {
        let text = joined(alloc, lines)?;
        let wanted = ScriptFault {
            line: *line,
            column: *column,
            reason: *reason,
        };
        let found = first_fault(alloc, text.as_slice())?;
        assert_eq!(rt; found, Some(wanted), "{lines:?}");
    }
    Ok(())
}

/// A table of two numbers, of a number and a text, and what ends each script.
const NUMBERS: &str = "TABLE t (k INT, v INT, PRIMARY KEY (k));";

const TEXTS: &str = "TABLE t (k INT, c CHAR(2), PRIMARY KEY (k));";

const COMMIT: &str = "COMMIT WORK;";

#[test]
fn bad_words_are_refused(rt: HostRuntime) -> Result<(), Fail> {
    let cases: [Refused<'_>; 7] = [
        (Reason::BadByte, 1, 17, &["TABLE t (k INT, ? INT"]),
        // Inside a text a byte that isn't printable comes before that the text isn't closed.
        (Reason::BadByte, 2, 14, &[TEXTS, "LOAD t (1, 'a\r", ""]),
        (Reason::OpenText, 2, 12, &[TEXTS, "LOAD t (1, 'A''"]),
        (Reason::OpenText, 2, 12, &[TEXTS, "LOAD t (1, 'A", "'"]),
        (
            Reason::NumberTooWide,
            1,
            9,
            &["QUANTUM 99999999999999999999;"],
        ),
        // The magnitude of the least number, without a sign before it.
        (
            Reason::NumberTooWide,
            3,
            27,
            &[
                NUMBERS,
                "SESSION;",
                "SELECT k FROM t WHERE k = 9223372036854775808 FOR BROWSE ACCESS;",
                COMMIT,
            ],
        ),
        // A fault of the words stands before an earlier one of the grammar.
        (Reason::BadByte, 2, 1, &["TABLE TABLE", "#"]),
    ];
    expect_refused(&rt, rt.alloc(), &cases)
}

#[test]
fn bad_forms_are_refused(rt: HostRuntime) -> Result<(), Fail> {
    let cases: [Refused<'_>; 8] = [
        (Reason::Unexpected, 1, 1, &[]),
        (Reason::Unexpected, 2, 1, &[NUMBERS, ""]),
        (
            Reason::Unexpected,
            3,
            33,
            &[NUMBERS, "SESSION;", "SELECT k FROM t WHERE k + 'a' = ;"],
        ),
        // BROWSE is for SELECT alone.
        (
            Reason::Unexpected,
            3,
            24,
            &[NUMBERS, "SESSION;", "UPDATE t SET v = 1 FOR BROWSE ACCESS;"],
        ),
        // Limits stand in their order.
        (Reason::Unexpected, 1, 13, &["BUFFER 400; QUANTUM 5;"]),
        (Reason::TextTooLong, 2, 12, &[TEXTS, "LOAD t (1, 'abc');"]),
        (
            Reason::TextTooLong,
            1,
            49,
            &["TABLE t (c CHAR(2), PRIMARY KEY (c)) FIRST KEY ('abc');"],
        ),
        (
            Reason::TextTooLong,
            3,
            14,
            &[
                TEXTS,
                "SESSION;",
                "UPDATE t SET c = 'abc' FOR REPEATABLE ACCESS;",
                COMMIT,
            ],
        ),
    ];
    expect_refused(&rt, rt.alloc(), &cases)
}

#[test]
fn bad_names_are_refused(rt: HostRuntime) -> Result<(), Fail> {
    let cases: [Refused<'_>; 10] = [
        (
            Reason::UnknownName,
            3,
            15,
            &[
                "TABLE t (k INT, PRIMARY KEY (k));",
                "SESSION;",
                "SELECT k FROM u FOR BROWSE ACCESS;",
                COMMIT,
            ],
        ),
        (
            Reason::UnknownName,
            1,
            34,
            &["TABLE acct (no INT, PRIMARY KEY (n"],
        ),
        (
            Reason::UnknownName,
            3,
            25,
            &[
                NUMBERS,
                "SESSION;",
                "DELETE FROM t WHERE k = w FOR STABLE ACCESS;",
            ],
        ),
        (Reason::UnknownName, 2, 6, &[NUMBERS, "LOAD u (1, 2);"]),
        (
            Reason::Repeated,
            1,
            17,
            &["TABLE t (k INT, k INT, PRIMARY KEY (k));"],
        ),
        (Reason::Repeated, 2, 7, &[NUMBERS, NUMBERS]),
        (
            Reason::Repeated,
            1,
            40,
            &["TABLE t (k INT, v INT, PRIMARY KEY (k, k));"],
        ),
        (
            Reason::Repeated,
            3,
            6,
            &[NUMBERS, "LOAD t (1, 10);", "LOAD t (2, 20);"],
        ),
        (
            Reason::Repeated,
            3,
            14,
            &[
                NUMBERS,
                "SESSION;",
                "SELECT k, v, k FROM t FOR STABLE ACCESS;",
            ],
        ),
        (
            Reason::Repeated,
            3,
            21,
            &[
                NUMBERS,
                "SESSION;",
                "UPDATE t SET v = 1, v = 2 FOR STABLE ACCESS;",
            ],
        ),
    ];
    expect_refused(&rt, rt.alloc(), &cases)
}
