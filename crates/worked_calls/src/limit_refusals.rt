//! Scripts whose types, quantities or rows are refused, each with the place of its first fault.
use crate::refusals::{Refused, expect_refused};
use statement_reader::Reason;
use std::test::Fail;

/// A table of two numbers.
const NUMBERS: &str = "TABLE t (k INT, v INT, PRIMARY KEY (k));";

/// The beginning of a table with many partitions.
const FIRSTS: &str =
    "TABLE t (k INT, PRIMARY KEY (k)) FIRST KEY (1),(2),(3),(4),(5),(6),(7),(8),(9),(10),(11),(12),(13),(14),";

/// 32 columns.
const COLUMNS: &str =
    "a CHAR(1), b CHAR(1), c CHAR(1), d CHAR(1), e CHAR(1), f CHAR(1), g CHAR(1), h CHAR(1), i CHAR(1), j CHAR(1), k CHAR(1), l CHAR(1), m CHAR(1), n CHAR(1), o CHAR(1), p CHAR(1), q CHAR(1), r CHAR(1), s CHAR(1), t CHAR(1), u CHAR(1), v CHAR(1), w CHAR(1), x CHAR(1), y CHAR(1), z CHAR(1), A CHAR(1), B CHAR(1), C CHAR(1), D CHAR(1), E CHAR(1), F CHAR(1),";

#[test]
fn types_are_refused(rt: HostRuntime) -> Result<(), Fail> {
    let cases: [Refused<'_>; 10] = [
        (
            Reason::WrongType,
            3,
            25,
            &[
                NUMBERS,
                "SESSION;",
                "SELECT k FROM t WHERE k + 'a' = 1 FOR BROWSE ACCESS;",
            ],
        ),
        // An expression is whole where the script ends with it.
        (
            Reason::WrongType,
            3,
            17,
            &[NUMBERS, "SESSION;", "SELECT k FROM t WHERE k"],
        ),
        (
            Reason::WrongType,
            1,
            34,
            &["TABLE t (k INT, PRIMARY KEY (k), CHECK (k + 1));"],
        ),
        // A key column, and a text for a number.
        (
            Reason::WrongType,
            3,
            14,
            &[NUMBERS, "SESSION;", "UPDATE t SET k = 1 FOR STABLE ACCESS;"],
        ),
        (
            Reason::WrongType,
            3,
            14,
            &[
                NUMBERS,
                "SESSION;",
                "UPDATE t SET v = 'a' FOR STABLE ACCESS;",
            ],
        ),
        (Reason::WrongType, 2, 12, &[NUMBERS, "LOAD t (1, 'a');"]),
        // More literals than the key has columns.
        (
            Reason::WrongType,
            1,
            53,
            &["TABLE t (k INT, PRIMARY KEY (k)) FIRST KEY (1), (2, 3);"],
        ),
        // Fewer literals than the table has columns.
        (Reason::WrongType, 2, 8, &[NUMBERS, "LOAD t (1);"]),
        (
            Reason::WrongType,
            3,
            22,
            &[NUMBERS, "SESSION;", "INSERT INTO t VALUES (1, 2, 3);"],
        ),
        // A comparison that is compared again.
        (
            Reason::WrongType,
            3,
            27,
            &[
                NUMBERS,
                "SESSION;",
                "SELECT k FROM t WHERE 'A' = k = 2 FOR BROWSE ACCESS;",
            ],
        ),
    ];
    expect_refused(&rt, rt.alloc(), &cases)
}

#[test]
fn quantities_are_refused(rt: HostRuntime) -> Result<(), Fail> {
    let cases: [Refused<'_>; 14] = [
        (Reason::OverLimit, 1, 9, &["QUANTUM 0;"]),
        (Reason::OverLimit, 1, 8, &["BUFFER 319;"]),
        (Reason::OverLimit, 1, 8, &["BUFFER 32769;"]),
        (Reason::OverLimit, 1, 10, &["PATIENCE 101;"]),
        (Reason::OverLimit, 1, 9, &["SERVERS 5;"]),
        (Reason::OverLimit, 1, 9, &["RESTART 11;"]),
        // A name of 31 bytes.
        (
            Reason::OverLimit,
            1,
            7,
            &["TABLE abcdefghijklmnopqrstuvwxyz01234 (k INT, PRIMARY KEY (k));"],
        ),
        // The width of a column alone, and the row that it makes too wide.
        (Reason::OverLimit, 1, 17, &["TABLE t (c CHAR(256"]),
        (
            Reason::OverLimit,
            1,
            17,
            &["TABLE t (k INT, c CHAR(249), PRIMARY KEY (k));"],
        ),
        // A key of 33 bytes.
        (
            Reason::OverLimit,
            1,
            45,
            &["TABLE t (k INT, c CHAR(25), PRIMARY KEY (k, c));"],
        ),
        (
            Reason::OverLimit,
            6,
            1,
            &[
                "TABLE a (k INT, PRIMARY KEY (k));",
                "TABLE b (k INT, PRIMARY KEY (k));",
                "TABLE c (k INT, PRIMARY KEY (k));",
                "TABLE d (k INT, PRIMARY KEY (k));",
                "",
                "TABLE e (k INT, PRIMARY KEY (k));",
            ],
        ),
        // The 17th partition, of the first table and of the second one, and the 33rd column.
        (Reason::OverLimit, 2, 6, &[FIRSTS, "(15),(16);"]),
        (
            Reason::OverLimit,
            3,
            1,
            &[FIRSTS, "(15);", "TABLE u (k INT, PRIMARY KEY (k));"],
        ),
        (
            Reason::OverLimit,
            3,
            1,
            &["TABLE t (", COLUMNS, "G CHAR(1)"],
        ),
    ];
    expect_refused(&rt, rt.alloc(), &cases)
}

#[test]
fn rows_are_refused(rt: HostRuntime) -> Result<(), Fail> {
    let cases: [Refused<'_>; 6] = [
        (
            Reason::NotRising,
            2,
            13,
            &[
                "TABLE t (k INT, PRIMARY KEY (k));",
                "LOAD t (2), (1);",
                "SESSION;",
                "COMMIT WORK;",
            ],
        ),
        (
            Reason::NotRising,
            1,
            49,
            &[
                "TABLE t (k INT, PRIMARY KEY (k)) FIRST KEY (5), (5);",
                "SESSION;",
                "COMMIT WORK;",
            ],
        ),
        // The first of them is the least key.
        (
            Reason::NotRising,
            1,
            44,
            &[
                "TABLE t (k INT, PRIMARY KEY (k)) FIRST KEY (-9223372036854775808);",
                "SESSION;",
                "COMMIT WORK;",
            ],
        ),
        (
            Reason::CheckFails,
            2,
            8,
            &[
                "TABLE t (k INT, PRIMARY KEY (k), CHECK (k > 0));",
                "LOAD t (0), (1);",
                "SESSION;",
                "COMMIT WORK;",
            ],
        ),
        (
            Reason::CheckFails,
            2,
            13,
            &[
                "TABLE t (k INT, PRIMARY KEY (k), CHECK (1 / (k - 1) <= 0));",
                "LOAD t (0), (1);",
                "SESSION;",
                "COMMIT WORK;",
            ],
        ),
        // Of a row that doesn't rise no CHECK is judged before that.
        (
            Reason::NotRising,
            2,
            13,
            &[
                "TABLE t (k INT, PRIMARY KEY (k), CHECK (k > 1));",
                "LOAD t (2), (1);",
                "SESSION;",
                "COMMIT WORK;",
            ],
        ),
    ];
    expect_refused(&rt, rt.alloc(), &cases)
}
