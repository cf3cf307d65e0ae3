//! Scripts with as much of one thing as they may have, and with one more of it.
use crate::refusals::first_fault;
use statement_reader::{Reason, ScriptFault};
use std::alloc::Global;
use std::process::Abort;
use std::test::Fail;

/// What stands so many times between a head and a tail.
fn repeated(
    alloc: Global,
    head: &[u8],
    piece: &[u8],
    count: usize,
    tail: &[u8],
) -> Result<Vec<u8>, Fail> {
    let mut text = head.to_vec(alloc)?;
    for _ in 0..count {
        text.extend_from_slice(piece)?;
    }
    text.extend_from_slice(tail)?;
    Ok(text)
}

/// A script that is read with so many of a piece, and refused at a place with one more.
#[derive(Clone, Copy)]
struct Bounded<'a> {
    head: &'a [u8],
    piece: &'a [u8],
    most: usize,
    tail: &'a [u8],
    line: u32,
    column: u32,
}

fn expect_bound(rt: &impl Abort, alloc: Global, case: &Bounded<'_>) -> Result<(), Fail> {
    let most = repeated(alloc, case.head, case.piece, case.most, case.tail)?;
    assert_eq!(rt; first_fault(alloc, most.as_slice())?, None);
    let count = case.most.saturating_add(1);
    let more = repeated(alloc, case.head, case.piece, count, case.tail)?;
    let wanted = ScriptFault {
        line: case.line,
        column: case.column,
        reason: Reason::OverLimit,
    };
    assert_eq!(rt; first_fault(alloc, more.as_slice())?, Some(wanted));
    Ok(())
}

/// Statements and works that may each run ten times, sessions and CHECKs, and additions in a tree.
const CASES: [Bounded<'static>; 5] = [
    Bounded {
        head: b"RESTART 9;\nTABLE t (k INT, v INT, PRIMARY KEY (k));\nSESSION;\n",
        piece: b"DELETE FROM t FOR STABLE ACCESS;\n",
        most: 50,
        tail: b"COMMIT WORK;\n",
        line: 54,
        column: 1,
    },
    Bounded {
        head: b"RESTART 9;\nTABLE t (k INT, v INT, PRIMARY KEY (k));\nSESSION;\n",
        piece: b"ROLLBACK WORK;\n",
        most: 100,
        tail: b"",
        line: 104,
        column: 1,
    },
    Bounded {
        head: b"TABLE t (k INT, PRIMARY KEY (k));\n",
        piece: b"SESSION; COMMIT WORK;\n",
        most: 8,
        tail: b"",
        line: 10,
        column: 1,
    },
    Bounded {
        head: b"TABLE t (k INT, PRIMARY KEY (k)",
        piece: b",\nCHECK (k > 0)",
        most: 8,
        tail: b");\nSESSION; COMMIT WORK;\n",
        line: 10,
        column: 1,
    },
    Bounded {
        head: b"TABLE t (k INT, PRIMARY KEY (k), CHECK (\nk ",
        piece: b"+ k",
        most: 30,
        tail: b" > 0));\nSESSION; COMMIT WORK;\n",
        line: 2,
        column: 1,
    },
];

#[test]
fn one_too_many_is_refused(rt: HostRuntime) -> Result<(), Fail> {
    for case in &CASES {
        expect_bound(&rt, rt.alloc(), case)?;
    }
    Ok(())
}

// Each piece has 518 bytes of code, and 1 = 1 has 19; 8,192 are allowed.
#[test]
fn a_long_code_is_refused(rt: HostRuntime) -> Result<(), Fail> {
    let alloc = rt.alloc();
    let text = repeated(alloc, b"'", b"A", 255, b"'")?;
    let pair = repeated(alloc, text.as_slice(), b" = ", 1, text.as_slice())?;
    let piece = repeated(alloc, b" AND ", pair.as_slice(), 1, b"")?;
    let case = Bounded {
        head: b"TABLE t (k INT, PRIMARY KEY (k));\nSESSION;\nDELETE FROM t WHERE\n1 = 1",
        piece: piece.as_slice(),
        most: 15,
        tail: b" FOR STABLE ACCESS;\nCOMMIT WORK;\n",
        line: 4,
        column: 1,
    };
    expect_bound(&rt, alloc, &case)
}

/// A number in so many parentheses.
fn enclosed(alloc: Global, count: usize) -> Result<Vec<u8>, Fail> {
    let head = b"TABLE t (k INT, PRIMARY KEY (k), CHECK (k <>\n";
    let opened = repeated(alloc, head, b"(", count, b"1")?;
    repeated(
        alloc,
        opened.as_slice(),
        b")",
        count,
        b"));\nSESSION; COMMIT WORK;\n",
    )
}

#[test]
fn the_65th_open_parenthesis_is_refused(rt: HostRuntime) -> Result<(), Fail> {
    let over = ScriptFault {
        line: 2,
        column: 65,
        reason: Reason::OverLimit,
    };
    for (count, wanted) in [(64, None), (65, Some(over))] {
        let text = enclosed(rt.alloc(), count)?;
        assert_eq!(rt; first_fault(rt.alloc(), text.as_slice())?, wanted);
    }
    Ok(())
}

/// A script that loads so many rows, the first on the second line, and inserts one where asked to.
fn loaded(alloc: Global, count: usize, inserts: bool) -> Result<Vec<u8>, Fail> {
    let mut text = b"TABLE t (k INT, PRIMARY KEY (k)); LOAD t".to_vec(alloc)?;
    for key in 0..count {
        let row = format!(in alloc; "\n({key}),")?;
        text.extend_from_slice(row.as_bytes())?;
    }
    text.pop();
    text.extend_from_slice(b";\nSESSION;\n")?;
    if inserts {
        text.extend_from_slice(b"INSERT INTO t VALUES (9999);\n")?;
    }
    text.extend_from_slice(b"COMMIT WORK;\n")?;
    Ok(text)
}

#[test]
fn the_4001st_row_is_refused(rt: HostRuntime) -> Result<(), Fail> {
    // How many are loaded, whether one is inserted, and the line of the one too many.
    let cases = [
        (4_000, false, None),
        (4_001, false, Some(4_002)),
        (4_000, true, Some(4_003)),
    ];
    for (count, inserts, line) in cases {
        let text = loaded(rt.alloc(), count, inserts)?;
        let wanted = line.map(|line| ScriptFault {
            line,
            column: 1,
            reason: Reason::OverLimit,
        });
        assert_eq!(rt; first_fault(rt.alloc(), text.as_slice())?, wanted);
    }
    Ok(())
}

#[test]
fn blanks_past_the_limit_are_too_large(rt: HostRuntime) -> Result<(), Fail> {
    let blanks = vec![in rt.alloc(); b' '; 4_194_305]?;
    let wanted = ScriptFault {
        line: 1,
        column: 4_194_305,
        reason: Reason::TooLarge,
    };
    assert_eq!(rt; first_fault(rt.alloc(), blanks.as_slice())?, Some(wanted));
    Ok(())
}
