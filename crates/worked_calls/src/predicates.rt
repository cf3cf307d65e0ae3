//! What becomes of CHECKs and SET lists on rows, over tables of scripts.
ghost use Rattle.sql_base.specs.Scripts.{IsScript};

use crate::read_scripts::{script_of, statement_in, table_in};
use constraint_checks::{compile_checks, first_failing};
use predicate_runner::Verified;
use sql_base::{EvalFault, Fault, NoMemory, Row, Script, Statement, Value};
use std::alloc::Global;
use std::test::Fail;
use update_expressions::{ApplyFault, apply, compile_sets, verify_sets};

/// The CHECKs of a table, a row, the codes of the CHECKs, and the fault of the first that doesn't hold.
type Checked<'a> = (&'a str, &'a str, &'a [&'a [u8]], Option<Fault>);

// 1 / (k - k) = 1, and k < 0
const DIVIDES: &[u8] = b"\x01\0\0\0\0\0\0\0\x01\x03\0\x03\0\x11\x13\x01\0\0\0\0\0\0\0\x01\x20";

const IS_BELOW: &[u8] = b"\x03\0\x01\0\0\0\0\0\0\0\0\x22";

const CHECKS: [Checked<'static>; 8] = [
    (
        "CHECK (k / 2 = -3)",
        "(-7, 0, 'X')",
        &[b"\x03\0\x01\0\0\0\0\0\0\0\x02\x13\x01\xFF\xFF\xFF\xFF\xFF\xFF\xFF\xFD\x20"],
        None,
    ),
    (
        "CHECK (k / -1 = 0)",
        "(-9223372036854775808, 0, 'X')",
        &[b"\x03\0\x01\xFF\xFF\xFF\xFF\xFF\xFF\xFF\xFF\x13\x01\0\0\0\0\0\0\0\0\x20"],
        Some(Fault::Overflow),
    ),
    (
        "CHECK (k < 0 AND 1 / (k - k) = 1)",
        "(5, 0, 'X')",
        &[
            b"\x03\0\x01\0\0\0\0\0\0\0\0\x22\x30\0\x19\x01\0\0\0\0\0\0\0\x01\x03\0\x03\0\x11\x13\x01\0\0\0\0\0\0\0\x01\x20",
        ],
        Some(Fault::CheckFailed { number: 1 }),
    ),
    (
        "CHECK (1 / (k - k) = 1 AND k < 0)",
        "(5, 0, 'X')",
        &[
            b"\x01\0\0\0\0\0\0\0\x01\x03\0\x03\0\x11\x13\x01\0\0\0\0\0\0\0\x01\x20\x30\0\x0C\x03\0\x01\0\0\0\0\0\0\0\0\x22",
        ],
        Some(Fault::ZeroDivide),
    ),
    // A text is compared with blanks behind the shorter one.
    (
        "CHECK (c = 'AB')",
        "(5, 0, 'AB')",
        &[b"\x03\x02\x02\x02AB\x20"],
        None,
    ),
    // The first that doesn't hold counts, whatever the others say.
    (
        "CHECK (NOT k < 0), CHECK (1 / (k - k) = 1)",
        "(-5, 0, 'X')",
        &[b"\x03\0\x01\0\0\0\0\0\0\0\0\x22\x32", DIVIDES],
        Some(Fault::CheckFailed { number: 1 }),
    ),
    (
        "CHECK (k < 0), CHECK (1 / (k - k) = 1)",
        "(-5, 0, 'X')",
        &[IS_BELOW, DIVIDES],
        Some(Fault::ZeroDivide),
    ),
    (
        "CHECK (k < 0), CHECK (v < k OR v >= 0)",
        "(-5, -1, 'X')",
        &[
            IS_BELOW,
            b"\x03\x01\x03\0\x22\x31\0\x0C\x03\x01\x01\0\0\0\0\0\0\0\0\x25",
        ],
        Some(Fault::CheckFailed { number: 2 }),
    ),
];

fn have_codes(checks: &[Verified], codes: &[&[u8]]) -> bool {
    let mut same = checks.len() == codes.len();
    for (check, code) in checks.iter().zip(codes) {
        same = same && check.code() == *code;
    }
    same
}

/// The fault of the first CHECK that the row of the script's first INSERT doesn't meet, where the CHECKs have these codes.
#[tactic(auto, using(crate::proofs::Checks::checks_hold, crate::proofs::Checks::few_checks))]
fn failing(alloc: Global, script: &Script, codes: &[&[u8]]) -> Result<Option<Fault>, Fail>
    requires { IsScript script.now }
{
    let table = table_in(script)?;
    let Statement::Insert { row, .. } = statement_in(script, table, 0)? else {
        return Err("no INSERT".into());
    };
    let checks = compile_checks(alloc, table)?;
    if !have_codes(checks.items(), codes) {
        return Err("other codes".into());
    }
    Ok(first_failing(&checks, row))
}

#[test]
fn checks_are_compiled_and_run(rt: HostRuntime) -> Result<(), Fail> {
    let alloc = rt.alloc();
    for (checks, row, codes, fault) in &CHECKS {
        let script = script_of(
            alloc,
            &[
                "TABLE t (k INT, v INT, c CHAR(4), PRIMARY KEY (k),",
                checks,
                "); SESSION; INSERT INTO t VALUES",
                row,
                "; COMMIT WORK;",
            ],
        )?;
        assert_eq!(rt; failing(alloc, &script, codes)?, *fault, "{checks}");
    }
    Ok(())
}

/// What becomes of a row: its numbers and texts, one behind the other, or a fault.
#[derive(Clone, Copy)]
enum Became {
    Row(&'static [u8]),
    Fault(EvalFault),
}

/// A SET list, its code, and what becomes of the row (1, 2, 3, 'AB').
type Setting = (&'static str, &'static [u8], Became);

const SETTINGS: [Setting; 5] = [
    (
        "v = k, c = 'X'",
        b"\x02\x01\0\x02\x03\0\x03\0\x03\x02\x01X",
        Became::Row(b"\0\0\0\0\0\0\0\x01\0\0\0\0\0\0\0\x01\0\0\0\0\0\0\0\x03X   "),
    ),
    // Each value is taken from the row as it was.
    (
        "v = w, w = v",
        b"\x02\x01\0\x02\x03\x02\x02\0\x02\x03\x01",
        Became::Row(b"\0\0\0\0\0\0\0\x01\0\0\0\0\0\0\0\x03\0\0\0\0\0\0\0\x02AB  "),
    ),
    // The first fault in written order counts.
    (
        "w = v / (k - 1), v = v + 9223372036854775807",
        b"\x02\x02\0\x0F\x03\x01\x03\0\x01\0\0\0\0\0\0\0\x01\x11\x13\x01\0\x0C\x03\x01\x01\x7F\xFF\xFF\xFF\xFF\xFF\xFF\xFF\x10",
        Became::Fault(EvalFault::ZeroDivide),
    ),
    (
        "v = v + 9223372036854775807, w = v / (k - 1)",
        b"\x02\x01\0\x0C\x03\x01\x01\x7F\xFF\xFF\xFF\xFF\xFF\xFF\xFF\x10\x02\0\x0F\x03\x01\x03\0\x01\0\0\0\0\0\0\0\x01\x11\x13",
        Became::Fault(EvalFault::Overflow),
    ),
    (
        "v = v * -9223372036854775807 - 3",
        b"\x01\x01\0\x16\x03\x01\x01\x80\0\0\0\0\0\0\x01\x12\x01\0\0\0\0\0\0\0\x03\x11",
        Became::Fault(EvalFault::Overflow),
    ),
];

/// The row after the SETs of the script's first statement, which have this code, or their fault.
#[tactic(auto, using(statement_plans::proofs::Tables::sets_typed))]
fn updated(alloc: Global, script: &Script, code: &[u8]) -> Result<Result<Row, EvalFault>, Fail>
    requires { IsScript script.now }
{
    let table = table_in(script)?;
    let Statement::Update { sets, .. } = statement_in(script, table, 0)? else {
        return Err("no UPDATE".into());
    };
    let Statement::Insert { row, .. } = statement_in(script, table, 1)? else {
        return Err("no INSERT".into());
    };
    let Ok(compiled) = compile_sets(alloc, sets, table) else {
        return Err("no code".into());
    };
    if compiled.bytes() != code {
        return Err("another code".into());
    }
    let Ok(verified) = verify_sets(alloc, code, table) else {
        return Err("a bad code".into());
    };
    match apply(alloc, &verified, row) {
        Ok(new) => Ok(Ok(new)),
        Err(ApplyFault::Eval(fault)) => Ok(Err(fault)),
        Err(ApplyFault::NoMemory) => Err("out of memory".into()),
    }
}

/// The values of a row, one behind the other.
fn shown(alloc: Global, row: &Row) -> Result<Vec<u8>, NoMemory> {
    let mut bytes = Vec::new(alloc);
    for value in row.values() {
        match value {
            Value::Int(number) => bytes.extend_from_slice(&number.to_be_bytes())?,
            Value::Text(text) => bytes.extend_from_slice(text.bytes())?,
        }
    }
    Ok(bytes)
}

#[test]
fn set_lists_are_compiled_and_applied(rt: HostRuntime) -> Result<(), Fail> {
    let alloc = rt.alloc();
    for (sets, code, became) in &SETTINGS {
        let script = script_of(
            alloc,
            &[
                "TABLE t (k INT, v INT, w INT, c CHAR(4), PRIMARY KEY (k));",
                "SESSION; UPDATE t SET",
                sets,
                "FOR STABLE ACCESS;",
                "INSERT INTO t VALUES (1, 2, 3, 'AB'); COMMIT WORK;",
            ],
        )?;
        match (updated(alloc, &script, code)?, became) {
            (Ok(row), Became::Row(bytes)) => {
                assert_eq!(rt; shown(alloc, &row)?.as_slice(), *bytes, "{sets}");
            }
            (Err(fault), Became::Fault(wanted)) => assert_eq!(rt; fault, *wanted, "{sets}"),
            _ => assert!(rt; false, "{sets}"),
        }
    }
    Ok(())
}
