//! Two sessions under thirty schedules: what commits is what one thread makes of it in the order of the stamps.
use super::*;
use crate::run_cases::Paths;
use crate::run_tests::ran;
use commit_journal::Drawn;
use sql_base::TxnName;
use std::alloc::Global;
use std::process::Abort;
use std::test::Fail;

const TABLE: &str =
    "QUANTUM 2; PATIENCE 1; TABLE t (k INT, v INT, PRIMARY KEY (k)) FIRST KEY (10);";

const LOAD: &str = "LOAD t (1,10),(2,20),(3,30),(11,110),(12,120);";

/// The transactions of the two sessions. Each is asked to commit.
const WORKS: [[&str; 3]; 2] = [
    [
        "INSERT INTO t VALUES (4,40); SELECT k, v FROM t WHERE k < 10 FOR REPEATABLE ACCESS; COMMIT WORK;",
        "UPDATE t SET v = v + 1 FOR REPEATABLE ACCESS; COMMIT WORK;",
        "SELECT k, v FROM t FOR REPEATABLE ACCESS; INSERT INTO t VALUES (13,130); COMMIT WORK;",
    ],
    [
        "SELECT k, v FROM t WHERE k > 2 FOR REPEATABLE ACCESS; INSERT INTO t VALUES (5,50); COMMIT WORK;",
        "DELETE FROM t WHERE k >= 12 FOR REPEATABLE ACCESS; COMMIT WORK;",
        "SELECT v FROM t FOR REPEATABLE ACCESS; INSERT INTO t VALUES (12,121); COMMIT WORK;",
    ],
];

/// Choices, one digit each.
const SCHEDULES: [&str; 30] = [
    "",
    "0101010101010101010101010101010101010101",
    "0011001100110011001100110011001100110011",
    "1111111111111111111111111111111111111111",
    "2222222222222222222222222222222222222222",
    "00000000101001011110110110101101",
    "011100011100110010010101101011010100001001001111",
    "1110020320333031311321212201202022231223",
    "010111111111110000011100",
    "122101000002211211122021012111200120000120001101",
    "101100000010010110110011",
    "12101113220332233303333210312121",
    "3033101022203331111132111201031012313231",
    "010101001101010110000101101001001110001001111010",
    "10000011100101111001001110111100",
    "032132203001200012321333313233331232033200321020",
    "02333133132231010111303023012101",
    "03203312032010330122111320020000",
    "232302122101133211013313033203100231130100303201",
    "200200021100210000000111",
    "01110000111011000110001000011111",
    "10002000221102211220011210112011",
    "10320032322233003101000231330102",
    "10011001000000010101001011001100",
    "101000000100010111011010011010011100100110001100",
    "01111110101011100101010010111110",
    "0001001011000111000111001001101001101100",
    "20101022121000120212121021201212",
    "302213110130222113022032001102200001121103233023",
    "31130012100131033330230310210202",
];

/// The script of these transactions in one session.
fn in_line(alloc: Global, works: &[Drawn]) -> Result<Vec<&'static str>, NoMemory> {
    let mut script = [TABLE, LOAD, "SESSION;"].to_vec(alloc)?;
    for drawn in works {
        script.push(work_of(drawn.name))?;
    }
    Ok(script)
}

/// The transaction of an attempt; each is attempted once.
fn work_of(name: TxnName) -> &'static str {
    let session = (name.session as usize).saturating_sub(1);
    let work = (name.ordinal as usize).saturating_sub(1);
    match WORKS.get(session) {
        Some(works) => works.get(work).copied().unwrap_or(""),
        None => "",
    }
}

/// Adds the line that tells of an attempt, as one of the first session with another ordinal.
fn append_line(
    out: &mut Vec<u8>,
    alloc: Global,
    line: &[u8],
    name: TxnName,
    ordinal: usize,
) -> Result<(), NoMemory> {
    for kind in ["TXN", "ROW", "COUNT"] {
        let own = format!(in alloc; "{kind} {} {} ", name.session, name.ordinal)?;
        if let Some(rest) = line.strip_prefix(own.as_bytes()) {
            let first = format!(in alloc; "{kind} 1 {ordinal} ")?;
            out.extend_from_slice(first.as_bytes())?;
            out.extend_from_slice(rest)?;
            out.push(b'\n')?;
        }
    }
    Ok(())
}

/// Adds what a text tells of an attempt.
fn append_attempt(
    out: &mut Vec<u8>,
    alloc: Global,
    text: &[u8],
    name: TxnName,
    ordinal: usize,
) -> Result<(), NoMemory> {
    for line in text.split(|byte| *byte == b'\n') {
        append_line(out, alloc, line, name, ordinal)?;
    }
    Ok(())
}

/// Adds what a text tells of the tables.
fn append_tables(out: &mut Vec<u8>, text: &[u8]) -> Result<(), NoMemory> {
    for line in text.split(|byte| *byte == b'\n') {
        if line.starts_with(b"TABLE") || line.starts_with(b"REC") {
            out.extend_from_slice(line)?;
            out.push(b'\n')?;
        }
    }
    Ok(())
}

/// What a text tells of the commits, as those of one session in this order, and of the tables.
fn told(alloc: Global, text: &[u8], commits: &[Drawn]) -> Result<Vec<u8>, NoMemory> {
    let mut out = Vec::new(alloc);
    let mut ordinal = 0usize;
    for drawn in commits {
        ordinal = ordinal.saturating_add(1);
        append_attempt(&mut out, alloc, text, drawn.name, ordinal)?;
    }
    append_tables(&mut out, text)?;
    Ok(out)
}

/// Runs the two sessions under a schedule, and compares what commits with one session in the order of the stamps.
fn expect_serial(rt: &impl Abort, alloc: Global, schedule: &'static str) -> Result<(), Fail> {
    let mut words = ["nsq", "steps"].to_vec(alloc)?;
    for at in 0..schedule.len() {
        words.push(schedule.get(at..at.saturating_add(1)).unwrap_or("0"))?;
    }
    let [[a, b, c], [d, e, f]] = WORKS;
    let script = [TABLE, LOAD, "SESSION;", a, b, c, "SESSION;", d, e, f];
    let (outcome, text) = ran(alloc, words.as_slice(), &script, Paths::Carry)?;
    let kept = outcome.kept.as_ref().ok_or("no record")?;
    let commits = kept.journal.items();
    assert!(rt; !commits.is_empty());
    let script = in_line(alloc, commits)?;
    let (_outcome, alone) = ran(alloc, &["nsq", "oracle"], script.as_slice(), Paths::Carry)?;
    let told = told(alloc, text.as_slice(), commits)?;
    assert_eq!(rt; told.as_slice(), alone.as_slice(), "{schedule}");
    Ok(())
}

#[test]
fn every_schedule_is_serial(rt: HostRuntime) -> Result<(), Fail> {
    for schedule in SCHEDULES {
        expect_serial(&rt, rt.alloc(), schedule)?;
    }
    Ok(())
}
