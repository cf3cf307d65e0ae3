//! Whole runs: the words, the script and the wires, and what must come of them.
use super::*;
use crate::run_cases::{CASES, Paths};
use crate::run_rows::{RUNS, Run};
use outside::{Listed, MemorySink, MemorySource};
use session_grammar::LogEntry;
use std::alloc::Global;
use std::process::Abort;
use std::test::Fail;

/// The room of a sink that takes all that these runs write.
const AMPLE: usize = 30_000;

/// Lines, each with its end.
pub fn joined(alloc: Global, lines: &[&str]) -> Result<Vec<u8>, NoMemory> {
    let mut bytes = Vec::new(alloc);
    for line in lines {
        bytes.extend_from_slice(line.as_bytes())?;
        bytes.push(b'\n')?;
    }
    Ok(bytes)
}

pub fn words_of(alloc: Global, words: &[&str]) -> Result<Vec<String>, NoMemory> {
    let mut owned = Vec::new(alloc);
    for word in words {
        owned.push(String::from_str(alloc, word)?)?;
    }
    Ok(owned)
}

pub fn wires_of(alloc: Global, paths: Paths) -> Result<Vec<Box<dyn Wire + Send>>, NoMemory> {
    let mut wires: Vec<Box<dyn Wire + Send>> = Vec::new(alloc);
    for _ in 0..WIRES {
        match paths {
            Paths::Carry => wires.push(Box::new(alloc, Listed::new(Vec::new(alloc)))?)?,
            Paths::Round(first, rest) => {
                let mut answers = vec![in alloc; first]?;
                answers.extend_from_slice(rest)?;
                wires.push(Box::new(alloc, Cycle::new(answers))?)?;
            }
            Paths::Once(list) => wires.push(Box::new(alloc, Listed::new(list.to_vec(alloc)?))?)?,
        }
    }
    Ok(wires)
}

/// How a run on the bytes of a script ended, and what its sink took.
fn ran_on(
    alloc: Global,
    words: &[&str],
    script: Vec<u8>,
    paths: Paths,
) -> Result<(Outcome, Vec<u8>), Fail> {
    let words = words_of(alloc, words)?;
    let wires = wires_of(alloc, paths)?;
    let mut source = MemorySource::new(script, Vec::new(alloc));
    let mut sink = MemorySink::new(alloc, AMPLE, Vec::new(alloc))?;
    let mut collectors = Vec::new(alloc);
    let outcome = run(
        alloc,
        words.as_slice(),
        &mut source,
        &mut sink,
        &QuietGate,
        wires,
        &mut collectors,
    );
    Ok((outcome, sink.taken().to_vec(alloc)?))
}

/// How a run on the lines of a script ended, and what its sink took.
pub fn ran(
    alloc: Global,
    words: &[&str],
    script: &[&str],
    paths: Paths,
) -> Result<(Outcome, Vec<u8>), Fail> {
    ran_on(alloc, words, joined(alloc, script)?, paths)
}

/// Runs a script by a command, and compares what is written.
fn expect_run(rt: &impl Abort, alloc: Global, command: &str, row: &Run) -> Result<(), Fail> {
    let (outcome, taken) = ran(alloc, &["nsq", command], row.script, Paths::Carry)?;
    assert_eq!(rt; outcome.status, 0);
    assert_eq!(rt; taken.as_slice(), joined(alloc, row.taken)?.as_slice());
    Ok(())
}

#[test]
fn one_session_runs_as_one_thread(rt: HostRuntime) -> Result<(), Fail> {
    for row in &RUNS {
        expect_run(&rt, rt.alloc(), "steps", row)?;
        expect_run(&rt, rt.alloc(), "oracle", row)?;
    }
    Ok(())
}

/// How often the path of each request of the first session was lost.
fn losses_in(alloc: Global, outcome: &Outcome) -> Result<Vec<u32>, NoMemory> {
    let mut counts = Vec::new(alloc);
    let Some(kept) = &outcome.kept else {
        return Ok(counts);
    };
    let [log, ..] = kept.logs.items() else {
        return Ok(counts);
    };
    for entry in log.items() {
        if let LogEntry::Asked { losses, .. } = entry {
            counts.push(*losses)?;
        }
    }
    Ok(counts)
}

/// How many requests each partition has served.
fn served_in(alloc: Global, outcome: &Outcome) -> Result<Vec<usize>, NoMemory> {
    let mut counts = Vec::new(alloc);
    if let Some(kept) = &outcome.kept {
        for history in kept.histories.items() {
            counts.push(history.items().len())?;
        }
    }
    Ok(counts)
}

#[test]
fn runs_end_as_they_should(rt: HostRuntime) -> Result<(), Fail> {
    let alloc = rt.alloc();
    for case in &CASES {
        let (outcome, taken) = ran(alloc, case.words, case.script, case.paths)?;
        assert_eq!(rt; outcome.status, case.status);
        assert_eq!(rt; taken.as_slice(), joined(alloc, case.taken)?.as_slice());
        assert!(rt;
            line_of(alloc, &outcome)?.as_str() == case.said,
            "{}",
            case.said
        );
        assert_eq!(rt; losses_in(alloc, &outcome)?.as_slice(), case.losses);
        assert_eq!(rt; served_in(alloc, &outcome)?.as_slice(), case.served);
    }
    Ok(())
}

#[test]
fn made_scripts_are_read_and_run(rt: HostRuntime) -> Result<(), Fail> {
    let alloc = rt.alloc();
    let (first, made) = ran_on(alloc, &["nsq", "make", "7"], Vec::new(alloc), Paths::Carry)?;
    assert_eq!(rt; first.status, 0);
    let script = made.as_slice().to_vec(alloc)?;
    let (second, read) = ran_on(alloc, &["nsq", "check"], script, Paths::Carry)?;
    assert_eq!(rt; second.status, 0);
    assert_eq!(rt; read.as_slice(), made.as_slice());
    let (third, tried) = ran_on(alloc, &["nsq", "trial", "7"], Vec::new(alloc), Paths::Carry)?;
    assert_eq!(rt; third.status, 0);
    let (_, again) = ran_on(alloc, &["nsq", "trial", "7"], Vec::new(alloc), Paths::Carry)?;
    assert_eq!(rt; again.as_slice(), tried.as_slice());
    assert_eq!(rt; tried.as_slice().starts_with(b"TXNS "), true);
    Ok(())
}
