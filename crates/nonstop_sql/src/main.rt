//! The program `nsq`: reads a script of SQL, runs it, and writes what came of it.
#![tactic(auto)]

ghost use Rattle.std.specs.Prelude.{◌≡◌, ◌≤◌, ◌⊎◌, ℕ, Bool, List, IfOk, IfSome};
ghost use Rattle.run_record.specs.Headline.{Headline};
ghost use Rattle.sql_base.specs.declared.scripts.Script.{Script};
ghost use Rattle.script_maker.specs.Making.{made};
ghost use Rattle.nonstop_sql.specs.Commands.{IsCommand, IsNoCommand};
ghost use Rattle.nonstop_sql.specs.declared.commands.Command.TheVariants.{Steps, Trial};

mod checks;
mod commands;
mod input;
mod lines;
mod outcome;
mod output;
mod saying;
mod top;

pub use commands::{Command, WordsFault, command_of};
pub use input::{ReadError, read_to_limit};
pub use lines::line_of;
pub use outcome::Outcome;
pub use output::write_all;
use outside::{Collector, Cycle, Passage, QuietGate, StdSink, StdSource, Wire};
use sql_base::NoMemory;
use std::process::ExitCode;
use std::{env, io};
pub use top::{WIRES, run, run_alone};
use trace_report::{Counts, Lines, LockBook, QuantumTable};

/// The words of the command line, the program's name first.
fn words_of(rt: &HostRuntime) -> io::Result<Vec<String>> {
    let mut words = Vec::new(rt.alloc());
    for word in env::args(rt)? {
        words.push(word)?;
    }
    Ok(words)
}

/// Runs the words over standard input and output, a gate that holds nobody, wires that carry everything, and the four
/// collectors.
///
/// What is read and written isn't known here, but with status 0 the record is one of a run of some script.
fn outcome_of(rt: &HostRuntime, words: &[String]) -> Result<Outcome, NoMemory>
    ensures refused { IfOk result (λ outcome. outcome.status ≡ 2 → IsNoCommand words.now) }
    ensures refuses { IsNoCommand words.now → IfOk result (λ outcome. (outcome.status ≡ 2) ⊎ (outcome.status ≡ 5)) }
    ensures ended { IfOk result (λ outcome. outcome.status ≤ 5) }
    ensures ran { (choices : List ℕ) (trace : Bool) → IsCommand words.now (Steps choices trace) → IfOk result (λ outcome. outcome.status ≡ 0 → (script : Script) × IfSome outcome.kept (Headline script)) }
    ensures tried { (number : ℕ) → IsCommand words.now (Trial number) → IfOk result (λ outcome. outcome.status ≡ 0 → IfSome outcome.kept (Headline (made number))) }
{
    let alloc = rt.alloc();
    let mut wires: Vec<Box<dyn Wire + Send>> = Vec::new(alloc);
    for number in 0..WIRES {
        let carry = vec![in alloc; Passage::Carry]?;
        wires.push(Box::new(alloc, Cycle::new(carry))?)?;
    }
    let mut source = StdSource::new(rt.stdin());
    let mut sink = StdSink::new(rt.stdout());
    let mut collectors: Vec<Box<dyn Collector>> = Vec::new(alloc);
    collectors.push(Box::new(alloc, Lines::new(alloc))?)?;
    collectors.push(Box::new(alloc, Counts::new())?)?;
    collectors.push(Box::new(alloc, LockBook::new(alloc))?)?;
    collectors.push(Box::new(alloc, QuantumTable::new(alloc))?)?;
    Ok(run(
        alloc,
        words,
        &mut source,
        &mut sink,
        &QuietGate,
        wires,
        &mut collectors,
    ))
}

/// The line on standard error that says how it ended; none where memory is short for it.
fn tell(rt: &HostRuntime, outcome: &Outcome) -> io::Result<()> {
    match line_of(rt.alloc(), outcome) {
        Ok(line) => eprintln!(rt; "{}", line.as_str()),
        Err(_) => Ok(()),
    }
}

fn main(rt: HostRuntime) -> ExitCode {
    let outcome = match words_of(&rt) {
        Ok(words) => outcome_of(&rt, words.as_slice()).unwrap_or(Outcome::bare(5)),
        Err(_) => Outcome::bare(5),
    };
    let _told = tell(&rt, &outcome);
    ExitCode::from(outcome.status)
}

#[cfg(test)]
mod run_cases;
#[cfg(test)]
mod run_rows;
#[cfg(test)]
mod run_tests;
#[cfg(test)]
mod serial_tests;
#[cfg(test)]
mod tests;
#[cfg(test)]
mod trace_tests;
