//! The top call: from the words, the source and the wires to the sink.
ghost use Rattle.std.specs.Prelude.{◌≡◌, ◌≤◌, ◌<◌, ◌⊎◌, map, vec_len, false, IfOk, None};
ghost use Rattle.std.specs.Io.KnownBytes.{Keeps};
ghost use Rattle.sql_base.specs.Scripts.{IsScript};
ghost use Rattle.script_maker.specs.Making.{made};
ghost use Rattle.nonstop_sql.specs.Commands.{IsCommand, IsNoCommand};
ghost use Rattle.nonstop_sql.specs.Ends.{Ends, EndsOnBytes, LeavesCollectors, Makes, Writes, is_traced, number_of, refusal_of};
ghost use Rattle.nonstop_sql.specs.declared.commands.Command.{Command as Asked};

use crate::checks::PlainChecks;
use crate::commands::{Command, WordsFault, command_of};
use crate::input::{ReadError, read_to_limit};
use crate::outcome::Outcome;
use crate::output::write_all;
use crate::saying::say;
use one_thread::answer;
use outside::{Collector, Gate, Sink, Source, Wire};
use record_text::summary;
use run_record::RunRecord;
use script_maker::{made_scripts_meet_rules, make_script};
use sql_base::{NoMemory, Script};
use statement_printer::print_script;
use statement_reader::{ReadFault, read_script};
use std::alloc::Global;
use step_world::drive;

/// How many wires a run is handed, one for each session that a script may have.
pub const WIRES: usize = 8;

/// Runs the command that the words ask for, from the bytes of the source to those of the sink.
///
/// Status 2 comes before anything is read, and leaves everything as it was.
pub fn run<S: Source, K: Sink, G: Gate>(
    alloc: Global,
    words: &[String],
    source: &mut S,
    sink: &mut K,
    _gate: &G,
    wires: Vec<Box<dyn Wire + Send>>,
    collectors: &mut Vec<Box<dyn Collector>>,
) -> Outcome
    ensures refused { result.status ≡ 2 → IsNoCommand words.now ⊎ (vec_len wires < 8) }
    ensures few_wires { vec_len wires < 8 → result.status ≡ 2 }
    ensures no_command { IsNoCommand words.now → (result.status ≡ 2) ⊎ (result.status ≡ 5) }
    ensures ended { result.status ≤ 5 }
    ensures untouched { result.status ≡ 2 → (source.new ≡ source.old) × (sink.new ≡ sink.old) }
    ensures unread { result.status ≡ 2 → Keeps (S.left source.old) (S.left source.new) × Keeps (K.taken sink.old) (K.taken sink.new) }
    ensures unseen { (result.status ≡ 1) ⊎ ((result.status ≡ 2) ⊎ (result.status ≡ 3)) → collectors.new ≡ collectors.old }
    ensures untraced { (asked : Asked) → IsCommand words.now asked → is_traced asked ≡ false → collectors.new ≡ collectors.old }
    ensures ran { (asked : Asked) → IsCommand words.now asked → 8 ≤ vec_len wires → Ends asked (record { wires = map (λ w. record { first = first w; round = round w }) wires.items; collectors = map collecting collectors.old.items; collectors' = map collecting collectors.new.items }) (S.left source.old) (S.left source.new) (S.faults source.old) (S.faults source.new) (K.taken sink.old) (K.taken sink.new) (K.faults sink.old) (K.faults sink.new) result }
{
    if wires.len() < WIRES {
        return Outcome::bare(2);
    }
    match command_of(alloc, words) {
        Ok(command) => run_alone(alloc, &command, source, sink, wires, collectors),
        Err(WordsFault::Refused) => Outcome::bare(2),
        Err(WordsFault::NoMemory) => Outcome::bare(5),
    }
}

/// Runs a command that waits for nobody, over at least 8 wires.
pub fn run_alone<S: Source, K: Sink>(
    alloc: Global,
    command: &Command,
    source: &mut S,
    sink: &mut K,
    wires: Vec<Box<dyn Wire + Send>>,
    collectors: &mut Vec<Box<dyn Collector>>,
) -> Outcome
    requires { 8 ≤ vec_len wires }
    ensures unseen { LeavesCollectors command.now result.status → collectors.new ≡ collectors.old }
    ensures ran { Ends command.now (record { wires = map (λ w. record { first = first w; round = round w }) wires.items; collectors = map collecting collectors.old.items; collectors' = map collecting collectors.new.items }) (S.left source.old) (S.left source.new) (S.faults source.old) (S.faults source.new) (K.taken sink.old) (K.taken sink.new) (K.faults sink.old) (K.faults sink.new) result }
{
    match number_of(command) {
        Some(number) => run_made(alloc, command, number, sink, wires, collectors),
        None => run_read(alloc, command, source, sink, wires, collectors),
    }
}

/// The number that the command makes its script from, if it reads none.
fn number_of(command: &Command) -> Option<u64>
    ensures { result ≡ number_of command.now }
{
    match command {
        Command::Make { number } => Some(*number),
        Command::Trial { number } => Some(*number),
        Command::Check => None,
        Command::Oracle => None,
        Command::Steps { .. } => None,
    }
}

/// Runs the command on the script that is made from the number.
fn run_made<K: Sink>(
    alloc: Global,
    command: &Command,
    number: u64,
    sink: &mut K,
    wires: Vec<Box<dyn Wire + Send>>,
    collectors: &mut Vec<Box<dyn Collector>>,
) -> Outcome
    requires { 8 ≤ vec_len wires }
    ensures written { Writes command.now (record { wires = map (λ w. record { first = first w; round = round w }) wires.items; collectors = map collecting collectors.old.items; collectors' = map collecting collectors.new.items }) (made number) (K.taken sink.old) (K.taken sink.new) (K.faults sink.old) (K.faults sink.new) result }
    ensures unseen { LeavesCollectors command.now result.status → collectors.new ≡ collectors.old }
{
    made_scripts_meet_rules();
    match make_script(alloc, number) {
        Ok(made) => run_script(alloc, command, &made, sink, wires, collectors),
        Err(_) => Outcome::bare(5),
    }
}

/// Runs the command on the script that the source has.
fn run_read<S: Source, K: Sink>(
    alloc: Global,
    command: &Command,
    source: &mut S,
    sink: &mut K,
    wires: Vec<Box<dyn Wire + Send>>,
    collectors: &mut Vec<Box<dyn Collector>>,
) -> Outcome
    requires reads { number_of command.now ≡ None }
    requires wires { 8 ≤ vec_len wires }
    ensures ended { Ends command.now (record { wires = map (λ w. record { first = first w; round = round w }) wires.items; collectors = map collecting collectors.old.items; collectors' = map collecting collectors.new.items }) (S.left source.old) (S.left source.new) (S.faults source.old) (S.faults source.new) (K.taken sink.old) (K.taken sink.new) (K.faults sink.old) (K.faults sink.new) result }
    ensures unseen { LeavesCollectors command.now result.status → collectors.new ≡ collectors.old }
{
    match read_to_limit(alloc, source) {
        Ok(bytes) => run_bytes(alloc, command, bytes.as_slice(), sink, wires, collectors),
        Err(ReadError::Failed) => Outcome::bare(3),
        Err(ReadError::NoMemory) => Outcome::bare(5),
    }
}

/// Runs the command on the script that the bytes spell.
fn run_bytes<K: Sink>(
    alloc: Global,
    command: &Command,
    bytes: &[u8],
    sink: &mut K,
    wires: Vec<Box<dyn Wire + Send>>,
    collectors: &mut Vec<Box<dyn Collector>>,
) -> Outcome
    requires { 8 ≤ vec_len wires }
    ensures ended { EndsOnBytes command.now (record { wires = map (λ w. record { first = first w; round = round w }) wires.items; collectors = map collecting collectors.old.items; collectors' = map collecting collectors.new.items }) bytes.now (K.taken sink.old) (K.taken sink.new) (K.faults sink.old) (K.faults sink.new) result }
    ensures unseen { LeavesCollectors command.now result.status → collectors.new ≡ collectors.old }
{
    match read_script(alloc, &PlainChecks, bytes) {
        Ok(script) => run_script(alloc, command, &script, sink, wires, collectors),
        Err(error) => refuse(error),
    }
}

/// How bytes end of which no script was read.
fn refuse(error: ReadFault) -> Outcome
    ensures { result ≡ refusal_of error }
{
    match error {
        ReadFault::Script(fault) => Outcome::refused(fault),
        ReadFault::NoMemory => Outcome::bare(5),
    }
}

/// Writes what the command makes of the script.
fn run_script<K: Sink>(
    alloc: Global,
    command: &Command,
    script: &Script,
    sink: &mut K,
    wires: Vec<Box<dyn Wire + Send>>,
    collectors: &mut Vec<Box<dyn Collector>>,
) -> Outcome
    requires script { IsScript script.now }
    requires wires { 8 ≤ vec_len wires }
    ensures written { Writes command.now (record { wires = map (λ w. record { first = first w; round = round w }) wires.items; collectors = map collecting collectors.old.items; collectors' = map collecting collectors.new.items }) script.now (K.taken sink.old) (K.taken sink.new) (K.faults sink.old) (K.faults sink.new) result }
    ensures unseen { LeavesCollectors command.now result.status → collectors.new ≡ collectors.old }
{
    let Ok((kept, output)) = make(alloc, command, script, wires, collectors) else {
        return Outcome::bare(5);
    };
    match write_all(sink, output.as_slice()) {
        Ok(()) => Outcome {
            status: 0,
            kept,
            fault: None,
        },
        Err(_) => Outcome::bare(4),
    }
}

/// What the command makes of the script: the record of a run, if it makes one, and a text.
fn make(
    alloc: Global,
    command: &Command,
    script: &Script,
    wires: Vec<Box<dyn Wire + Send>>,
    collectors: &mut Vec<Box<dyn Collector>>,
) -> Result<(Option<RunRecord>, Vec<u8>), NoMemory>
    requires script { IsScript script.now }
    requires wires { 8 ≤ vec_len wires }
    ensures made { IfOk result (λ made. Makes command.now (record { wires = map (λ w. record { first = first w; round = round w }) wires.items; collectors = map collecting collectors.old.items; collectors' = map collecting collectors.new.items }) script.now made.0 made.1.items) }
    ensures untraced { is_traced command.now ≡ false → collectors.new ≡ collectors.old }
{
    match command {
        Command::Check => Ok((None, print_script(alloc, script)?)),
        Command::Oracle => Ok((None, answer(alloc, script)?)),
        Command::Steps { choices, trace } => {
            let kept = drive(alloc, script, choices.items(), wires)?;
            let output = say(alloc, script, &kept, *trace, collectors)?;
            Ok((Some(kept), output))
        }
        Command::Make { .. } => Ok((None, print_script(alloc, script)?)),
        Command::Trial { .. } => {
            let kept = drive(alloc, script, &[], wires)?;
            let summed = summary(alloc, script, &kept)?;
            Ok((Some(kept), summed))
        }
    }
}
