//! The run of a script by its own sessions, in threads.
ghost use Rattle.std.specs.Prelude.{◌≡◌, ◌≤◌, [], ℕ, length, map, IfOk};
ghost use Rattle.sql_base.specs.Scripts.{IsScript, Lies};
ghost use Rattle.session_grammar.specs.Follows.{in_line};
ghost use Rattle.run_record.specs.Legal.{Legal};
ghost use Rattle.run_record.specs.Openings.{log_of};
ghost use Rattle.driver_laws.specs.Carrying.{AllCarried, Telling};

use crate::pool::run_pool_with;
use outside::{Gate, Wire};
use requester_fs::sessions_of;
use run_record::RunRecord;
use sql_base::{NoMemory, Script};
use std::alloc::Global;
use std::sync::Wait;
use std::thread::Threads;

/// Runs the script, with a wire for each session at least, in threads of its own: one for each session, and as many for
/// each partition as the script says. It may wait. Where no thread can be made, one job is done after the other.
pub fn run_pool<R: Threads + Wait + Sync, G: Gate + Sync>(
    rt: &R,
    alloc: Global,
    script: &Script,
    gate: &G,
    wires: Vec<Box<dyn Wire + Send>>,
) -> Result<RunRecord, NoMemory>
    requires script { IsScript script.now }
    requires wires { length script.now.sessions ≤ length wires.items }
    ensures legal { IfOk result (Legal script.now) }
    ensures in_line { IfOk result (λ kept. (n : ℕ) → Lies 1 (length script.now.sessions) n → in_line script.now n (log_of kept n)) }
    ensures carried { IfOk result (AllCarried (map {B = Telling} (λ w. record { first = first w; round = round w }) wires.items)) }
    ensures no_acts { IfOk result (λ kept. kept.acts ≡ []) }
{
    let sessions = sessions_of(alloc, script)?;
    run_pool_with(rt, alloc, script, sessions, gate, wires)
}
