//! The run of a script by its own sessions.
ghost use Rattle.std.specs.Prelude.{◌≡◌, ◌≤◌, ℕ, length, map, IfOk};
ghost use Rattle.sql_base.specs.Scripts.{IsScript, Lies};
ghost use Rattle.session_grammar.specs.Follows.{in_line};
ghost use Rattle.run_record.specs.Legal.{Legal};
ghost use Rattle.run_record.specs.Openings.{log_of};
ghost use Rattle.driver_laws.specs.Scheduling.{Scheduled};
ghost use Rattle.requester_fs.specs.Beginnings.{AreNew};
ghost use Rattle.driver_laws.specs.Carrying.{AllCarried};

use crate::driver::drive_with;
use outside::Wire;
use requester_fs::sessions_of;
use run_record::RunRecord;
use sql_base::{NoMemory, Script};
use std::alloc::Global;

/// Runs the script, with a wire for each session at least. Each action is that of the enabled session or partition that
/// the next choice names. It waits for nobody.
pub fn drive(
    alloc: Global,
    script: &Script,
    schedule: &[u32],
    wires: Vec<Box<dyn Wire + Send>>,
) -> Result<RunRecord, NoMemory>
    requires script { IsScript script.now }
    requires wires { length script.now.sessions ≤ length wires.items }
    ensures legal { IfOk result (Legal script.now) }
    ensures in_line { IfOk result (λ kept. (n : ℕ) → Lies 1 (length script.now.sessions) n → in_line script.now n (log_of kept n)) }
    ensures scheduled { IfOk result (Scheduled schedule.now) }
    ensures carried { IfOk result (AllCarried (map (λ w. record { first = first w; round = round w }) wires.items)) }
{
    let sessions = sessions_of(alloc, script)?;
    drive_with(alloc, script, sessions, schedule, wires)
}
