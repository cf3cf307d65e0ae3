//! The sessions with which a run of a script begins.
ghost use Rattle.std.specs.Prelude.{IfOk};
ghost use Rattle.sql_base.specs.Scripts.{IsScript};
ghost use Rattle.requester_fs.specs.Beginnings.{AreNew};

use crate::sessions::Session;
use sql_base::{NoMemory, Script};
use std::alloc::Global;

/// The sessions of the script, in order, at their beginnings.
pub fn sessions_of<'a>(alloc: Global, script: &'a Script) -> Result<Vec<Session<'a>>, NoMemory>
    requires { IsScript script.now }
    ensures { IfOk result (λ sessions. AreNew (λ s. s) script.now sessions.items) }
{
    let mut sessions = Vec::new(alloc);
    for at in 0..script.sessions.items().len() {
        sessions.push(Session::new(alloc, script, at as u32 + 1)?)?;
    }
    Ok(sessions)
}
