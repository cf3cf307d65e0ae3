//! How a command ends.
ghost use Rattle.std.specs.Prelude.{◌≡◌};

use run_record::RunRecord;
use statement_reader::ScriptFault;

/// How a command ended.
///
/// | Status | Comes |
/// |---|---|
/// | 0 | it is done, and the whole output is written |
/// | 1 | the bytes that were read are no script; `fault` says why |
/// | 2 | the words are no command line, or there are fewer than 8 wires |
/// | 3 | a read failed |
/// | 4 | a write failed, after a front of the output |
/// | 5 | memory was short |
#[derive(Debug, Drop)]
pub struct Outcome {
    pub status: u8,
    /// The record of the run, with status 0 of a command that runs the script.
    pub kept: Option<RunRecord>,
    /// Why the script was refused, with status 1.
    pub fault: Option<ScriptFault>,
}

impl Outcome {
    /// An outcome that keeps nothing.
    pub fn bare(status: u8) -> Outcome
        ensures { result ≡ record { status = status; kept = None; fault = None } }
    {
        Outcome {
            status,
            kept: None,
            fault: None,
        }
    }

    /// The outcome of bytes that are refused.
    pub fn refused(fault: ScriptFault) -> Outcome
        ensures { result ≡ record { status = 1; kept = None; fault = Some fault } }
    {
        Outcome {
            status: 1,
            kept: None,
            fault: Some(fault),
        }
    }
}
