//! What `steps` writes of the record of its run.
ghost use Rattle.std.specs.Prelude.{◌≡◌, map, false, true, IfOk};
ghost use Rattle.run_record.specs.Legal.{Legal};
ghost use Rattle.run_record.specs.Text.{IsText};
ghost use Rattle.nonstop_sql.specs.Ends.{IsSaid};

use outside::Collector;
use record_text::text;
use run_record::RunRecord;
use sql_base::{NoMemory, Script};
use std::alloc::Global;
use trace_report::report;

/// The text of a legal record, and with a trace what the collectors say behind it, once each has seen all entries.
pub fn say(
    alloc: Global,
    script: &Script,
    kept: &RunRecord,
    trace: bool,
    collectors: &mut Vec<Box<dyn Collector>>,
) -> Result<Vec<u8>, NoMemory>
    requires { Legal script.now kept.now }
    ensures said { IfOk result (λ bytes. IsSaid trace (map collecting collectors.old.items) (map collecting collectors.new.items) script.now kept.now bytes.items) }
    ensures untraced { trace ≡ false → collectors.new ≡ collectors.old }
{
    let plain = text(alloc, script, kept)?;
    if trace {
        return traced(alloc, script, kept, plain, collectors);
    }
    Ok(plain)
}

/// The text with what the collectors say behind it.
fn traced(
    alloc: Global,
    script: &Script,
    kept: &RunRecord,
    plain: Vec<u8>,
    collectors: &mut Vec<Box<dyn Collector>>,
) -> Result<Vec<u8>, NoMemory>
    requires legal { Legal script.now kept.now }
    requires text { IsText script.now kept.now plain.items }
    ensures { IfOk result (λ bytes. IsSaid true (map collecting collectors.old.items) (map collecting collectors.new.items) script.now kept.now bytes.items) }
{
    let Ok(said) = report(alloc, kept, collectors) else {
        return Err(NoMemory);
    };
    let mut text = plain;
    text.extend_from_slice(said.as_slice())?;
    Ok(text)
}
