//! The text of a record.
ghost use Rattle.std.specs.Prelude.{IfOk};
ghost use Rattle.run_record.specs.Legal.{Legal};
ghost use Rattle.run_record.specs.Text.{IsText};

use crate::tables::tables_read;
use crate::trying::sessions_read;
use one_thread::print_run;
use run_record::RunRecord;
use sql_base::{NoMemory, Script};
use std::alloc::Global;

/// The text of a legal record: its attempts as the logs of the sessions tell them, and the tables as they are at the end.
pub fn text(alloc: Global, script: &Script, kept: &RunRecord) -> Result<Vec<u8>, NoMemory>
    requires { Legal script.now kept.now }
    ensures { IfOk result (λ bytes. IsText script.now kept.now bytes.items) }
{
    let tables = script.tables.items();
    let shown = sessions_read(alloc, script, kept.logs.items())?;
    let records = tables_read(alloc, tables, kept.rows.items())?;
    print_run(alloc, tables, shown.items(), records.items())
}
