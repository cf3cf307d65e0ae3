//! The text of a run.

mod columns;
mod lines;
mod results;
mod words;

ghost use Rattle.std.specs.Prelude.{◌≡◌, ◌++◌, IfOk, OnOk, flat_map};
ghost use Rattle.one_thread.specs.Text.{run_text, shown_text, table_text, tables_text};

use crate::shown::Shown;
use lines::{put_attempt, put_table};
use results::put_results;
use sql_base::{List, NoMemory, Outcome, Row, TableDef};
use std::alloc::Global;

/// The text of a run: of the attempts in their order, and then of the records of each table.
pub fn print_run(
    alloc: Global,
    tables: &[TableDef],
    shown: &[Shown],
    records: &[List<Row>],
) -> Result<Vec<u8>, NoMemory>
    ensures { IfOk result (λ bytes. bytes.items ≡ run_text tables.now shown.now records.now) }
{
    let mut out = Vec::new(alloc);
    for attempt in shown {
        put_shown(alloc, &mut out, attempt)?;
    }
    put_tables(&mut out, tables, records)?;
    Ok(out)
}

fn put_shown(alloc: Global, out: &mut Vec<u8>, shown: &Shown) -> Result<(), NoMemory>
    ensures { OnOk result (out.new.items ≡ out.old.items ++ shown_text shown.now) }
{
    put_attempt(out, shown)?;
    match shown.outcome {
        Outcome::Committed { .. } | Outcome::RolledBack => put_results(alloc, out, shown),
        Outcome::Aborted(_) => Ok(()),
    }
}

fn put_tables(out: &mut Vec<u8>, tables: &[TableDef], records: &[List<Row>]) -> Result<(), NoMemory>
    ensures { OnOk result (out.new.items ≡ out.old.items ++ tables_text tables.now records.now) }
{
    for (table, rows) in tables.iter().zip(records) {
        put_table(out, table, rows.items())?;
    }
    Ok(())
}
