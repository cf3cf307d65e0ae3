//! The summary of a record.
ghost use Rattle.std.specs.Prelude.{◌≡◌, ◌++◌, IfOk, OnOk, codes, count_by, length, sum_by};
ghost use Rattle.run_record.specs.Legal.{Legal};
ghost use Rattle.record_text.specs.Summary.{attempts_line, count_line, entries_lines, entries_with, is_aborted, is_committed, is_locked, is_redrive, is_rolled_back, named, outcomes, summary_text, table_lines, IsSummary};

use crate::tables::tables_read;
use crate::trying::sessions_read;
use dp_messages::Reply;
use itoa::Buffer;
use one_thread::Shown;
use partition_state::Entry;
use run_record::RunRecord;
use sql_base::{List, NoMemory, Outcome, Row, Script, TableDef};
use std::alloc::Global;

fn is_committed(outcome: &Outcome) -> bool
    ensures { result ≡ is_committed outcome.now }
{
    matches!(outcome, Outcome::Committed { .. })
}

fn is_rolled_back(outcome: &Outcome) -> bool
    ensures { result ≡ is_rolled_back outcome.now }
{
    matches!(outcome, Outcome::RolledBack)
}

fn is_aborted(outcome: &Outcome) -> bool
    ensures { result ≡ is_aborted outcome.now }
{
    matches!(outcome, Outcome::Aborted(_))
}

#[tactic(auto, unfolding(crate::specs::Summary::is_redrive))]
fn is_redrive(reply: &Reply) -> bool
    ensures { result ≡ is_redrive reply.now }
{
    matches!(reply, Reply::Redrive { .. })
}

#[tactic(auto, unfolding(crate::specs::Summary::is_locked))]
fn is_locked(reply: &Reply) -> bool
    ensures { result ≡ is_locked reply.now }
{
    matches!(reply, Reply::Locked(_))
}

/// Adds a word and a number.
#[tactic(auto, unfolding(crate::specs::Summary::named))]
fn put_named(out: &mut Vec<u8>, word: &[u8], number: u128) -> Result<(), NoMemory>
    ensures { OnOk result (out.new.items ≡ out.old.items ++ named word.now number) }
{
    let mut digits = Buffer::new();
    out.extend_from_slice(word)?;
    out.push(b' ')?;
    out.extend_from_slice(digits.format(number).as_bytes())?;
    Ok(())
}

/// Adds a line of a word and a number.
fn put_count(out: &mut Vec<u8>, word: &[u8], number: u128) -> Result<(), NoMemory>
    ensures { OnOk result (out.new.items ≡ out.old.items ++ count_line word.now number) }
{
    put_named(out, word, number)?;
    out.push(b'\n')?;
    Ok(())
}

fn attempts(shown: &[Shown]) -> usize
    ensures { result ≡ length (outcomes shown.now) }
{
    shown.len()
}

fn committed(shown: &[Shown]) -> usize
    ensures { result ≡ count_by is_committed (outcomes shown.now) }
{
    shown
        .iter()
        .filter(|attempt| is_committed(&attempt.outcome))
        .count()
}

fn rolled_back(shown: &[Shown]) -> usize
    ensures { result ≡ count_by is_rolled_back (outcomes shown.now) }
{
    shown
        .iter()
        .filter(|attempt| is_rolled_back(&attempt.outcome))
        .count()
}

fn aborted(shown: &[Shown]) -> usize
    ensures { result ≡ count_by is_aborted (outcomes shown.now) }
{
    shown
        .iter()
        .filter(|attempt| is_aborted(&attempt.outcome))
        .count()
}

/// Adds how many attempts there were, and how many of them ended in each way.
fn put_attempts(out: &mut Vec<u8>, shown: &[Shown]) -> Result<(), NoMemory>
    ensures { OnOk result (out.new.items ≡ out.old.items ++ attempts_line (outcomes shown.now)) }
{
    put_named(out, b"TXNS", attempts(shown) as u128)?;
    put_named(out, b" COMMITTED", committed(shown) as u128)?;
    put_named(out, b" ROLLEDBACK", rolled_back(shown) as u128)?;
    put_named(out, b" ABORTED", aborted(shown) as u128)?;
    out.push(b'\n')?;
    Ok(())
}

fn redrives_in(history: &[Entry]) -> usize
    ensures { result ≡ entries_with is_redrive history.now }
{
    let mut count = 0;
    for entry in history {
        count += is_redrive(&entry.reply) as usize;
    }
    count
}

fn locked_in(history: &[Entry]) -> usize
    ensures { result ≡ entries_with is_locked history.now }
{
    let mut count = 0;
    for entry in history {
        count += is_locked(&entry.reply) as usize;
    }
    count
}

fn all_entries(histories: &[List<Entry>]) -> u128
    ensures { result ≡ sum_by (λ history. length history) histories.now }
{
    let mut count = 0;
    for history in histories {
        count += history.items().len() as u128;
    }
    count
}

fn all_redrives(histories: &[List<Entry>]) -> u128
    ensures { result ≡ sum_by (entries_with is_redrive) histories.now }
{
    let mut count = 0;
    for history in histories {
        count += redrives_in(history.items()) as u128;
    }
    count
}

fn all_locked(histories: &[List<Entry>]) -> u128
    ensures { result ≡ sum_by (entries_with is_locked) histories.now }
{
    let mut count = 0;
    for history in histories {
        count += locked_in(history.items()) as u128;
    }
    count
}

/// Adds the lines on the entries of all histories.
fn put_entries(out: &mut Vec<u8>, histories: &[List<Entry>]) -> Result<(), NoMemory>
    ensures { OnOk result (out.new.items ≡ out.old.items ++ entries_lines histories.now) }
{
    put_count(out, b"ENTRIES", all_entries(histories))?;
    put_count(out, b"REDRIVES", all_redrives(histories))?;
    put_count(out, b"LOCKED", all_locked(histories))
}

/// Adds the line of a table with so many records.
fn put_table(out: &mut Vec<u8>, table: &TableDef, rows: &[Row]) -> Result<(), NoMemory>
    ensures { OnOk result (out.new.items ≡ out.old.items ++ (codes "TABLE " ++ count_line table.now.name (length rows.now))) }
{
    out.extend_from_slice(b"TABLE ")?;
    put_count(out, table.name.bytes(), rows.len() as u128)
}

/// Adds a line for each table.
fn put_tables(out: &mut Vec<u8>, tables: &[TableDef], records: &[List<Row>]) -> Result<(), NoMemory>
    ensures { OnOk result (out.new.items ≡ out.old.items ++ table_lines tables.now records.now) }
{
    let mut rest = records;
    for table in tables {
        match rest {
            [rows, behind @ ..] => {
                put_table(out, table, rows.items())?;
                rest = behind;
            }
            [] => return Ok(()),
        }
    }
    Ok(())
}

fn print_summary(
    alloc: Global,
    tables: &[TableDef],
    shown: &[Shown],
    histories: &[List<Entry>],
    records: &[List<Row>],
) -> Result<Vec<u8>, NoMemory>
    ensures { IfOk result (λ bytes. bytes.items ≡ summary_text tables.now shown.now histories.now records.now) }
{
    let mut out = Vec::new(alloc);
    put_attempts(&mut out, shown)?;
    put_entries(&mut out, histories)?;
    put_tables(&mut out, tables, records)?;
    Ok(out)
}

/// The summary of a legal record: how its attempts ended, as the logs of the sessions tell them, how many entries its
/// histories have, and how many records the tables have at the end.
pub fn summary(alloc: Global, script: &Script, kept: &RunRecord) -> Result<Vec<u8>, NoMemory>
    requires { Legal script.now kept.now }
    ensures { IfOk result (λ bytes. IsSummary script.now kept.now bytes.items) }
{
    let tables = script.tables.items();
    let shown = sessions_read(alloc, script, kept.logs.items())?;
    let records = tables_read(alloc, tables, kept.rows.items())?;
    print_summary(
        alloc,
        tables,
        shown.items(),
        kept.histories.items(),
        records.items(),
    )
}
