//! What finished statements gave, by the entries of their attempt.
ghost use Rattle.std.specs.Prelude.{◌≡◌, ◌≤◌, ◌++◌, ◌-◌, [], IfOk, OnOk, filter, flat_map, slice_get, sum, map, length, if◌then◌else◌};
ghost use Rattle.std.specs.List.{AllByRecursion, cons_option};
ghost use Rattle.sql_base.specs.Rows.{chosen, kinds};
ghost use Rattle.sql_base.specs.Scripts.{parts_of};
ghost use Rattle.sql_base.specs.Tables.{IsStatement, IsTable};
ghost use Rattle.session_grammar.specs.Plans.{Asker, plan_of};
ghost use Rattle.session_grammar.specs.Rows.{is_for};
ghost use Rattle.run_record.specs.Serial.{entry_changed, entry_rows, part_gives};
ghost use Rattle.run_record.specs.Tiles.{reply_changed, reply_rows};
ghost use Rattle.session_grammar.specs.Plans.{sents_of};
ghost use Rattle.record_text.specs.Scaffold.Reading.{closes, givens_read, part_length};
ghost use Rattle.record_text.specs.Scaffold.Giving.{rows_for};

use crate::entries::closes;
use dp_messages::Reply;
use session_grammar::{Answer, LogEntry, Plan, Sent};
use sql_base::{ColumnKind, Given, List, NoMemory, Packed, Statement, TableDef};
use statement_plans::plan;
use std::alloc::Global;

// How many subsets or requests are left to close behind an entry.
fn left_behind(left: usize, entry: &LogEntry) -> usize
    requires { 1 ≤ left }
    ensures { result ≡ if closes entry.now then left - 1 else left }
{
    if closes(entry) { left - 1 } else { left }
}

// How many entries at the front are the part of a finished statement with so many subsets or requests.
fn part_length(many: usize, entries: &[LogEntry]) -> usize
    ensures length { result ≡ part_length many entries.now }
    ensures within { result ≤ length entries.now }
{
    let mut left = many;
    for (place, entry) in entries.iter().enumerate() {
        if left == 0 {
            return place;
        }
        left = left_behind(left, entry);
    }
    entries.len()
}

fn sents_of(plan: &Plan) -> &[Sent]
    ensures { result.now ≡ sents_of plan.now }
{
    match plan {
        Plan::Subsets(sents) => sents.items(),
        Plan::Singles(sents) => sents.items(),
    }
}

fn packed_copy(row: &Packed) -> Result<Packed, NoMemory>
    ensures { IfOk result (λ copy. copy ≡ row.now) }
{
    Ok(row.clone()?)
}

fn push_copies(rows: &mut List<Packed>, more: &[Packed]) -> Result<(), NoMemory>
    ensures { OnOk result (rows.new ≡ rows.old ++ more.now) }
{
    for row in more {
        rows.push(packed_copy(row)?)?;
    }
    Ok(())
}

fn push_reply_rows(rows: &mut List<Packed>, reply: &Reply) -> Result<(), NoMemory>
    ensures { OnOk result (rows.new ≡ rows.old ++ reply_rows reply.now) }
{
    match reply {
        Reply::Ended { rows: more, .. } | Reply::Redrive { rows: more, .. } => {
            push_copies(rows, more.items())
        }
        Reply::Row(row) => rows.push(packed_copy(row)?),
        _ => Ok(()),
    }
}

fn push_entry_rows(rows: &mut List<Packed>, entry: &LogEntry) -> Result<(), NoMemory>
    ensures { OnOk result (rows.new ≡ rows.old ++ entry_rows entry.now) }
{
    match entry {
        LogEntry::Asked {
            answer: Answer::Reply(reply),
            ..
        } => push_reply_rows(rows, reply),
        LogEntry::Asked { .. } => Ok(()),
        LogEntry::Drew { .. } => Ok(()),
    }
}

fn is_for(part: u32, entry: &LogEntry) -> bool
    ensures { result ≡ is_for part entry.now }
{
    match entry {
        LogEntry::Asked { part: asked, .. } => *asked == part,
        LogEntry::Drew { .. } => false,
    }
}

// The rows of one partition, in the order of the log.
fn push_rows_for(rows: &mut List<Packed>, part: u32, entries: &[LogEntry]) -> Result<(), NoMemory>
    ensures { OnOk result (rows.new ≡ rows.old ++ flat_map entry_rows (filter (is_for part) entries.now)) }
{
    for entry in entries {
        if is_for(part, entry) {
            push_entry_rows(rows, entry)?;
        }
    }
    Ok(())
}

// The rows of a part, in rising partitions.
fn rows_of(alloc: Global, sents: &[Sent], entries: &[LogEntry]) -> Result<List<Packed>, NoMemory>
    ensures { IfOk result (λ rows. rows ≡ rows_for sents.now entries.now) }
{
    let mut rows = List::new(alloc);
    for sent in sents {
        push_rows_for(&mut rows, sent.part, entries)?;
    }
    Ok(rows)
}

fn reply_changed(reply: &Reply) -> u32
    ensures { result ≡ reply_changed reply.now }
{
    match reply {
        Reply::Ended { changed, .. } | Reply::Redrive { changed, .. } => *changed,
        _ => 0,
    }
}

fn entry_changed(entry: &LogEntry) -> u32
    ensures { result ≡ entry_changed entry.now }
{
    match entry {
        LogEntry::Asked {
            answer: Answer::Reply(reply),
            ..
        } => reply_changed(reply),
        LogEntry::Asked { .. } => 0,
        LogEntry::Drew { .. } => 0,
    }
}

// How many records a part changed.
fn changed_by(entries: &[LogEntry]) -> u128
    ensures { result ≡ sum (map entry_changed entries.now) }
{
    let mut count = 0;
    for entry in entries {
        count += entry_changed(entry) as u128;
    }
    count
}

fn kind_at(table: &TableDef, column: u8) -> Option<ColumnKind>
    ensures { result ≡ slice_get (kinds table.now) column }
{
    match table.columns.items().get(column as usize) {
        Some(column) => Some(column.kind),
        None => None,
    }
}

fn push_kind(found: &mut List<ColumnKind>, kind: Option<ColumnKind>) -> Result<(), NoMemory>
    ensures { OnOk result (found.new ≡ found.old ++ cons_option kind []) }
{
    match kind {
        Some(kind) => found.push(kind),
        None => Ok(()),
    }
}

// The kinds of the named columns.
fn kinds_of(alloc: Global, table: &TableDef, columns: &[u8]) -> Result<List<ColumnKind>, NoMemory>
    ensures { IfOk result (λ found. found ≡ chosen columns.now (kinds table.now)) }
{
    let mut found = List::new(alloc);
    for column in columns {
        push_kind(&mut found, kind_at(table, *column))?;
    }
    Ok(found)
}

// What a finished statement gave.
fn given_of(
    alloc: Global,
    tables: &[TableDef],
    statement: &Statement,
    sents: &[Sent],
    entries: &[LogEntry],
) -> Result<Given, NoMemory>
    requires statement { IsStatement tables.now statement.now }
    ensures { IfOk result (λ given. (r : Asker) → r.tables ≡ tables.now → sents.now ≡ sents_of (plan_of r statement.now) → given ≡ part_gives r statement.now entries.now) }
{
    match statement {
        Statement::Select { table, columns, .. } => Ok(Given::Rows {
            kinds: kinds_of(alloc, &tables[*table as usize], columns.items())?,
            rows: rows_of(alloc, sents, entries)?,
        }),
        Statement::Update { .. } => Ok(Given::Count(changed_by(entries))),
        Statement::Delete { .. } => Ok(Given::Count(changed_by(entries))),
        Statement::Insert { .. } => Ok(Given::Silent),
        Statement::LockTable { .. } => Ok(Given::Silent),
    }
}

/// What finished statements gave, each by its own entries.
pub(crate) fn givens(
    alloc: Global,
    tables: &[TableDef],
    statements: &[Statement],
    entries: &[LogEntry],
) -> Result<List<Given>, NoMemory>
    requires tables { AllByRecursion IsTable tables.now }
    requires parts { parts_of tables.now ≤ 16 }
    requires statements { AllByRecursion (IsStatement tables.now) statements.now }
    ensures { IfOk result (λ given. (r : Asker) → r.tables ≡ tables.now → given ≡ givens_read r statements.now entries.now) }
{
    let mut given = List::new(alloc);
    let mut rest = entries;
    for statement in statements {
        let plan = plan(alloc, tables, statement)?;
        let sents = sents_of(&plan);
        let (part, behind) = rest.split_at(part_length(sents.len(), rest));
        given.push(given_of(alloc, tables, statement, sents, part)?)?;
        rest = behind;
    }
    Ok(given)
}
