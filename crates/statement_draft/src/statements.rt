//! Sessions, works and statements, as their words come.
ghost use Rattle.std.specs.Prelude.{◌≡◌, ◌+◌, ◌*◌, IfOk, OnOk, slice_get, option_and_then, List};
ghost use Rattle.statement_draft.specs.Names.{column_named};
ghost use Rattle.statement_draft.specs.StatementEvents.{session_begins, times, statement_kind_of, no_statement, statement_begins, statement_came, work_begins, scope_of, table_came, insert_came, selected_came, select_found, selected_from, places_from, selected, names_judged, select_table_came, where_came, access_named, access_came, mode_came, insert_row_ends, statement_drafted, statement_ends, work_ends, session_ends};

use crate::draft::{Draft, NameAt, NewStatement, RowOf, Scope, StatementKind};
use crate::faults::{Fault, Reason, noted};
use crate::names::{column_named, is_long, table_named};
use crate::rows::{kinds_of, record_counted};
use crate::tables::contains;
use sql_base::{Access, Column, List, Mode, Name, NoMemory, Row, Statement, Work};
use statement_grammar::is_key;
use statement_words::{Keyword, Word};
use std::alloc::Global;
use std::mem::replace;

pub fn session_begins(alloc: Global, at: u32, draft: &mut Draft)
    ensures { draft.new ≡ session_begins at draft.old }
{
    let over = draft.sessions.items().len() >= 8;
    draft.first = noted(over, Reason::OverLimit, at, draft.first);
    draft.session = List::new(alloc);
}

/// How often transactions may run, all together, counted up to a bound where RESTART is in its range.
fn runs(count: u32, draft: &Draft) -> u64
    ensures { result ≡ count * times draft.now }
{
    u64::from(count) * (u64::from(draft.limits.restart) + 1)
}

fn statement_kind_of(word: &Word) -> StatementKind
    ensures { result ≡ statement_kind_of word.now }
{
    if is_key(word, Keyword::Select) {
        StatementKind::Select
    } else if is_key(word, Keyword::Update) {
        StatementKind::Update
    } else if is_key(word, Keyword::Delete) {
        StatementKind::Delete
    } else if is_key(word, Keyword::Insert) {
        StatementKind::Insert
    } else {
        StatementKind::Lock
    }
}

pub fn no_statement(alloc: Global, kind: StatementKind, at: u32) -> NewStatement
    ensures { result ≡ no_statement kind at }
{
    NewStatement {
        kind,
        at,
        table: None,
        names: List::new(alloc),
        columns: List::new(alloc),
        where_at: 0,
        filter: None,
        access: Access::Repeatable,
        mode: Mode::X,
        sets_at: 0,
        column: None,
        column_at: 0,
        sets: List::new(alloc),
        code: 1,
    }
}

fn statement_begins(alloc: Global, word: &Word, at: u32, draft: &mut Draft)
    ensures { draft.new ≡ statement_begins word.now at draft.old }
{
    let count = draft.statements.min(500) + 1;
    let over = runs(count, draft) > 500;
    draft.first = noted(over, Reason::OverLimit, at, draft.first);
    draft.statements = count;
    draft.statement = no_statement(alloc, statement_kind_of(word), at);
}

pub fn statement_came(alloc: Global, word: &Word, at: u32, draft: &mut Draft)
    ensures { draft.new ≡ statement_came word.now at draft.old }
{
    if is_key(word, Keyword::Commit) {
        draft.commit = true;
    } else if is_key(word, Keyword::Rollback) {
        draft.commit = false;
    } else {
        statement_begins(alloc, word, at, draft);
    }
}

pub fn work_begins(alloc: Global, word: &Word, at: u32, draft: &mut Draft)
    ensures { draft.new ≡ work_begins word.now at draft.old }
{
    let count = draft.works.min(1_000) + 1;
    let over = runs(count, draft) > 1_000;
    draft.first = noted(over, Reason::OverLimit, at, draft.first);
    draft.works = count;
    draft.work = List::new(alloc);
    statement_came(alloc, word, at, draft);
}

fn scope_of(table: Option<u8>) -> Scope
    ensures { result ≡ scope_of table }
{
    match table {
        Some(place) => Scope::Table(place),
        None => Scope::Unknown,
    }
}

pub fn table_came(name: &Name, at: u32, draft: &mut Draft)
    ensures { draft.new ≡ table_came name.now at draft.old }
{
    let table = table_named(draft.tables.items(), name);
    let first = noted(is_long(name), Reason::OverLimit, at, draft.first);
    draft.first = noted(!table.is_some(), Reason::UnknownName, at, first);
    draft.scope = scope_of(table);
    draft.statement.table = table;
}

pub fn insert_came(alloc: Global, name: &Name, at: u32, draft: &mut Draft) -> Result<(), NoMemory>
    ensures { OnOk result (draft.new ≡ insert_came name.now at draft.old) }
{
    table_came(name, at, draft);
    draft.row.of = RowOf::Insert;
    draft.row.kinds = kinds_of(alloc, draft.tables.items(), draft.statement.table)?;
    Ok(())
}

pub fn selected_came(name: Name, at: u32, draft: &mut Draft) -> Result<(), NoMemory>
    ensures { OnOk result (draft.new ≡ selected_came name at draft.old) }
{
    draft.first = noted(is_long(&name), Reason::OverLimit, at, draft.first);
    draft.statement.names.push(NameAt { name, at })?;
    Ok(())
}

fn select_found(
    place: Option<u8>,
    at: u32,
    columns: &mut List<u8>,
    first: Option<Fault>,
) -> Result<Option<Fault>, NoMemory>
    ensures { IfOk result (λ x. record { columns = columns.new; first = x } ≡ select_found place at (record { columns = columns.old; first = first })) }
{
    match place {
        Some(place) => {
            let again = contains(columns.items(), place);
            if !again {
                columns.push(place)?;
            }
            Ok(noted(again, Reason::Repeated, at, first))
        }
        None => Ok(noted(true, Reason::UnknownName, at, first)),
    }
}

/// The places of the columns.
#[tactic(auto, unfolding(crate::specs::StatementEvents::places_from))]
fn places(alloc: Global, columns: &[Column]) -> Result<List<u8>, NoMemory>
    ensures { IfOk result (λ places. places ≡ places_from 0 columns.now) }
{
    let mut places = List::new(alloc);
    for (at, _) in columns.iter().enumerate() {
        if at >= 32 {
            return Ok(places);
        }
        places.push(at as u8)?;
    }
    Ok(places)
}

/// The columns of these names, and the first fault with theirs.
#[tactic(auto, unfolding(crate::specs::StatementEvents::selected_from))]
fn selected(
    alloc: Global,
    columns: &[Column],
    names: &[NameAt],
    first: Option<Fault>,
) -> Result<(List<u8>, Option<Fault>), NoMemory>
    ensures { IfOk result (λ x. record { columns = x.0; first = x.1 } ≡ selected columns.now names.now first) }
{
    if names.is_empty() {
        return Ok((places(alloc, columns)?, first));
    }
    let mut chosen = List::new(alloc);
    let mut first = first;
    for name in names {
        let place = column_named(columns, &name.name);
        first = select_found(place, name.at, &mut chosen, first)?;
    }
    Ok((chosen, first))
}

fn names_judged(alloc: Global, draft: &mut Draft) -> Result<(), NoMemory>
    ensures { OnOk result (draft.new ≡ names_judged (option_and_then (slice_get draft.old.tables) draft.old.statement.table) draft.old) }
{
    let Some(place) = draft.statement.table else {
        return Ok(());
    };
    let Some(table) = draft.tables.items().get(place as usize) else {
        return Ok(());
    };
    let names = draft.statement.names.items();
    let (columns, first) = selected(alloc, table.columns.items(), names, draft.first)?;
    draft.first = first;
    draft.statement.columns = columns;
    Ok(())
}

pub fn select_table_came(
    alloc: Global,
    name: &Name,
    at: u32,
    draft: &mut Draft,
) -> Result<(), NoMemory>
    ensures { OnOk result (draft.new ≡ select_table_came name.now at draft.old) }
{
    table_came(name, at, draft);
    names_judged(alloc, draft)
}

pub fn where_came(at: u32, draft: &mut Draft)
    ensures { draft.new ≡ where_came at draft.old }
{
    draft.statement.where_at = at;
}

fn access_of(word: &Word) -> Access
    ensures { result ≡ access_named word.now }
{
    if is_key(word, Keyword::Browse) {
        Access::Browse
    } else if is_key(word, Keyword::Stable) {
        Access::Stable
    } else {
        Access::Repeatable
    }
}

pub fn access_came(word: &Word, draft: &mut Draft)
    ensures { draft.new ≡ access_came word.now draft.old }
{
    draft.statement.access = access_of(word);
}

pub fn mode_came(word: &Word, draft: &mut Draft)
    ensures { draft.new ≡ mode_came word.now draft.old }
{
    draft.statement.mode = if is_key(word, Keyword::Share) {
        Mode::S
    } else {
        Mode::X
    };
}

pub fn insert_row_ends(draft: &mut Draft)
    ensures { draft.new ≡ insert_row_ends draft.old }
{
    let at = draft.statement.at;
    record_counted(at, draft);
}

fn statement_of(table: u8, statement: NewStatement, row: Row) -> Statement
    ensures { result ≡ statement_drafted statement.kind table statement row }
{
    let NewStatement {
        kind,
        at: _,
        table: _,
        names: _,
        columns,
        where_at: _,
        filter,
        access,
        mode,
        sets_at: _,
        column: _,
        column_at: _,
        sets,
        code: _,
    } = statement;
    match kind {
        StatementKind::Select => Statement::Select {
            table,
            columns,
            filter,
            access,
        },
        StatementKind::Update => Statement::Update {
            table,
            sets,
            filter,
            access,
        },
        StatementKind::Delete => Statement::Delete {
            table,
            filter,
            access,
        },
        StatementKind::Insert => Statement::Insert { table, row },
        StatementKind::Lock => Statement::LockTable { table, mode },
    }
}

pub fn statement_ends(alloc: Global, draft: &mut Draft) -> Result<(), NoMemory>
    ensures { OnOk result (draft.new ≡ statement_ends draft.old) }
{
    let Some(table) = draft.statement.table else {
        return Ok(());
    };
    let none = no_statement(alloc, StatementKind::Lock, 0);
    let statement = replace(&mut draft.statement, none);
    let values = replace(&mut draft.row.values, List::new(alloc));
    let statement = statement_of(table, statement, Row::from_values(values));
    draft.work.push(statement)?;
    Ok(())
}

pub fn work_ends(alloc: Global, draft: &mut Draft) -> Result<(), NoMemory>
    ensures { OnOk result (draft.new ≡ work_ends draft.old) }
{
    let statements = replace(&mut draft.work, List::new(alloc));
    draft.session.push(Work {
        statements,
        commit: draft.commit,
    })?;
    Ok(())
}

pub fn session_ends(alloc: Global, draft: &mut Draft) -> Result<(), NoMemory>
    ensures { OnOk result (draft.new ≡ session_ends draft.old) }
{
    let session = replace(&mut draft.session, List::new(alloc));
    if draft.sessions.items().len() < 8 {
        draft.sessions.push(session)?;
    }
    Ok(())
}
