//! The bytes of a script.
ghost use Rattle.std.specs.Prelude.{◌≡◌, ◌++◌, ◌∷◌, [], IfOk, OnOk, flat_map};
ghost use Rattle.statement_printer.specs.Bytes.{bytes_of};
ghost use Rattle.statement_printer.specs.Printing.{end_key, load_words, printed, printed_statement, session_words, statement_words, table_words, work_words};

use crate::statements::put_statement;
use crate::tables::{put_limits, put_load, put_table};
use crate::words::{put_key, put_keys, put_sign};
use sql_base::{List, Load, NoMemory, Script, Statement, TableDef, Work};
use statement_words::{Keyword, Sign};
use std::alloc::Global;

fn put_statements(
    out: &mut Vec<u8>,
    tables: &[TableDef],
    statements: &[Statement],
) -> Result<(), NoMemory>
    ensures { OnOk result (out.new.items ≡ out.old.items ++ bytes_of (flat_map (statement_words tables.now) statements.now)) }
{
    for statement in statements {
        put_statement(out, tables, statement)?;
    }
    Ok(())
}

fn end_key(commit: bool) -> Keyword
    ensures { result ≡ end_key commit }
{
    if commit {
        Keyword::Commit
    } else {
        Keyword::Rollback
    }
}

fn put_work(out: &mut Vec<u8>, tables: &[TableDef], work: &Work) -> Result<(), NoMemory>
    ensures { OnOk result (out.new.items ≡ out.old.items ++ bytes_of (work_words tables.now work.now)) }
{
    put_statements(out, tables, work.statements.items())?;
    put_keys(out, end_key(work.commit), Keyword::Work)?;
    put_sign(out, Sign::Semicolon)
}

fn put_works(out: &mut Vec<u8>, tables: &[TableDef], works: &[Work]) -> Result<(), NoMemory>
    ensures { OnOk result (out.new.items ≡ out.old.items ++ bytes_of (flat_map (work_words tables.now) works.now)) }
{
    for work in works {
        put_work(out, tables, work)?;
    }
    Ok(())
}

fn put_session(out: &mut Vec<u8>, tables: &[TableDef], works: &List<Work>) -> Result<(), NoMemory>
    ensures { OnOk result (out.new.items ≡ out.old.items ++ bytes_of (session_words tables.now works.now)) }
{
    put_key(out, Keyword::Session)?;
    put_sign(out, Sign::Semicolon)?;
    put_works(out, tables, works.items())
}

fn put_tables(out: &mut Vec<u8>, tables: &[TableDef]) -> Result<(), NoMemory>
    ensures { OnOk result (out.new.items ≡ out.old.items ++ bytes_of (flat_map table_words tables.now)) }
{
    for table in tables {
        put_table(out, table)?;
    }
    Ok(())
}

fn put_loads(out: &mut Vec<u8>, tables: &[TableDef], loads: &[Load]) -> Result<(), NoMemory>
    ensures { OnOk result (out.new.items ≡ out.old.items ++ bytes_of (flat_map (load_words tables.now) loads.now)) }
{
    for load in loads {
        put_load(out, tables, load)?;
    }
    Ok(())
}

fn put_sessions(
    out: &mut Vec<u8>,
    tables: &[TableDef],
    sessions: &[List<Work>],
) -> Result<(), NoMemory>
    ensures { OnOk result (out.new.items ≡ out.old.items ++ bytes_of (flat_map (session_words tables.now) sessions.now)) }
{
    for works in sessions {
        put_session(out, tables, works)?;
    }
    Ok(())
}

/// The bytes of a statement on one of these tables.
pub fn print_statement(
    alloc: Global,
    statement: &Statement,
    tables: &List<TableDef>,
) -> Result<Vec<u8>, NoMemory>
    ensures { IfOk result (λ bytes. bytes.items ≡ printed_statement tables.now statement.now) }
{
    let mut out = Vec::new(alloc);
    put_statement(&mut out, tables.items(), statement)?;
    Ok(out)
}

/// The bytes of a script.
pub fn print_script(alloc: Global, script: &Script) -> Result<Vec<u8>, NoMemory>
    ensures { IfOk result (λ bytes. bytes.items ≡ printed script.now) }
{
    let mut out = Vec::new(alloc);
    let tables = script.tables.items();
    put_limits(&mut out, &script.limits)?;
    put_tables(&mut out, tables)?;
    put_loads(&mut out, tables, script.loads.items())?;
    put_sessions(&mut out, tables, script.sessions.items())?;
    Ok(out)
}
