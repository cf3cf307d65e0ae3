//! Scripts by their lines, their tables and statements.
ghost use Rattle.std.specs.Prelude.{◌≡◌, ◌≤◌, ◌∷◌, [], length, IfOk};
ghost use Rattle.sql_base.specs.Scripts.{IsScript};
ghost use Rattle.sql_base.specs.Tables.{IsTable, SuitsTable};

use crate::plain_checks::PlainChecks;
use sql_base::{NoMemory, Script, Statement, TableDef};
use statement_reader::read_script;
use std::alloc::Global;
use std::test::Fail;

/// The lines, with an end between them.
pub fn joined(alloc: Global, lines: &[&str]) -> Result<Vec<u8>, NoMemory> {
    let mut bytes = Vec::new(alloc);
    for line in lines {
        if !bytes.is_empty() {
            bytes.push(b'\n')?;
        }
        bytes.extend_from_slice(line.as_bytes())?;
    }
    Ok(bytes)
}

/// The script of the lines.
pub fn script_of(alloc: Global, lines: &[&str]) -> Result<Script, Fail>
    ensures { IfOk result IsScript }
{
    let text = joined(alloc, lines)?;
    match read_script(alloc, &PlainChecks, text.as_slice()) {
        Ok(script) => Ok(script),
        Err(_fault) => Err("no script".into()),
    }
}

/// The one table of a script.
#[tactic(auto, using(crate::proofs::Openings::one_table, crate::proofs::Openings::few_firsts))]
pub fn table_in(script: &Script) -> Result<&TableDef, Fail>
    requires { IsScript script.now }
    ensures one { IfOk result (λ table. script.now.tables ≡ table.now ∷ []) }
    ensures table { IfOk result (λ table. IsTable table.now) }
    ensures few { IfOk result (λ table. length table.now.firsts ≤ 15) }
{
    let [table] = script.tables.items() else {
        return Err("another number of tables".into());
    };
    Ok(table)
}

/// A statement of the first transaction of a script with one table.
pub fn statement_in<'a>(
    script: &'a Script,
    table: &TableDef,
    at: usize,
) -> Result<&'a Statement, Fail>
    requires script { IsScript script.now }
    requires table { script.now.tables ≡ table.now ∷ [] }
    ensures { IfOk result (λ statement. SuitsTable table.now statement.now) }
{
    let [works, ..] = script.sessions.items() else {
        return Err("no session".into());
    };
    let [work, ..] = works.items() else {
        return Err("no transaction".into());
    };
    match work.statements.items().get(at) {
        Some(statement) => Ok(statement),
        None => Err("no statement".into()),
    }
}
