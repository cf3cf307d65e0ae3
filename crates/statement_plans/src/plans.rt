//! What a statement asks.
ghost use Rattle.std.specs.Prelude.{◌≡◌, ◌≤◌, ◌∷◌, [], ℕ, Option, length, Some, IfOk};
ghost use Rattle.std.specs.List.{AllByRecursion, range_with_len};
ghost use Rattle.sql_base.specs.Rows.{IsRow, key_width};
ghost use Rattle.sql_base.specs.Scripts.{parts_of};
ghost use Rattle.sql_base.specs.Tables.{AreSets, IsFilter, IsStatement, IsTable, SuitsTable};
ghost use Rattle.sql_base.specs.Codes.{sets_code};
ghost use Rattle.sql_base.specs.declared.expressions.Expr.{Expr as Expression};
ghost use Rattle.sql_base.specs.declared.statements.Statement.TheVariants as statement;
ghost use Rattle.session_grammar.specs.Plans.{Asker, begins_in, filter_code, first_part, plan_of, plan_on, select_plan};
ghost use Rattle.session_grammar.specs.declared.plans.Plan.TheVariants.{Subsets};
ghost use Rattle.sql_base.specs.Tables.{table_of};
ghost use Rattle.range_finder.specs.Range.{range};
ghost use Rattle.statement_plans.specs.Scaffold.Begins.{begin_of};

use crate::begins::{Begin, begins, columns_copy, filter_code};
use crate::targets::{first_part, table_of};
use dp_messages::Ask;
use key_ranges::key_range;
use partition_cuts::part_of;
use session_grammar::{Plan, Sent};
use sql_base::{
    Access, Assign, Code, Expr, KeyRange, List, Mode, NoMemory, Prefix, Row, Statement, TableDef,
    pack, row_key,
};
use std::alloc::Global;
use update_expressions::{SetFault, compile_sets};

/// What the statement asks, in rising partitions. It takes the tables of the script, and nothing else of it.
pub fn plan(alloc: Global, tables: &[TableDef], statement: &Statement) -> Result<Plan, NoMemory>
    requires tables { AllByRecursion IsTable tables.now }
    requires parts { parts_of tables.now ≤ 16 }
    requires statement { IsStatement tables.now statement.now }
    ensures { IfOk result (λ plan. (asker : Asker) → asker.tables ≡ tables.now → plan ≡ plan_of asker statement.now) }
{
    let place = table_of(statement) as usize;
    let first = first_part(tables, place);
    let plan = plan_on(alloc, &tables[place], first, statement)?;
    Ok(plan)
}

fn plan_on(
    alloc: Global,
    table: &TableDef,
    first: u32,
    statement: &Statement,
) -> Result<Plan, NoMemory>
    requires table { IsTable table.now }
    requires suits { SuitsTable table.now statement.now }
    requires firsts { length table.now.firsts ≤ 15 }
    requires few { first ≤ 16 }
    ensures { IfOk result (λ plan. (asker : Asker) → first ≡ first_part asker (table_of statement.now) → plan ≡ plan_on asker table.now statement.now) }
{
    match statement {
        Statement::Select {
            columns,
            filter,
            access,
            ..
        } => select(alloc, table, first, columns, filter, *access),
        Statement::Update {
            sets,
            filter,
            access,
            ..
        } => update(alloc, table, first, sets, filter, *access),
        Statement::Delete { filter, access, .. } => delete(alloc, table, first, filter, *access),
        Statement::Insert { row, .. } => insert(alloc, table, first, row),
        Statement::LockTable { mode, .. } => lock_table(alloc, table, first, *mode),
    }
}

/// The code of a SET list of the table, which has no fault.
fn sets_code(alloc: Global, sets: &List<Assign>, table: &TableDef) -> Result<Code, NoMemory>
    requires columns { length table.now.columns ≤ 32 }
    requires sets { AreSets table.now sets.now }
    ensures { IfOk result (λ code. code ≡ sets_code sets.now) }
{
    match compile_sets(alloc, sets, table) {
        Ok(code) => Ok(code),
        Err(fault) => Err(no_memory(fault)),
    }
}

/// The one fault that is left where the SET list is one of the table.
fn no_memory(_fault: SetFault) -> NoMemory
    requires { _fault ≡ SetFault.NoMemory }
{
    NoMemory
}

/// A SELECT of one whole key reads it; any other begins in each partition where a piece of its range lies.
fn select(
    alloc: Global,
    table: &TableDef,
    first: u32,
    columns: &List<u8>,
    filter: &Option<Expr>,
    access: Access,
) -> Result<Plan, NoMemory>
    requires table { IsTable table.now }
    requires filter { IsFilter table.now filter.now }
    requires firsts { length table.now.firsts ≤ 15 }
    requires few { first ≤ 16 }
    ensures { IfOk result (λ plan. (asker : Asker) (place : ℕ) → first ≡ first_part asker place → plan ≡ select_plan asker table.now place access filter.now columns.now (range table.now filter.now)) }
{
    match key_range(alloc, filter.as_ref(), table)? {
        Some(range) => {
            let filter = filter_code(alloc, filter, table)?;
            let columns = columns_copy(columns)?;
            select_in(alloc, table, first, range, access, filter, columns)
        }
        None => Ok(Plan::Subsets(List::new(alloc))),
    }
}

fn select_in(
    alloc: Global,
    table: &TableDef,
    first: u32,
    range: KeyRange,
    access: Access,
    filter: Option<Code>,
    columns: List<u8>,
) -> Result<Plan, NoMemory>
    requires table { IsTable table.now }
    requires long { length range.low ≡ key_width table.now }
    requires firsts { length table.now.firsts ≤ 15 }
    requires few { first ≤ 16 }
    ensures { IfOk result (λ plan. (asker : Asker) (place : ℕ) (predicate : Option Expression) → first ≡ first_part asker place → filter ≡ filter_code predicate → plan ≡ select_plan asker table.now place access predicate columns (Some range)) }
{
    if range.low.bytes().cmp(range.high.bytes()).is_eq() {
        let part = first + part_of(table, &range.low);
        let ask = Ask::ReadKey {
            access,
            key: range.low,
            filter,
            columns,
        };
        return Ok(Plan::Singles(one(alloc, part, ask)?));
    }
    let begin = Begin::Read {
        access,
        filter,
        columns,
    };
    Ok(Plan::Subsets(begins(alloc, table, first, &range, &begin)?))
}

fn update(
    alloc: Global,
    table: &TableDef,
    first: u32,
    sets: &List<Assign>,
    filter: &Option<Expr>,
    access: Access,
) -> Result<Plan, NoMemory>
    requires table { IsTable table.now }
    requires sets { AreSets table.now sets.now }
    requires filter { IsFilter table.now filter.now }
    requires firsts { length table.now.firsts ≤ 15 }
    requires few { first ≤ 16 }
    ensures { IfOk result (λ plan. (asker : Asker) (place : ℕ) → first ≡ first_part asker place → plan ≡ plan_on asker table.now (statement.Update place sets.now filter.now access)) }
{
    let begin = Begin::Update {
        access,
        filter: filter_code(alloc, filter, table)?,
        sets: sets_code(alloc, sets, table)?,
    };
    let plan = change(alloc, table, first, filter, &begin)?;
    Ok(plan)
}

fn delete(
    alloc: Global,
    table: &TableDef,
    first: u32,
    filter: &Option<Expr>,
    access: Access,
) -> Result<Plan, NoMemory>
    requires table { IsTable table.now }
    requires filter { IsFilter table.now filter.now }
    requires firsts { length table.now.firsts ≤ 15 }
    requires few { first ≤ 16 }
    ensures { IfOk result (λ plan. (asker : Asker) (place : ℕ) → first ≡ first_part asker place → plan ≡ plan_on asker table.now (statement.Delete place filter.now access)) }
{
    let begin = Begin::Delete {
        access,
        filter: filter_code(alloc, filter, table)?,
    };
    let plan = change(alloc, table, first, filter, &begin)?;
    Ok(plan)
}

/// An UPDATE or a DELETE begins in each partition where a piece of its range lies.
fn change(
    alloc: Global,
    table: &TableDef,
    first: u32,
    filter: &Option<Expr>,
    begin: &Begin,
) -> Result<Plan, NoMemory>
    requires table { IsTable table.now }
    requires firsts { length table.now.firsts ≤ 15 }
    requires few { first ≤ 16 }
    ensures { IfOk result (λ plan. (asker : Asker) (place : ℕ) → first ≡ first_part asker place → plan ≡ Subsets (begins_in asker table.now place (range table.now filter.now) (begin_of begin.now))) }
{
    match key_range(alloc, filter.as_ref(), table)? {
        Some(range) => Ok(Plan::Subsets(begins(alloc, table, first, &range, begin)?)),
        None => Ok(Plan::Subsets(List::new(alloc))),
    }
}

/// An INSERT goes to the partition of its row's key, with all columns in order.
fn insert(alloc: Global, table: &TableDef, first: u32, row: &Row) -> Result<Plan, NoMemory>
    requires table { IsTable table.now }
    requires row { IsRow table.now row.now }
    requires firsts { length table.now.firsts ≤ 15 }
    requires few { first ≤ 16 }
    ensures { IfOk result (λ plan. (asker : Asker) (place : ℕ) → first ≡ first_part asker place → plan ≡ plan_on asker table.now (statement.Insert place row.now)) }
{
    let key = row_key(alloc, row, table)?;
    let columns = all_columns(alloc, row.values().len())?;
    let ask = Ask::Insert {
        row: pack(alloc, row, columns.items())?,
    };
    Ok(Plan::Singles(one(alloc, first + part_of(table, &key), ask)?))
}

fn all_columns(alloc: Global, count: usize) -> Result<List<u8>, NoMemory>
    requires { count ≤ 32 }
    ensures { IfOk result (λ columns. columns ≡ range_with_len 0 count) }
{
    let mut columns = List::new(alloc);
    for column in 0..count {
        columns.push(column as u8)?;
    }
    Ok(columns)
}

/// A LOCK TABLE locks the whole of each of the table's partitions.
fn lock_table(alloc: Global, table: &TableDef, first: u32, mode: Mode) -> Result<Plan, NoMemory>
    requires firsts { length table.now.firsts ≤ 15 }
    requires few { first ≤ 16 }
    ensures { IfOk result (λ plan. (asker : Asker) (place : ℕ) → first ≡ first_part asker place → plan ≡ plan_on asker table.now (statement.LockTable place mode)) }
{
    let mut sents = List::new(alloc);
    for part in 0..table.firsts.items().len() as u32 + 1 {
        sents.push(Sent {
            part: first + part,
            ask: Ask::LockGranule {
                prefix: Prefix::from_vec(Vec::new(alloc)),
                mode,
            },
        })?;
    }
    Ok(Plan::Singles(sents))
}

fn one(alloc: Global, part: u32, ask: Ask) -> Result<List<Sent>, NoMemory>
    ensures { IfOk result (λ sents. sents ≡ record { part = part; ask = ask } ∷ []) }
{
    let mut sents = List::new(alloc);
    sents.push(Sent { part, ask })?;
    Ok(sents)
}
