//! What is done with the records of a subset, with its codes verified.
ghost use Rattle.std.specs.Prelude.{◌≡◌, ◌<◌, length, All, IfOk, Err, Ok, Some, Result, option_map};
ghost use Rattle.sql_base.specs.Kinds.{Kind, IsExpr};
ghost use Rattle.sql_base.specs.OnRows.{fault_of, first_failing, updated};
ghost use Rattle.sql_base.specs.Rows.{IsRow, packed};
ghost use Rattle.sql_base.specs.Tables.{AreSets, IsFilter};
ghost use Rattle.sql_base.specs.Val.{filter_val, val};
ghost use Rattle.sql_base.specs.declared.tables.TableDef.{TableDef};
ghost use Rattle.constraint_checks.specs.Judging.{tree_of};
ghost use Rattle.quantum_core.specs.Verdicts.{if_kept, on_new_row};
ghost use Rattle.quantum_runner.specs.Scaffold.Works.{IsDoing, does_change, doing_in, effect_on, met_by};

use crate::tables::CheckedTable;
use predicate_runner::{Verified, holds_on};
use quantum_core::{Effect, Verdict};
use sql_base::{EvalFault, Fault, List, NoMemory, Row, pack};
use std::alloc::Global;
use std::marker::Model;
use update_expressions::{ApplyFault, VerifiedSets, apply};

/// What is done with the selected records.
#[derive(Debug, Drop)]
pub enum Task {
    /// Gives the named columns. Columns count from 0.
    Read(List<u8>),
    /// Gives each column of the list its new value, all taken from the old row.
    Update(VerifiedSets),
    Delete,
}

/// Which records of a subset are selected, all without a filter, and what is done with them. Contracts see the
/// work whose codes these are.
#[derive(Debug, Drop)]
pub struct Work {
    filter: Option<Verified>,
    task: Task,
}

impl Model for Work {
    ghost use Rattle.std.specs.Prelude.{option_map};
    ghost use Rattle.std.specs.Coded.{codes};
    ghost use Rattle.sql_base.specs.contracts.expressions.Expr as e;
    ghost use Rattle.constraint_checks.specs.Judging.{tree_of};
    ghost use Rattle.quantum_core.specs.declared.works.SetWork as set_work;
    ghost use Rattle.quantum_runner.specs.Scaffold.Works.{doing_in};

    ghost Value = { set_work.SetWork };

    ghost coded = { Prim.hlevel (codes, e.the_row.coded) };

    ghost view = { λ w. record { filter = option_map tree_of w.filter; doing = doing_in w.task } };
}

impl Work {
    pub fn new(filter: Option<Verified>, task: Task) -> Work
        ensures filter { result.filter ≡ option_map tree_of filter }
        ensures doing { result.doing ≡ doing_in task }
    {
        Work { filter, task }
    }

    /// Whether a row of the table meets the filter.
    pub fn passes(&self, row: &Row) -> Result<bool, Fault>
        requires { (table : TableDef) × IsFilter table self.now.filter × IsRow table row.now }
        ensures { result ≡ met_by (filter_val self.now.filter row.now) }
    {
        passes(&self.filter, row)
    }

    /// Whether records are changed.
    pub fn changes(&self) -> bool
        ensures { result ≡ does_change self.now.doing }
    {
        match &self.task {
            Task::Read(_) => false,
            Task::Update(_) => true,
            Task::Delete => true,
        }
    }

    /// The verdict on a record with this row, which meets the filter and against which no lock stands.
    pub fn effect(
        &self,
        alloc: Global,
        table: &CheckedTable,
        row: &Row,
    ) -> Result<Verdict, NoMemory>
        requires doing { IsDoing table.now self.now.doing }
        requires row { IsRow table.now row.now }
        ensures { IfOk result (λ verdict. verdict ≡ effect_on table.now self.now.doing row.now) }
    {
        effect(alloc, &self.task, table, row)
    }
}

fn passes(filter: &Option<Verified>, row: &Row) -> Result<bool, Fault>
    requires { (table : TableDef) × IsFilter table (option_map tree_of filter.now) × IsRow table row.now }
    ensures { result ≡ met_by (filter_val (option_map tree_of filter.now) row.now) }
{
    match filter {
        None => Ok(true),
        Some(code) => is_true(code, row),
    }
}

fn is_true(code: &Verified, row: &Row) -> Result<bool, Fault>
    requires { (table : TableDef) × (kind : Kind) × IsExpr table kind code.now.tree × IsRow table row.now }
    ensures { result ≡ met_by (val code.now.tree row.now) }
{
    match holds_on(code, row) {
        Ok(truth) => Ok(truth),
        Err(fault) => Err(fault_of(fault)),
    }
}

fn fault_of(fault: EvalFault) -> Fault
    ensures { result ≡ fault_of fault }
{
    match fault {
        EvalFault::Overflow => Fault::Overflow,
        EvalFault::ZeroDivide => Fault::ZeroDivide,
    }
}

fn effect(alloc: Global, task: &Task, table: &CheckedTable, row: &Row) -> Result<Verdict, NoMemory>
    requires doing { IsDoing table.now (doing_in task.now) }
    requires row { IsRow table.now row.now }
    ensures { IfOk result (λ verdict. verdict ≡ effect_on table.now (doing_in task.now) row.now) }
{
    match task {
        Task::Read(columns) => give(alloc, row, columns.items()),
        Task::Update(sets) => update(alloc, table, sets, row),
        Task::Delete => Ok(Verdict::Selected(Effect::Goes)),
    }
}

fn give(alloc: Global, row: &Row, columns: &[u8]) -> Result<Verdict, NoMemory>
    requires { All (λ c. c < length row.now) columns.now }
    ensures { IfOk result (λ verdict. verdict ≡ Verdict.Selected (Effect.Gives (packed columns.now row.now))) }
{
    Ok(Verdict::Selected(Effect::Gives(pack(alloc, row, columns)?)))
}

fn update(
    alloc: Global,
    table: &CheckedTable,
    sets: &VerifiedSets,
    row: &Row,
) -> Result<Verdict, NoMemory>
    requires sets { AreSets table.now sets.now }
    requires row { IsRow table.now row.now }
    ensures { IfOk result (λ verdict. verdict ≡ on_new_row table.now (updated table.now sets.now row.now)) }
{
    match apply(alloc, sets, row) {
        Ok(new) => Ok(keep(table, new)),
        Err(ApplyFault::Eval(fault)) => Ok(Verdict::Faulty(fault_of(fault))),
        Err(ApplyFault::NoMemory) => Err(NoMemory),
    }
}

fn keep(table: &CheckedTable, row: Row) -> Verdict
    requires { IsRow table.now row }
    ensures { result ≡ if_kept row (first_failing table.now.checks row) }
{
    match table.first_failing(&row) {
        Some(fault) => Verdict::Faulty(fault),
        None => Verdict::Selected(Effect::Becomes(row)),
    }
}
