//! The codes of requests, verified.
ghost use Rattle.std.specs.Prelude.{◌≡◌, IfOk, IfSome, Err, None, Some, option_map};
ghost use Rattle.sql_base.specs.Tables.{IsFilter};
ghost use Rattle.constraint_checks.specs.Judging.{tree_of};
ghost use Rattle.predicate_codes.specs.Decoding.{filter_of};
ghost use Rattle.predicate_codes.specs.SetLists.{sets_of};
ghost use Rattle.quantum_core.specs.declared.works.Doing.TheVariants as doing;
ghost use Rattle.quantum_runner.specs.Scaffold.Works.{IsDoing, IsWork, doing_in};
ghost use Rattle.partition_state.specs.Step.{set_work};

use predicate_runner::{CodeFault, ExprKind, Verified, verify};
use quantum_runner::{Task, Work};
use sql_base::{Code, NoMemory, TableDef};
use std::alloc::Global;
use update_expressions::verify_sets;

/// The work of a filter and what is done with the records that meet it, or none where the code is of no filter.
pub fn read_work(
    alloc: Global,
    table: &TableDef,
    filter: &Option<Code>,
    task: Task,
) -> Result<Option<Work>, NoMemory>
    requires { IsDoing table.now (doing_in task) }
    ensures work { IfOk result (λ work. work ≡ set_work (filter_of table.now filter.now) (Some (doing_in task))) }
    ensures table { IfOk result (λ work. IfSome work (IsWork table.now)) }
{
    match read_filter(alloc, table, filter) {
        Ok(filter) => Ok(Some(Work::new(filter, task))),
        Err(CodeFault::BadCode) => Ok(None),
        Err(CodeFault::NoMemory) => Err(NoMemory),
    }
}

/// The work of an UPDATE, or none where one of its codes is of no filter or SET list.
pub fn read_update(
    alloc: Global,
    table: &TableDef,
    filter: &Option<Code>,
    sets: &Code,
) -> Result<Option<Work>, NoMemory>
    ensures work { IfOk result (λ work. work ≡ set_work (filter_of table.now filter.now) (option_map doing.Update (sets_of table.now sets.now))) }
    ensures table { IfOk result (λ work. IfSome work (IsWork table.now)) }
{
    match verify_sets(alloc, sets.bytes(), table) {
        Ok(sets) => read_work(alloc, table, filter, Task::Update(sets)),
        Err(fault) => no_work(fault),
    }
}

fn no_work(fault: CodeFault) -> Result<Option<Work>, NoMemory>
    ensures none { IfOk result (λ work. work ≡ None) }
    ensures bad { IfOk result (λ _. fault ≡ CodeFault.BadCode) }
{
    match fault {
        CodeFault::BadCode => Ok(None),
        CodeFault::NoMemory => Err(NoMemory),
    }
}

fn read_filter(
    alloc: Global,
    table: &TableDef,
    filter: &Option<Code>,
) -> Result<Option<Verified>, CodeFault>
    ensures read { IfOk result (λ read. filter_of table.now filter.now ≡ Some (option_map tree_of read)) }
    ensures table { IfOk result (λ read. IsFilter table.now (option_map tree_of read)) }
    ensures bad { result ≡ Err CodeFault.BadCode → filter_of table.now filter.now ≡ None }
{
    match filter {
        Some(code) => match read_predicate(alloc, table, code) {
            Ok(predicate) => Ok(Some(predicate)),
            Err(fault) => Err(fault),
        },
        None => Ok(None),
    }
}

fn read_predicate(alloc: Global, table: &TableDef, code: &Code) -> Result<Verified, CodeFault>
    ensures read { IfOk result (λ read. filter_of table.now (Some code.now) ≡ Some (Some read.tree)) }
    ensures table { IfOk result (λ read. IsFilter table.now (Some read.tree)) }
    ensures bad { result ≡ Err CodeFault.BadCode → filter_of table.now (Some code.now) ≡ None }
{
    match verify(alloc, code.bytes(), table) {
        Ok(verified) => match verified.kind() {
            ExprKind::Truth => Ok(verified),
            ExprKind::Number => Err(CodeFault::BadCode),
            ExprKind::Text(_width) => Err(CodeFault::BadCode),
        },
        Err(fault) => Err(fault),
    }
}
