//! The CHECKs of a table: compiled, and run on a row.
#![tactic(auto)]

ghost use Rattle.std.specs.Prelude.{◌≡◌, ◌<◌, ◌^◌, length, map, All, IfOk};
ghost use Rattle.std.specs.List.{AllByRecursion};
ghost use Rattle.sql_base.specs.Kinds.{Kind, OfTruth, IsExpr};
ghost use Rattle.sql_base.specs.OnRows.{first_failing, check_fault};
ghost use Rattle.sql_base.specs.Rows.{IsRow};
ghost use Rattle.sql_base.specs.Val.{val};
ghost use Rattle.sql_base.specs.declared.tables.TableDef.{TableDef};
ghost use Rattle.predicate_runner.specs.Outlines.{Checked};
ghost use Rattle.constraint_checks.specs.Judging.{AreChecks, IsCheck, tree_of};

use predicate_runner::{CodeFault, Item, Verified, compile, run, verify};
use sql_base::{EvalFault, Expr, Fault, List, NoMemory, Row, TableDef};
use std::alloc::Global;

/// The verified codes of the table's CHECKs, in their order.
pub fn compile_checks(alloc: Global, table: &TableDef) -> Result<List<Verified>, NoMemory>
    requires { AllByRecursion (IsExpr table.now OfTruth) table.now.checks }
    ensures { IfOk result (λ checks. AreChecks table.now checks) }
{
    let mut checks = List::new(alloc);
    for check in table.checks.items() {
        checks.push(compile_check(alloc, check, table)?)?;
    }
    Ok(checks)
}

fn compile_check(alloc: Global, check: &Expr, table: &TableDef) -> Result<Verified, NoMemory>
    requires { IsExpr table.now OfTruth check.now }
    ensures { IfOk result (λ verified. IsCheck table.now check.now verified) }
{
    let code = compile(alloc, check, table)?;
    match verify(alloc, code.bytes(), table) {
        Ok(verified) => Ok(verified),
        Err(CodeFault::NoMemory) => Err(NoMemory),
        Err(CodeFault::BadCode) => unreachable!(),
    }
}

/// The fault of the first CHECK that faults or isn't true. CHECKs count from 1.
pub fn first_failing(checks: &List<Verified>, row: &Row) -> Option<Fault>
    requires few { length checks.now < 2 ^ 32 }
    requires checks { (table : TableDef) × IsRow table row.now × All (λ check. IsExpr table OfTruth check.tree) checks.now }
    ensures { result ≡ first_failing (map tree_of checks.now) row.now }
{
    let checks = checks.items();
    for (i, check) in checks.iter().enumerate() {
        let fault = judge(check, row, i as u32 + 1);
        if fault.is_some() {
            return fault;
        }
    }
    None
}

// The fault of the CHECK of this number, where it faults or isn't true.
fn judge(check: &Verified, row: &Row, number: u32) -> Option<Fault>
    requires { (table : TableDef) × (kind : Kind) × IsExpr table kind check.now.tree × IsRow table row.now }
    ensures { result ≡ check_fault number (val check.now.tree row.now) }
{
    match run(check, row) {
        Ok(Item::Truth(true)) => None,
        Ok(Item::Truth(false)) => Some(Fault::CheckFailed { number }),
        Ok(Item::Number(_number)) => Some(Fault::CheckFailed { number }),
        Ok(Item::Text(_text)) => Some(Fault::CheckFailed { number }),
        Err(EvalFault::Overflow) => Some(Fault::Overflow),
        Err(EvalFault::ZeroDivide) => Some(Fault::ZeroDivide),
    }
}
