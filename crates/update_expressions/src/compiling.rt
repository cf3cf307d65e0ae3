//! The code of a SET list.

ghost use Rattle.std.specs.Prelude.{◌≡◌, ◌≢◌, ◌≤◌, ◌<◌, ◌++◌, length, Err, IfOk, OnOk, Some};
ghost use Rattle.sql_base.specs.Codes.{sets_code};
ghost use Rattle.sql_base.specs.Tables.{AreSets};
ghost use Rattle.update_expressions.specs.Refusing.{AreTyped, first_set_fault};

use crate::faults::{SetFault, fault_of};
use predicate_runner::{append_counted, compile};
use sql_base::{Assign, Code, List, NoMemory, TableDef};
use std::alloc::Global;

/// The code of a SET list of well-typed values, or the fault of the first assignment that has one.
pub fn compile_sets(alloc: Global, sets: &List<Assign>, table: &TableDef) -> Result<Code, SetFault>
    requires columns { length table.now.columns ≤ 32 }
    requires sets { AreTyped table.now sets.now }
    ensures sets { IfOk result (λ _. AreSets table.now sets.now) }
    ensures code { IfOk result (λ code. code ≡ sets_code sets.now) }
    ensures refused { (fault : SetFault) → result ≡ Err fault → fault ≢ SetFault.NoMemory → first_set_fault table.now sets.now ≡ Some fault }
{
    let sets = sets.items();
    for place in 0..sets.len() {
        if let Some(fault) = fault_of(&sets[..place], &sets[place], table) {
            return Err(fault);
        }
    }
    Ok(sets_code(alloc, sets, table)?)
}

fn sets_code(alloc: Global, sets: &[Assign], table: &TableDef) -> Result<Code, NoMemory>
    requires columns { length table.now.columns ≤ 32 }
    requires sets { AreSets table.now sets.now }
    ensures { IfOk result (λ code. code ≡ sets_code sets.now) }
{
    let mut bytes = Vec::new(alloc);
    bytes.push(sets.len() as u8)?;
    for set in sets {
        bytes.push(set.column)?;
        let code = compile(alloc, &set.value, table)?;
        append_counted(&mut bytes, code.bytes())?;
    }
    Ok(Code::from_vec(bytes))
}
