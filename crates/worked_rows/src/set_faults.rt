//! SET lists that are refused over t (k INT, v INT, c CHAR(4), PRIMARY KEY (k)), each with the place of the first fault.
ghost use Rattle.std.specs.Prelude.{IfOk};
ghost use Rattle.sql_base.specs.declared.tables.TableDef as declared;
ghost use Rattle.update_expressions.specs.Refusing.{AreTyped};

use crate::codes::table_of;
use sql_base::{Assign, Expr, List, NoMemory};
use std::alloc::Global;
use std::test::Fail;
use update_expressions::{SetFault, compile_sets};

/// Two columns, each set to 1.
#[tactic(auto, using(crate::proofs::Numbers::both_typed))]
fn sets_of(alloc: Global, first: u8, second: u8) -> Result<List<Assign>, NoMemory>
    ensures { (table : declared.TableDef) → IfOk result (AreTyped table) }
{
    let mut sets = List::new(alloc);
    sets.push(Assign {
        column: first,
        value: Expr::Number(1),
    })?;
    sets.push(Assign {
        column: second,
        value: Expr::Number(1),
    })?;
    Ok(sets)
}

#[test]
fn set_lists_are_refused(rt: HostRuntime) -> Result<(), Fail> {
    let alloc = rt.alloc();
    let table = table_of(alloc)?;
    let columns = table.columns.items().len();
    assert!(rt; columns <= 32);
    let rows = [
        (1, 1, SetFault::Twice { place: 1 }),
        (1, 0, SetFault::KeyColumn { place: 1 }),
        (1, 2, SetFault::WrongType { place: 1 }),
        (1, 3, SetFault::UnknownColumn { place: 1 }),
        (3, 0, SetFault::UnknownColumn { place: 0 }),
        (0, 0, SetFault::KeyColumn { place: 0 }),
    ];
    for (first, second, wanted) in rows {
        let sets = sets_of(alloc, first, second)?;
        let code = compile_sets(alloc, &sets, &table);
        assert_eq!(rt; code.err(), Some(wanted), "{first} {second}");
    }
    Ok(())
}
