//! Scripts and their bytes.
ghost use Rattle.std.specs.Prelude.{◌≡◌, IfOk};
ghost use Rattle.statement_printer.specs.Printing.{printed};
ghost use Rattle.script_maker.specs.Making.{made};

use crate::accounts::{accounts, load};
use crate::draws::Draws;
use crate::works::sessions;
use sql_base::{Limits, List, NoMemory, Script};
use statement_printer::print_script;
use std::alloc::Global;

/// The script that is made from a number.
pub fn make_script(alloc: Global, number: u64) -> Result<Script, NoMemory>
    ensures { IfOk result (λ script. script ≡ made number) }
{
    let mut draws = Draws { state: number };
    let mut tables = List::new(alloc);
    tables.push(accounts(alloc)?)?;
    let mut loads = List::new(alloc);
    loads.push(load(alloc, &mut draws)?)?;
    Ok(Script {
        limits: Limits {
            quantum: 7,
            buffer: 512,
            patience: 8,
            servers: 2,
            restart: 0,
        },
        tables,
        loads,
        sessions: sessions(alloc, &mut draws)?,
    })
}

/// The bytes of the script that is made from a number.
pub fn make(alloc: Global, number: u64) -> Result<Vec<u8>, NoMemory>
    ensures { IfOk result (λ bytes. bytes.items ≡ printed (made number)) }
{
    let script = make_script(alloc, number)?;
    print_script(alloc, &script)
}
