//! A SET list applied to a row.

ghost use Rattle.std.specs.Prelude.{◌≡◌, ◌<◌, length, slice_set, Err, IfOk, Ok};
ghost use Rattle.sql_base.specs.Rows.{IsRow};
ghost use Rattle.sql_base.specs.Tables.{AreSets};
ghost use Rattle.sql_base.specs.declared.faults.EvalFault.{EvalFault};
ghost use Rattle.sql_base.specs.declared.tables.TableDef.{TableDef};
ghost use Rattle.predicate_runner.specs.Items.{item_in};
ghost use Rattle.update_expressions.specs.Storing.{Updates, value_over};

use crate::verifying::{VerifiedSet, VerifiedSets};
use predicate_runner::{Item, run};
use sql_base::{EvalFault, List, NoMemory, Row, Value, padded};
use std::alloc::Global;

/// Why a SET list makes no row of another.
#[derive(Clone, Copy, Debug, PartialEq, Eq)]
pub enum ApplyFault {
    /// The fault of the first assignment in written order that faults.
    Eval(EvalFault),
    NoMemory,
}

impl From<NoMemory> for ApplyFault {
    ghost use Rattle.update_expressions.specs.declared.applying.ApplyFault.TheVariants.{NoMemory};

    ghost from_gives = { λ _ fault. fault ≡ NoMemory };

    fn from(_error: NoMemory) -> ApplyFault {
        ApplyFault::NoMemory
    }
}

/// The row after its SETs, each taken from the row as it was.
pub fn apply(alloc: Global, sets: &VerifiedSets, row: &Row) -> Result<Row, ApplyFault>
    requires { (table : TableDef) × AreSets table sets.now × IsRow table row.now }
    ensures row { IfOk result (λ new. Updates sets.now row.now (Ok new)) }
    ensures fault { (fault : EvalFault) → result ≡ Err (ApplyFault.Eval fault) → Updates sets.now row.now (Err fault) }
{
    let old = row.values();
    let mut values = old.to_vec(alloc).map_err(NoMemory::from)?;
    let assignments = sets.sets();
    for set in assignments {
        let column = set.column as usize;
        match run(&set.value, row) {
            Ok(item) => put(&mut values, column, value_over(alloc, &old[column], item)?),
            Err(fault) => return Err(ApplyFault::Eval(fault)),
        }
    }
    Ok(Row::from_values(List::from_vec(values)))
}

fn put(values: &mut Vec<Value>, at: usize, value: Value)
    requires { at < length values.now.items }
    ensures { values.new.items ≡ slice_set values.old.items at value }
{
    values[at] = value;
}

// What a column holds after another value; a text is padded to the one before it.
fn value_over(alloc: Global, old: &Value, item: Item) -> Result<Value, NoMemory>
    ensures { IfOk result (λ value. value ≡ value_over old.now (item_in item.entry)) }
{
    match item {
        Item::Number(number) => Ok(Value::Int(number)),
        Item::Text(text) => match old {
            Value::Text(before) => Ok(Value::Text(padded(alloc, text, before.bytes().len())?)),
            Value::Int(_number) => Ok(Value::Text(padded(alloc, text, 0)?)),
        },
        Item::Truth(_truth) => Ok(old.clone()?),
    }
}
