//! A verified code, run on a row.

ghost use Rattle.std.specs.Prelude.{◌≡◌, Err, Ok, IfOk};
ghost use Rattle.sql_base.specs.Val.{val};
ghost use Rattle.sql_base.specs.Kinds.{Kind, IsExpr};
ghost use Rattle.sql_base.specs.Rows.{IsRow};
ghost use Rattle.sql_base.specs.declared.tables.TableDef.{TableDef};
ghost use Rattle.expression_values.specs.Values.{truth_of};
ghost use Rattle.predicate_runner.specs.Items.{outcome_of};

use crate::items::Item;
use crate::verifying::Verified;
use expression_values::{Item as Given, is_true, value_on};
use sql_base::{EvalFault, Row};

/// The value of the expression on a row of its table, or its fault.
pub fn run<'a>(code: &'a Verified, row: &'a Row) -> Result<Item<'a>, EvalFault>
    requires { (table : TableDef) × (kind : Kind) × IsExpr table kind code.now.tree × IsRow table row.now }
    ensures { outcome_of result ≡ val code.now.tree row.now }
{
    match value_on(code.tree(), row.values()) {
        Ok(Given::Number(number)) => Ok(Item::Number(number)),
        Ok(Given::Text(text)) => Ok(Item::Text(text)),
        Ok(Given::Truth(truth)) => Ok(Item::Truth(truth)),
        Ok(Given::Nothing) => unreachable!(),
        Err(fault) => Err(fault),
    }
}

/// Whether the expression is true on a row, or its fault. What is no truth value isn't true.
pub fn holds_on(code: &Verified, row: &Row) -> Result<bool, EvalFault>
    ensures { result ≡ truth_of (val code.now.tree row.now) }
{
    is_true(code.tree(), row.values())
}
