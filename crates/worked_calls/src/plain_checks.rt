//! The CHECKs of a table, judged along their trees.
ghost use Rattle.std.specs.Prelude.{◌≡◌, is_some};
ghost use Rattle.sql_base.specs.OnRows.{first_failing};

use one_thread::fails;
use sql_base::{TableDef, Value};
use statement_reader::Checks;

/// Judges each CHECK by the value of its expression.
pub struct PlainChecks;

impl Checks for PlainChecks {
    fn fail(&self, table: &TableDef, row: &[Value]) -> bool
        ensures { result ≡ is_some (first_failing table.now.checks row.now) }
    {
        fails(table.checks.items(), row)
    }
}
