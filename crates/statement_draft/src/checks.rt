//! What judges the CHECKs of a table.
ghost use Rattle.std.specs.Prelude.{◌≡◌, is_some};
ghost use Rattle.sql_base.specs.OnRows.{first_failing};

use sql_base::{TableDef, Value};

/// What judges the CHECKs of a table.
pub trait Checks {
    /// Whether a CHECK of the table is false on the row, or faults.
    fn fail(&self, table: &TableDef, row: &[Value]) -> bool
        ensures { result ≡ is_some (first_failing table.now.checks row.now) };
}
