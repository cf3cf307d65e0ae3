//! Values and rows.
ghost use Rattle.std.specs.Prelude.{◌≡◌};

use crate::bytes::Text;
use crate::lists::List;
use std::marker::Model;

/// What a column of a row holds.
#[derive(Clone, Debug, Drop)]
pub enum Value {
    Int(i64),
    Text(Text),
}

/// The values of a row, in the order of the table's columns.
#[derive(Clone, Debug, Drop)]
pub struct Row {
    values: List<Value>,
}

impl Model for Row {
    ghost use Rattle.std.specs.Prelude.{List};
    ghost use Rattle.sql_base.specs.declared.values.Value as value;

    ghost Value = { List value.Value };

    ghost view = { λ row. row.values };
}

impl Row {
    pub fn from_values(values: List<Value>) -> Row
        ensures { result ≡ values }
    {
        Row { values }
    }

    pub fn values(&self) -> &[Value]
        ensures { result.now ≡ self.now }
    {
        self.values.items()
    }
}
