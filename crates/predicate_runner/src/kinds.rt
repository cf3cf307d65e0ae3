//! The kinds and depths of operands.

ghost use Rattle.std.specs.Prelude.{◌≡◌, ◌+◌, ◌&&◌, if◌then◌else◌, length, nat_le, option_map, slice_get, None, Some};
ghost use Rattle.sql_base.specs.Kinds.{OfNumber, OfText, kind_of, kind_of_column, of_arith, of_compare, of_truths};
ghost use Rattle.sql_base.specs.Rows.{in_i64, is_printable, kinds};
ghost use Rattle.predicate_codes.specs.Decoding.{fitting};
ghost use Rattle.predicate_runner.specs.Outlines.{kind_in, operand_in};

use sql_base::{ColumnKind, Expr, TableDef, is_printable};

/// The kind of an expression. A text has the width of its literal or column.
#[derive(Clone, Copy, Debug, PartialEq, Eq)]
pub enum ExprKind {
    Number,
    Text(u8),
    Truth,
}

/// An expression that was read, while a code is verified: it is so deep.
#[derive(Drop)]
pub struct Operand {
    pub tree: Expr,
    pub kind: ExprKind,
    pub depth: u32,
}

/// The kind of a number made of two operands.
pub fn of_arith(a: Option<ExprKind>, b: Option<ExprKind>) -> Option<ExprKind>
    ensures { option_map kind_in result ≡ of_arith (option_map kind_in a) (option_map kind_in b) }
{
    match a {
        Some(ExprKind::Number) => match b {
            Some(ExprKind::Number) => Some(ExprKind::Number),
            Some(ExprKind::Text(_width)) => None,
            Some(ExprKind::Truth) => None,
            None => None,
        },
        Some(ExprKind::Text(_width)) => None,
        Some(ExprKind::Truth) => None,
        None => None,
    }
}

/// The kind of a comparison of two operands.
pub fn of_compare(a: Option<ExprKind>, b: Option<ExprKind>) -> Option<ExprKind>
    ensures { option_map kind_in result ≡ of_compare (option_map kind_in a) (option_map kind_in b) }
{
    match a {
        Some(ExprKind::Number) => match b {
            Some(ExprKind::Number) => Some(ExprKind::Truth),
            Some(ExprKind::Text(_width)) => None,
            Some(ExprKind::Truth) => None,
            None => None,
        },
        Some(ExprKind::Text(_width)) => match b {
            Some(ExprKind::Number) => None,
            Some(ExprKind::Text(_width)) => Some(ExprKind::Truth),
            Some(ExprKind::Truth) => None,
            None => None,
        },
        Some(ExprKind::Truth) => None,
        None => None,
    }
}

/// The kind of AND, OR and NOT over their operands.
pub fn of_truths(a: Option<ExprKind>, b: Option<ExprKind>) -> Option<ExprKind>
    ensures { option_map kind_in result ≡ of_truths (option_map kind_in a) (option_map kind_in b) }
{
    match a {
        Some(ExprKind::Number) => None,
        Some(ExprKind::Text(_width)) => None,
        Some(ExprKind::Truth) => match b {
            Some(ExprKind::Number) => None,
            Some(ExprKind::Text(_width)) => None,
            Some(ExprKind::Truth) => Some(ExprKind::Truth),
            None => None,
        },
        None => None,
    }
}

/// The expression as an operand of the kind, over operands of at most a depth, if it isn't deeper than there is room.
pub fn fit(tree: Expr, kind: Option<ExprKind>, below: u32, room: u32) -> Option<Operand>
    ensures { option_map operand_in result ≡ fitting room tree (below + 1) (option_map kind_in kind) }
{
    match kind {
        Some(kind) => {
            if below < room {
                Some(Operand {
                    tree,
                    kind,
                    depth: below + 1,
                })
            } else {
                None
            }
        }
        None => None,
    }
}

pub fn kind_of_column(table: &TableDef, column: u8) -> Option<ExprKind>
    ensures { option_map kind_in result ≡ kind_of_column (slice_get (kinds table.now) column) }
{
    match table.columns.items().get(column as usize) {
        Some(column) => match column.kind {
            ColumnKind::Int => Some(ExprKind::Number),
            ColumnKind::Char(width) => Some(ExprKind::Text(width)),
        },
        None => None,
    }
}

/// The kind of a text of so many bytes.
pub fn kind_of_text(width: u8, text: &[u8]) -> Option<ExprKind>
    requires { length text.now ≡ width }
    ensures { option_map kind_in result ≡ (if nat_le (length text.now) 255 && is_printable text.now then Some (OfText (length text.now)) else None) }
{
    if is_printable(text) {
        Some(ExprKind::Text(width))
    } else {
        None
    }
}

fn kind_of_number(number: i64) -> Option<ExprKind>
    ensures { option_map kind_in result ≡ (if in_i64 number then Some OfNumber else None) }
{
    Some(ExprKind::Number)
}

/// The kind of an expression over the table, or none where it isn't well typed.
pub fn kind_of(expr: &Expr, table: &TableDef) -> Option<ExprKind>
    ensures { option_map kind_in result ≡ kind_of table.now expr.now }
{
    match expr {
        Expr::Number(number) => kind_of_number(*number),
        Expr::Text(text) => {
            let bytes = text.bytes();
            if bytes.len() > 255 {
                return None;
            }
            kind_of_text(bytes.len() as u8, bytes)
        }
        Expr::Column(column) => kind_of_column(table, *column),
        Expr::Arith(_op, a, b) => of_arith(kind_of(a.get(), table), kind_of(b.get(), table)),
        Expr::Compare(_op, a, b) => of_compare(kind_of(a.get(), table), kind_of(b.get(), table)),
        Expr::And(a, b) => of_truths(kind_of(a.get(), table), kind_of(b.get(), table)),
        Expr::Or(a, b) => of_truths(kind_of(a.get(), table), kind_of(b.get(), table)),
        Expr::Not(a) => {
            let kind = kind_of(a.get(), table);
            of_truths(kind, kind)
        }
    }
}
