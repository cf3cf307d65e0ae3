//! The bytes of expressions.
ghost use Rattle.std.specs.Prelude.{◌≡◌, ◌++◌, ◌∷◌, [], OnOk};
ghost use Rattle.statement_printer.specs.Bytes.{bytes_of};
ghost use Rattle.statement_printer.specs.Printing.{arith_sign, compare_sign, operand_words, printed_expr};

use crate::values::put_column;
use crate::words::{put_int, put_key, put_sign, put_text};
use sql_base::{ArithOp, Column, CompareOp, Expr, NoMemory};
use statement_words::{Keyword, Sign};

fn arith_sign(op: ArithOp) -> Sign
    ensures { result ≡ arith_sign op }
{
    match op {
        ArithOp::Add => Sign::Plus,
        ArithOp::Sub => Sign::Minus,
        ArithOp::Mul => Sign::Times,
        ArithOp::Div => Sign::Over,
    }
}

fn compare_sign(op: CompareOp) -> Sign
    ensures { result ≡ compare_sign op }
{
    match op {
        CompareOp::Eq => Sign::Equal,
        CompareOp::Ne => Sign::Unequal,
        CompareOp::Lt => Sign::Less,
        CompareOp::Le => Sign::AtMost,
        CompareOp::Gt => Sign::Greater,
        CompareOp::Ge => Sign::AtLeast,
    }
}

fn is_operator(columns: &[Column], e: &Expr) -> bool
    ensures { result ≡ (printed_expr columns.now e.now).is_operator }
{
    match e {
        Expr::Number(_) | Expr::Text(_) | Expr::Column(_) => false,
        Expr::Arith(_, _, _) | Expr::Compare(_, _, _) => true,
        Expr::And(_, _) | Expr::Or(_, _) | Expr::Not(_) => true,
    }
}

#[cycle(printing)]
fn put_operand(out: &mut Vec<u8>, columns: &[Column], e: &Expr) -> Result<(), NoMemory>
    ensures { OnOk result (out.new.items ≡ out.old.items ++ bytes_of (operand_words (printed_expr columns.now e.now))) }
{
    if !is_operator(columns, e) {
        return put_expr(out, columns, e);
    }
    put_sign(out, Sign::Open)?;
    put_expr(out, columns, e)?;
    put_sign(out, Sign::Close)
}

/// Adds the words of an expression.
#[cycle(printing)]
pub fn put_expr(out: &mut Vec<u8>, columns: &[Column], e: &Expr) -> Result<(), NoMemory>
    ensures { OnOk result (out.new.items ≡ out.old.items ++ bytes_of (printed_expr columns.now e.now).words) }
{
    match e {
        Expr::Number(number) => put_int(out, *number),
        Expr::Text(text) => put_text(out, text.bytes()),
        Expr::Column(place) => put_column(out, columns, *place),
        Expr::Arith(op, a, b) => {
            put_operand(out, columns, a.get())?;
            put_sign(out, arith_sign(*op))?;
            put_operand(out, columns, b.get())
        }
        Expr::Compare(op, a, b) => {
            put_operand(out, columns, a.get())?;
            put_sign(out, compare_sign(*op))?;
            put_operand(out, columns, b.get())
        }
        Expr::And(a, b) => {
            put_operand(out, columns, a.get())?;
            put_key(out, Keyword::And)?;
            put_operand(out, columns, b.get())
        }
        Expr::Or(a, b) => {
            put_operand(out, columns, a.get())?;
            put_key(out, Keyword::Or)?;
            put_operand(out, columns, b.get())
        }
        Expr::Not(a) => {
            put_key(out, Keyword::Not)?;
            put_operand(out, columns, a.get())
        }
    }
}
