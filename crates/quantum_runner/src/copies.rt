//! Copies of tables, with all their expressions.
ghost use Rattle.std.specs.Prelude.{◌≡◌, IfOk};

use sql_base::{Expr, List, NoMemory, TableDef};
use sqlite_items::Boxed;
use std::alloc::Global;

/// A copy of a table.
pub fn copy_table(alloc: Global, table: &TableDef) -> Result<TableDef, NoMemory>
    ensures { IfOk result (λ copy. copy ≡ table.now) }
{
    Ok(TableDef {
        name: table.name.clone()?,
        columns: table.columns.clone()?,
        key: table.key.clone()?,
        checks: copy_exprs(alloc, table.checks.items())?,
        firsts: table.firsts.clone()?,
    })
}

fn copy_exprs(alloc: Global, exprs: &[Expr]) -> Result<List<Expr>, NoMemory>
    ensures { IfOk result (λ copies. copies ≡ exprs.now) }
{
    let mut copies = List::new(alloc);
    for expr in exprs {
        copies.push(copy_expr(alloc, expr)?)?;
    }
    Ok(copies)
}

fn copy_expr(alloc: Global, expr: &Expr) -> Result<Expr, NoMemory>
    ensures { IfOk result (λ copy. copy ≡ expr.now) }
{
    match expr {
        Expr::Number(number) => Ok(Expr::Number(*number)),
        Expr::Text(text) => Ok(Expr::Text(text.clone()?)),
        Expr::Column(column) => Ok(Expr::Column(*column)),
        Expr::Arith(op, a, b) => {
            let a = Boxed::new(alloc, copy_expr(alloc, a.get())?)?;
            let b = Boxed::new(alloc, copy_expr(alloc, b.get())?)?;
            Ok(Expr::Arith(*op, a, b))
        }
        Expr::Compare(op, a, b) => {
            let a = Boxed::new(alloc, copy_expr(alloc, a.get())?)?;
            let b = Boxed::new(alloc, copy_expr(alloc, b.get())?)?;
            Ok(Expr::Compare(*op, a, b))
        }
        Expr::And(a, b) => {
            let a = Boxed::new(alloc, copy_expr(alloc, a.get())?)?;
            let b = Boxed::new(alloc, copy_expr(alloc, b.get())?)?;
            Ok(Expr::And(a, b))
        }
        Expr::Or(a, b) => {
            let a = Boxed::new(alloc, copy_expr(alloc, a.get())?)?;
            let b = Boxed::new(alloc, copy_expr(alloc, b.get())?)?;
            Ok(Expr::Or(a, b))
        }
        Expr::Not(a) => {
            let a = Boxed::new(alloc, copy_expr(alloc, a.get())?)?;
            Ok(Expr::Not(a))
        }
    }
}
