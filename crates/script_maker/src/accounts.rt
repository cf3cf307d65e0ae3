//! The table of accounts and its records.
ghost use Rattle.std.specs.Prelude.{◌≡◌, ◌<◌, ◌^◌, IfOk, OnOk, codes};
ghost use Rattle.script_maker.specs.Making.{account, accounts, after, compared_with, in_line, loaded_account};

use crate::draws::Draws;
use sql_base::{
    Column, ColumnKind, CompareOp, Expr, List, Load, Name, NoMemory, Row, TableDef, Text, Value,
};
use sqlite_items::Boxed;
use std::alloc::Global;

/// How many records the table begins with.
const LOADED: u32 = 1000;

/// A column compared with a number.
pub fn compared(alloc: Global, column: u8, op: CompareOp, number: u32) -> Result<Expr, NoMemory>
    ensures { IfOk result (λ e. e ≡ compared_with column op number) }
{
    Ok(Expr::Compare(
        op,
        Boxed::new(alloc, Expr::Column(column))?,
        Boxed::new(alloc, Expr::Number(i64::from(number)))?,
    ))
}

/// An account with its number, the letter of its owner and its balance.
pub fn account(alloc: Global, number: u32, letter: u8, balance: u32) -> Result<Row, NoMemory>
    ensures { IfOk result (λ row. row ≡ account number letter balance) }
{
    let mut owner = Vec::new(alloc);
    owner.push(letter)?;
    owner.extend_from_slice(b"   ")?;
    let mut values = List::new(alloc);
    values.push(Value::Int(i64::from(number)))?;
    values.push(Value::Text(Text::from_vec(owner)))?;
    values.push(Value::Int(i64::from(balance)))?;
    Ok(Row::from_values(values))
}

#[tactic(auto, unfolding(crate::specs::Making::after))]
fn loaded(alloc: Global, draws: &mut Draws, number: u32) -> Result<Row, NoMemory>
    ensures row { IfOk result (λ row. row ≡ loaded_account number draws.old.state) }
    ensures drawn { OnOk result (draws.new.state ≡ after 2 draws.old.state) }
{
    let letter = 65 + draws.draw(26) as u8;
    let balance = draws.draw(1000);
    account(alloc, number, letter, balance)
}

fn rows(alloc: Global, draws: &mut Draws) -> Result<List<Row>, NoMemory>
    ensures rows { IfOk result (λ rows. rows ≡ in_line 2 loaded_account 1000 draws.old.state) }
    ensures drawn { OnOk result (draws.new.state ≡ after 2000 draws.old.state) }
{
    let mut rows = List::new(alloc);
    for number in 0..LOADED {
        rows.push(loaded(alloc, draws, number)?)?;
    }
    Ok(rows)
}

/// The records that the table begins with.
pub fn load(alloc: Global, draws: &mut Draws) -> Result<Load, NoMemory>
    ensures load { IfOk result (λ load. load ≡ record { table = 0; rows = in_line 2 loaded_account 1000 draws.old.state }) }
    ensures drawn { OnOk result (draws.new.state ≡ after 2000 draws.old.state) }
{
    Ok(Load {
        table: 0,
        rows: rows(alloc, draws)?,
    })
}

fn columns(alloc: Global) -> Result<List<Column>, NoMemory>
    ensures { IfOk result (λ columns. columns ≡ accounts.columns) }
{
    let mut columns = List::new(alloc);
    columns.push(Column {
        name: Name::from_vec(b"no".to_vec(alloc)?),
        kind: ColumnKind::Int,
    })?;
    columns.push(Column {
        name: Name::from_vec(b"own".to_vec(alloc)?),
        kind: ColumnKind::Char(4),
    })?;
    columns.push(Column {
        name: Name::from_vec(b"bal".to_vec(alloc)?),
        kind: ColumnKind::Int,
    })?;
    Ok(columns)
}

fn first_keys(alloc: Global) -> Result<List<Row>, NoMemory>
    ensures { IfOk result (λ firsts. firsts ≡ accounts.firsts) }
{
    let mut low = List::new(alloc);
    low.push(Value::Int(400))?;
    let mut high = List::new(alloc);
    high.push(Value::Int(800))?;
    let mut firsts = List::new(alloc);
    firsts.push(Row::from_values(low))?;
    firsts.push(Row::from_values(high))?;
    Ok(firsts)
}

/// The table of accounts, in three partitions.
pub fn accounts(alloc: Global) -> Result<TableDef, NoMemory>
    ensures { IfOk result (λ table. table ≡ accounts) }
{
    let mut key = List::new(alloc);
    key.push(0)?;
    let mut checks = List::new(alloc);
    checks.push(compared(alloc, 2, CompareOp::Ge, 0)?)?;
    Ok(TableDef {
        name: Name::from_vec(b"acct".to_vec(alloc)?),
        columns: columns(alloc)?,
        key,
        checks,
        firsts: first_keys(alloc)?,
    })
}
