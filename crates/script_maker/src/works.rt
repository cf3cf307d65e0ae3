//! The works of the sessions.
ghost use Rattle.std.specs.Prelude.{◌≡◌, ◌<◌, ◌≤◌, IfOk, OnOk};
ghost use Rattle.script_maker.specs.Making.{after, hundred_from, in_line, raise_balances, select_balances, select_owners, statement, statement_of_kind, work, works};

use crate::accounts::{account, compared};
use crate::draws::Draws;
use sql_base::{Access, ArithOp, Assign, CompareOp, Expr, List, NoMemory, Statement, Work};
use sqlite_items::Boxed;
use std::alloc::Global;

const SESSIONS: u32 = 4;

const WORKS: u32 = 5;

const STATEMENTS: u32 = 2;

/// The predicate of the hundred accounts from a number on.
fn hundred_from(alloc: Global, number: u32) -> Result<Expr, NoMemory>
    requires { number < 900 }
    ensures { IfOk result (λ e. e ≡ hundred_from number) }
{
    Ok(Expr::And(
        Boxed::new(alloc, compared(alloc, 0, CompareOp::Ge, number)?)?,
        Boxed::new(alloc, compared(alloc, 0, CompareOp::Le, number + 99)?)?,
    ))
}

/// SELECT no, bal of a hundred accounts.
fn select_balances(alloc: Global, number: u32) -> Result<Statement, NoMemory>
    requires { number < 900 }
    ensures { IfOk result (λ s. s ≡ select_balances number) }
{
    let mut columns = List::new(alloc);
    columns.push(0)?;
    columns.push(2)?;
    Ok(Statement::Select {
        table: 0,
        columns,
        filter: Some(hundred_from(alloc, number)?),
        access: Access::Repeatable,
    })
}

/// One more for each of a hundred accounts.
fn raise_balances(alloc: Global, number: u32) -> Result<Statement, NoMemory>
    requires { number < 900 }
    ensures { IfOk result (λ s. s ≡ raise_balances number) }
{
    let mut sets = List::new(alloc);
    sets.push(Assign {
        column: 2,
        value: Expr::Arith(
            ArithOp::Add,
            Boxed::new(alloc, Expr::Column(2))?,
            Boxed::new(alloc, Expr::Number(1))?,
        ),
    })?;
    Ok(Statement::Update {
        table: 0,
        sets,
        filter: Some(hundred_from(alloc, number)?),
        access: Access::Repeatable,
    })
}

/// SELECT no, own of the accounts with much.
fn select_owners(alloc: Global) -> Result<Statement, NoMemory>
    ensures { IfOk result (λ s. s ≡ select_owners) }
{
    let mut columns = List::new(alloc);
    columns.push(0)?;
    columns.push(1)?;
    Ok(Statement::Select {
        table: 0,
        columns,
        filter: Some(compared(alloc, 2, CompareOp::Ge, 900)?),
        access: Access::Stable,
    })
}

/// The statement of a kind from 0 to 3, for a number; an INSERT is of this key.
fn statement_of(alloc: Global, kind: u32, number: u32, key: u32) -> Result<Statement, NoMemory>
    requires { number < 900 }
    ensures { IfOk result (λ s. s ≡ statement_of_kind kind number key) }
{
    match kind {
        0 => select_balances(alloc, number),
        1 => raise_balances(alloc, number),
        2 => select_owners(alloc),
        _ => Ok(Statement::Insert {
            table: 0,
            row: account(alloc, key, b'N', number)?,
        }),
    }
}

#[tactic(auto, unfolding(crate::specs::Making::after))]
fn statement(
    alloc: Global,
    draws: &mut Draws,
    session: u32,
    work: u32,
    place: u32,
) -> Result<Statement, NoMemory>
    requires session { session ≤ 4 }
    requires work { work ≤ 5 }
    requires place { place ≤ 2 }
    ensures statement { IfOk result (λ s. s ≡ statement session work place draws.old.state) }
    ensures drawn { OnOk result (draws.new.state ≡ after 2 draws.old.state) }
{
    let kind = draws.draw(4);
    let number = draws.draw(900);
    let key = 1000 + 100 * session + 10 * work + place;
    statement_of(alloc, kind, number, key)
}

fn statements(
    alloc: Global,
    draws: &mut Draws,
    session: u32,
    work: u32,
) -> Result<List<Statement>, NoMemory>
    requires session { session ≤ 4 }
    requires work { work ≤ 5 }
    ensures statements { IfOk result (λ s. s ≡ in_line 2 (statement session work) 2 draws.old.state) }
    ensures drawn { OnOk result (draws.new.state ≡ after 4 draws.old.state) }
{
    let mut statements = List::new(alloc);
    for place in 0..STATEMENTS {
        statements.push(statement(alloc, draws, session, work, place)?)?;
    }
    Ok(statements)
}

#[tactic(auto, unfolding(crate::specs::Making::after))]
fn work(alloc: Global, draws: &mut Draws, session: u32, place: u32) -> Result<Work, NoMemory>
    requires session { session ≤ 4 }
    requires place { place ≤ 5 }
    ensures work { IfOk result (λ w. w ≡ work session place draws.old.state) }
    ensures drawn { OnOk result (draws.new.state ≡ after 5 draws.old.state) }
{
    let statements = statements(alloc, draws, session, place)?;
    let commit = draws.draw(8) != 0;
    Ok(Work { statements, commit })
}

fn works(alloc: Global, draws: &mut Draws, place: u32) -> Result<List<Work>, NoMemory>
    requires { place < 4 }
    ensures works { IfOk result (λ ws. ws ≡ works place draws.old.state) }
    ensures drawn { OnOk result (draws.new.state ≡ after 25 draws.old.state) }
{
    let mut works = List::new(alloc);
    for at in 0..WORKS {
        works.push(work(alloc, draws, place + 1, at)?)?;
    }
    Ok(works)
}

/// The works of each session.
pub fn sessions(alloc: Global, draws: &mut Draws) -> Result<List<List<Work>>, NoMemory>
    ensures { IfOk result (λ sessions. sessions ≡ in_line 25 works 4 draws.old.state) }
{
    let mut sessions = List::new(alloc);
    for place in 0..SESSIONS {
        sessions.push(works(alloc, draws, place)?)?;
    }
    Ok(sessions)
}
