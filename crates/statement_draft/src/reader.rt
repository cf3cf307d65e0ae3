//! A script, word by word.
ghost use Rattle.std.specs.Prelude.{◌≡◌, IfOk, OnOk, Some, None, if◌then◌else◌};
ghost use Rattle.statement_draft.specs.Names.{name_in, number_in};
ghost use Rattle.statement_draft.specs.Judging.{name_came, number_came, part_came, came, ended, all_ended, unexpected, end_judged, word_read, end_read, read_from, empty, read};

use crate::checks::Checks;
use crate::draft::{Draft, NewRow, RowOf, Scope, StatementKind};
use crate::faults::{Reason, noted};
use crate::names::is_wide;
use crate::{assignments, expressions, operators, rows, statements, tables};
use sql_base::{ColumnKind, Limits, List, Name, NoMemory};
use statement_grammar::{
    End, NameRole, NumberRole, Part, SCRIPT, Stack, Symbol, advance, finish, is_key, put,
};
use statement_words::{Keyword, Token, Word};
use std::alloc::Global;

fn name_in(alloc: Global, word: &Word) -> Result<Name, NoMemory>
    ensures { IfOk result (λ name. name ≡ name_in word.now) }
{
    match word {
        Word::Name(name) => Ok(name.clone()?),
        _ => Ok(Name::from_vec(Vec::new(alloc))),
    }
}

fn number_in(word: &Word) -> u64
    ensures { result ≡ number_in word.now }
{
    match word {
        Word::Number(number) => *number,
        _ => 0,
    }
}

fn name_came(
    alloc: Global,
    role: NameRole,
    name: Name,
    at: u32,
    draft: &mut Draft,
) -> Result<(), NoMemory>
    ensures { OnOk result (draft.new ≡ name_came role name at draft.old) }
{
    match role {
        NameRole::NewTable => {
            tables::table_came(name, at, draft);
            Ok(())
        }
        NameRole::FirstColumn => {
            tables::column_came(name, at, draft);
            Ok(())
        }
        NameRole::KeyColumn => tables::key_column_came(name, at, draft),
        NameRole::LoadTable => rows::load_came(alloc, name, at, draft),
        NameRole::SelectTable => statements::select_table_came(alloc, &name, at, draft),
        NameRole::OtherTable => {
            statements::table_came(&name, at, draft);
            Ok(())
        }
        NameRole::InsertTable => statements::insert_came(alloc, &name, at, draft),
        NameRole::SetColumn => assignments::set_came(&name, at, draft),
        NameRole::SelectColumn => statements::selected_came(name, at, draft),
    }
}

fn number_came(
    alloc: Global,
    role: NumberRole,
    number: u64,
    at: u32,
    draft: &mut Draft,
) -> Result<(), NoMemory>
    ensures { OnOk result (draft.new ≡ number_came role number at draft.old) }
{
    match role {
        NumberRole::Limit(limit) => {
            tables::limit_came(limit, number, at, draft);
            Ok(())
        }
        NumberRole::Width => tables::width_came(alloc, number, at, draft),
        NumberRole::Negative => rows::negative_came(alloc, number, draft),
        NumberRole::NegativeOperand => expressions::negative_came(number, draft),
    }
}

/// Words that are judged where they come.
fn part_came(
    alloc: Global,
    part: Part,
    word: &Word,
    at: u32,
    draft: &mut Draft,
) -> Result<(), NoMemory>
    ensures { OnOk result (draft.new ≡ part_came part word.now at draft.old) }
{
    match part {
        Part::Limit(_) => Ok(()),
        Part::Table | Part::MoreTables => {
            tables::table_begins(alloc, at, draft);
            Ok(())
        }
        Part::ColumnKind => {
            if is_key(word, Keyword::Int) {
                return tables::kind_came(alloc, ColumnKind::Int, 8, draft);
            }
            Ok(())
        }
        Part::ColumnOrKey => {
            if let Word::Name(name) = word {
                tables::column_came(name.clone()?, at, draft);
            }
            Ok(())
        }
        Part::MoreKeyColumns => Ok(()),
        Part::MoreChecks => Ok(()),
        Part::Check => {
            tables::check_begins(at, draft);
            Ok(())
        }
        Part::FirstKeys => tables::first_keys_begin(alloc, draft),
        Part::MoreFirstKeys => Ok(()),
        Part::Row => {
            rows::row_begins(alloc, at, draft);
            Ok(())
        }
        Part::Literal => rows::literal_begins(alloc, word, at, draft),
        Part::MoreLiterals => Ok(()),
        Part::Loads => Ok(()),
        Part::MoreLoadRows => Ok(()),
        Part::Session | Part::MoreSessions => {
            statements::session_begins(alloc, at, draft);
            Ok(())
        }
        Part::Work | Part::MoreWorks => {
            statements::work_begins(alloc, word, at, draft);
            Ok(())
        }
        Part::MoreStatements => {
            statements::statement_came(alloc, word, at, draft);
            Ok(())
        }
        Part::Selected => {
            if let Word::Name(name) = word {
                return statements::selected_came(name.clone()?, at, draft);
            }
            Ok(())
        }
        Part::MoreSelected => Ok(()),
        Part::Where => {
            statements::where_came(at, draft);
            Ok(())
        }
        Part::Sets => {
            assignments::sets_begin(at, draft);
            Ok(())
        }
        Part::MoreSets => Ok(()),
        Part::ReadAccess | Part::ChangeAccess => {
            statements::access_came(word, draft);
            Ok(())
        }
        Part::LockMode => {
            statements::mode_came(word, draft);
            Ok(())
        }
        Part::Expression => {
            expressions::expression_begins(alloc, at, draft);
            expressions::operand_came(alloc, word, at, draft)
        }
        Part::Condition | Part::Operand => expressions::operand_came(alloc, word, at, draft),
        Part::ProductRest | Part::SumRest | Part::CompareRest | Part::AndRest | Part::OrRest =>
            expressions::joins(word, at, draft),
    }
}

/// A word came as what the symbol says.
#[tactic(auto, unfolding(crate::specs::Judging::came))]
fn came(
    alloc: Global,
    role: Symbol,
    word: &Word,
    at: u32,
    draft: &mut Draft,
) -> Result<(), NoMemory>
    ensures { OnOk result (draft.new ≡ came role word.now at draft.old) }
{
    match role {
        Symbol::Fixed(_) => Ok(()),
        Symbol::Name(role) => name_came(alloc, role, name_in(alloc, word)?, at, draft),
        Symbol::Number(role) => number_came(alloc, role, number_in(word), at, draft),
        Symbol::Part(part) => part_came(alloc, part, word, at, draft),
        Symbol::Ended(_) => Ok(()),
    }
}

/// All words of something have come.
#[tactic(auto, unfolding(crate::specs::Judging::ended))]
fn ended<C: Checks>(alloc: Global, checks: &C, end: End, draft: &mut Draft) -> Result<(), NoMemory>
    ensures { OnOk result (draft.new ≡ ended end draft.old) }
{
    match end {
        End::Table => tables::table_ends(alloc, draft),
        End::FirstKey => tables::first_key_ends(alloc, draft),
        End::LoadRow => rows::load_row_ends(alloc, checks, draft),
        End::Load => rows::load_ends(alloc, draft),
        End::InsertRow => {
            statements::insert_row_ends(draft);
            Ok(())
        }
        End::Check => expressions::check_ends(alloc, draft),
        End::Filter => {
            expressions::filter_ends(alloc, draft);
            Ok(())
        }
        End::Assign => assignments::assign_ends(alloc, draft),
        End::Sets => {
            assignments::sets_end(draft);
            Ok(())
        }
        End::Operator => operators::operator_ends(alloc, draft),
        End::Inside => {
            operators::inside_ends(draft);
            Ok(())
        }
        End::Statement => statements::statement_ends(alloc, draft),
        End::Work => statements::work_ends(alloc, draft),
        End::Session => statements::session_ends(alloc, draft),
    }
}

#[tactic(auto, unfolding(crate::specs::Judging::all_ended))]
fn all_ended<C: Checks>(
    alloc: Global,
    checks: &C,
    ends: &[End],
    draft: &mut Draft,
) -> Result<(), NoMemory>
    ensures { OnOk result (draft.new ≡ all_ended ends.now draft.old) }
{
    for end in ends {
        ended(alloc, checks, *end, draft)?;
    }
    Ok(())
}

fn unexpected(word: &Word, at: u32, draft: &mut Draft)
    ensures { draft.new ≡ unexpected word.now at draft.old }
{
    let wide = is_wide(number_in(word));
    let first = noted(wide, Reason::NumberTooWide, at, draft.first);
    draft.first = noted(true, Reason::Unexpected, at, first);
}

fn at_the_end(whole: bool, at: u32, draft: &mut Draft)
    ensures { draft.new ≡ end_judged whole at draft.old }
{
    draft.first = noted(!whole, Reason::Unexpected, at, draft.first);
}

fn empty(alloc: Global) -> Draft
    ensures { result ≡ empty }
{
    Draft {
        first: None,
        limits: Limits {
            quantum: 50,
            buffer: 4_096,
            patience: 8,
            servers: 2,
            restart: 0,
        },
        tables: List::new(alloc),
        loads: List::new(alloc),
        sessions: List::new(alloc),
        records: 0,
        works: 0,
        statements: 0,
        table: tables::no_table(alloc),
        row: NewRow {
            of: RowOf::Load,
            kinds: None,
            at: 0,
            minus: 0,
            values: List::new(alloc),
        },
        load: rows::no_load(alloc),
        scope: Scope::Unknown,
        expression: expressions::no_expression(alloc, 0),
        statement: statements::no_statement(alloc, StatementKind::Lock, 0),
        work: List::new(alloc),
        commit: false,
        session: List::new(alloc),
    }
}

/// A word with its role, if it has one here.
#[tactic(auto, unfolding(crate::specs::Judging::word_read))]
fn word_read<C: Checks>(
    alloc: Global,
    checks: &C,
    stack: &mut Stack<Symbol>,
    token: &Token,
    draft: &mut Draft,
) -> Result<bool, NoMemory>
    ensures { IfOk result (λ goes. word_read stack.old draft.old token.now ≡ record { rest = if goes then Some stack.new else None; draft = draft.new }) }
{
    let mut ends = List::new(alloc);
    let taken = advance(stack, &mut ends, &token.word)?;
    all_ended(alloc, checks, ends.items(), draft)?;
    match taken {
        Some(role) => {
            came(alloc, role, &token.word, token.first, draft)?;
            Ok(true)
        }
        None => {
            unexpected(&token.word, token.first, draft);
            Ok(false)
        }
    }
}

/// The end of the bytes, at `at`.
#[tactic(auto, unfolding(crate::specs::Judging::end_read))]
fn end_read<C: Checks>(
    alloc: Global,
    checks: &C,
    stack: &mut Stack<Symbol>,
    draft: &mut Draft,
    at: u32,
) -> Result<(), NoMemory>
    ensures { OnOk result (draft.new ≡ end_read stack.old draft.old at) }
{
    let mut ends = List::new(alloc);
    let whole = finish(stack, &mut ends)?;
    all_ended(alloc, checks, ends.items(), draft)?;
    at_the_end(whole, at, draft);
    Ok(())
}

/// The tokens where the symbols must come, behind what was read. The bytes end at `at`.
#[tactic(auto, unfolding(crate::specs::Judging::read_from))]
fn read_from<C: Checks>(
    alloc: Global,
    checks: &C,
    stack: &mut Stack<Symbol>,
    draft: &mut Draft,
    tokens: &[Token],
    at: u32,
) -> Result<(), NoMemory>
    ensures { OnOk result (draft.new ≡ read_from stack.old draft.old tokens.now at) }
{
    for token in tokens {
        if !word_read(alloc, checks, stack, token, draft)? {
            return Ok(());
        }
    }
    end_read(alloc, checks, stack, draft, at)
}

/// What the tokens say, and their first fault. The bytes end at `at`.
pub fn read<C: Checks>(
    alloc: Global,
    checks: &C,
    tokens: &[Token],
    at: u32,
) -> Result<Draft, NoMemory>
    ensures { IfOk result (λ draft. draft ≡ read tokens.now at) }
{
    let mut draft = empty(alloc);
    let mut stack = Stack::new(alloc);
    put(&mut stack, &SCRIPT)?;
    read_from(alloc, checks, &mut stack, &mut draft, tokens, at)?;
    Ok(draft)
}
