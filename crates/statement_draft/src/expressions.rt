//! Expressions, as their words come.
ghost use Rattle.std.specs.Prelude.{◌≡◌, ◌+◌, ◌^◌, [], IfOk, OnOk, pos, nat_lt, not, is_some, option_map, option_and_then, slice_get, if◌then◌else◌};
ghost use Rattle.sql_base.specs.declared.expressions.Expr.TheVariants as expr;
ghost use Rattle.statement_draft.specs.declared.faults.Reason.TheVariants.{UnknownName};
ghost use Rattle.statement_draft.specs.Faults.{noted};
ghost use Rattle.statement_draft.specs.Names.{column_named};
ghost use Rattle.statement_draft.specs.Expressions.{no_expression, expression_begins, with_operand, number_operand, negative_operand, text_operand, column_kind, columns_in, name_operand, found_name, name_found, name_came, number_came, negative_came, with_operator, opened, other_came, operand_came, op_of, joins, no_operand, top, whole, expression_faults, expression_judged, is_no_truth, check_ends, filter_ends};

use crate::draft::{Draft, NewExpression, Scope};
use crate::faults::{Fault, Reason, noted, sooner};
use crate::kinds::{Kind, Op, Operand, Operator};
use crate::names::{column_named, is_long, is_wide};
use crate::rows::negative;
use sql_base::{ArithOp, Column, ColumnKind, CompareOp, Expr, Name, NoMemory, Text};
use statement_grammar::{Stack, is_key, is_sign};
use statement_words::{Keyword, Sign, Word};
use std::alloc::Global;
use std::mem::replace;

pub fn no_expression(alloc: Global, at: u32) -> NewExpression
    ensures { result ≡ no_expression at }
{
    NewExpression {
        at,
        inside: 0,
        operands: Stack::new(alloc),
        operators: Stack::new(alloc),
        first: None,
    }
}

pub fn expression_begins(alloc: Global, at: u32, draft: &mut Draft)
    ensures { draft.new ≡ expression_begins at draft.old }
{
    draft.expression = no_expression(alloc, at);
}

fn with_operand(operand: Operand, draft: &mut Draft) -> Result<(), NoMemory>
    ensures { OnOk result (draft.new ≡ with_operand operand draft.old) }
{
    draft.expression.operands.push(operand)
}

fn number_tree(number: u64) -> Option<Expr>
    ensures { result ≡ (if nat_lt number (2 ^ 63) then Some (expr.Number (pos number)) else None) }
{
    if number < 9_223_372_036_854_775_808 {
        return Some(Expr::Number(number as i64));
    }
    None
}

fn number_operand(number: u64) -> Operand
    ensures { result ≡ number_operand number }
{
    Operand {
        kind: Some(Kind::Number),
        depth: 1,
        code: 9,
        tree: number_tree(number),
    }
}

fn negative_operand(number: u64) -> Operand
    ensures { result ≡ negative_operand number }
{
    Operand {
        kind: Some(Kind::Number),
        depth: 1,
        code: 9,
        tree: Some(Expr::Number(negative(number))),
    }
}

pub fn negative_came(number: u64, draft: &mut Draft) -> Result<(), NoMemory>
    ensures { OnOk result (draft.new ≡ negative_came number draft.old) }
{
    with_operand(negative_operand(number), draft)
}

fn text_operand(alloc: Global, text: &Text) -> Result<Operand, NoMemory>
    ensures { IfOk result (λ x. x ≡ text_operand text.now) }
{
    let len = text.bytes().len();
    Ok(Operand {
        kind: Some(Kind::Text(len)),
        depth: 1,
        code: len.min(8_191) as u16 + 2,
        tree: Some(Expr::Text(text.clone()?)),
    })
}

fn column_kind(kind: ColumnKind) -> Kind
    ensures { result ≡ column_kind kind }
{
    match kind {
        ColumnKind::Int => Kind::Number,
        ColumnKind::Char(width) => Kind::Text(width as usize),
    }
}

/// The operand that a name of one of these columns is, and whether it is one.
fn name_operand(columns: &[Column], place: Option<u8>) -> Operand
    ensures { result ≡ name_operand columns.now place }
{
    Operand {
        kind: kind_at(columns, place),
        depth: 1,
        code: 2,
        tree: match place {
            Some(place) => Some(Expr::Column(place)),
            None => None,
        },
    }
}

fn kind_at(columns: &[Column], place: Option<u8>) -> Option<Kind>
    ensures { result ≡ option_map (λ column. column_kind column.kind) (option_and_then (slice_get columns.now) place) }
{
    match place {
        Some(place) => match columns.get(place as usize) {
            Some(column) => Some(column_kind(column.kind)),
            None => None,
        },
        None => None,
    }
}

/// A name among columns: its operand, and the first fault with its own.
fn name_judged(
    columns: &[Column],
    name: &Name,
    at: u32,
    first: Option<Fault>,
) -> (Operand, Option<Fault>)
    ensures operand { result.0 ≡ name_operand columns.now (column_named columns.now name.now) }
    ensures first { result.1 ≡ noted (not (is_some (column_named columns.now name.now))) UnknownName at first }
{
    let place = column_named(columns, name);
    let first = noted(place.is_none(), Reason::UnknownName, at, first);
    (name_operand(columns, place), first)
}

/// A name of a table that isn't known.
fn name_unknown() -> Operand
    ensures { result ≡ name_operand [] None }
{
    Operand {
        kind: None,
        depth: 1,
        code: 2,
        tree: None,
    }
}

fn name_found(draft: &Draft, name: &Name, at: u32, first: Option<Fault>) -> (Operand, Option<Fault>)
    ensures { (result.0, result.1) ≡ found_name (columns_in draft.now.scope draft.now) name.now at first }
{
    match draft.scope {
        Scope::NewTable => name_judged(draft.table.def.columns.items(), name, at, first),
        Scope::Table(place) => match draft.tables.items().get(place as usize) {
            Some(table) => name_judged(table.columns.items(), name, at, first),
            None => (name_unknown(), first),
        },
        Scope::Unknown => (name_unknown(), first),
    }
}

fn name_came(name: &Name, at: u32, draft: &mut Draft) -> Result<(), NoMemory>
    ensures { OnOk result (draft.new ≡ name_came name.now at draft.old) }
{
    let first = noted(is_long(name), Reason::OverLimit, at, draft.first);
    let (operand, first) = name_found(draft, name, at, first);
    draft.first = first;
    with_operand(operand, draft)
}

fn number_came(number: u64, at: u32, draft: &mut Draft) -> Result<(), NoMemory>
    ensures { OnOk result (draft.new ≡ number_came number at draft.old) }
{
    draft.first = noted(is_wide(number), Reason::NumberTooWide, at, draft.first);
    with_operand(number_operand(number), draft)
}

fn with_operator(operator: Operator, draft: &mut Draft) -> Result<(), NoMemory>
    ensures { OnOk result (draft.new ≡ with_operator operator draft.old) }
{
    draft.expression.operators.push(operator)
}

fn opened(at: u32, draft: &mut Draft)
    ensures { draft.new ≡ opened at draft.old }
{
    draft.first = noted(
        draft.expression.inside >= 64,
        Reason::OverLimit,
        at,
        draft.first,
    );
    draft.expression.inside = draft.expression.inside.min(64) + 1;
}

fn other_came(word: &Word, at: u32, draft: &mut Draft) -> Result<(), NoMemory>
    ensures { OnOk result (draft.new ≡ other_came word.now at draft.old) }
{
    if is_key(word, Keyword::Not) {
        return with_operator(Operator::Not(at), draft);
    }
    if is_sign(word, Sign::Open) {
        opened(at, draft);
    }
    Ok(())
}

/// The first word of an operand.
pub fn operand_came(alloc: Global, word: &Word, at: u32, draft: &mut Draft) -> Result<(), NoMemory>
    ensures { OnOk result (draft.new ≡ operand_came word.now at draft.old) }
{
    match word {
        Word::Number(number) => number_came(*number, at, draft),
        Word::Text(text) => with_operand(text_operand(alloc, text)?, draft),
        Word::Name(name) => name_came(name, at, draft),
        Word::Keyword(_) => other_came(word, at, draft),
        Word::Sign(_) => other_came(word, at, draft),
    }
}

/// What an operator's word stands for between operands.
fn op_of(word: &Word) -> Op
    ensures { result ≡ op_of word.now }
{
    if is_sign(word, Sign::Plus) {
        Op::Arith(ArithOp::Add)
    } else if is_sign(word, Sign::Minus) {
        Op::Arith(ArithOp::Sub)
    } else if is_sign(word, Sign::Times) {
        Op::Arith(ArithOp::Mul)
    } else if is_sign(word, Sign::Over) {
        Op::Arith(ArithOp::Div)
    } else if is_sign(word, Sign::Equal) {
        Op::Compare(CompareOp::Eq)
    } else if is_sign(word, Sign::Unequal) {
        Op::Compare(CompareOp::Ne)
    } else if is_sign(word, Sign::Less) {
        Op::Compare(CompareOp::Lt)
    } else if is_sign(word, Sign::AtMost) {
        Op::Compare(CompareOp::Le)
    } else if is_sign(word, Sign::Greater) {
        Op::Compare(CompareOp::Gt)
    } else if is_sign(word, Sign::AtLeast) {
        Op::Compare(CompareOp::Ge)
    } else if is_key(word, Keyword::And) {
        Op::And
    } else {
        Op::Or
    }
}

/// An operator's word between operands.
pub fn joins(word: &Word, at: u32, draft: &mut Draft) -> Result<(), NoMemory>
    ensures { OnOk result (draft.new ≡ joins word.now at draft.old) }
{
    with_operator(Operator::Joins(op_of(word), at), draft)
}

fn no_operand() -> Operand
    ensures { result ≡ no_operand }
{
    Operand {
        kind: None,
        depth: 0,
        code: 0,
        tree: None,
    }
}

/// The whole expression.
fn whole(operands: &mut Stack<Operand>) -> Operand
    ensures { result ≡ top operands.old }
{
    match operands.pop() {
        Some(operand) => operand,
        None => no_operand(),
    }
}

/// The first fault, with those of a whole expression.
fn expression_judged(x: &Operand, expression: &NewExpression, first: Option<Fault>) -> Option<Fault>
    ensures { result ≡ expression_faults x.now expression.now.at expression.now.first first }
{
    let over = x.depth > 32 || x.code > 8_192;
    let first = sooner(first, expression.first);
    noted(over, Reason::OverLimit, expression.at, first)
}

/// Takes the whole expression, and notes its faults.
pub fn expression_ends(alloc: Global, draft: &mut Draft) -> Operand
    ensures operand { result ≡ whole draft.old.expression }
    ensures draft { draft.new ≡ record (expression_judged draft.old) { expression = no_expression 0 } }
{
    let mut expression = replace(&mut draft.expression, no_expression(alloc, 0));
    let x = whole(&mut expression.operands);
    draft.first = expression_judged(&x, &expression, draft.first);
    x
}

fn is_no_truth(kind: Option<Kind>) -> bool
    ensures { result ≡ is_no_truth kind }
{
    match kind {
        Some(Kind::Number) => true,
        Some(Kind::Text(_)) => true,
        Some(Kind::Truth) => false,
        None => false,
    }
}

pub fn check_ends(alloc: Global, draft: &mut Draft) -> Result<(), NoMemory>
    ensures { OnOk result (draft.new ≡ check_ends draft.old) }
{
    let x = expression_ends(alloc, draft);
    let at = draft.table.check_at;
    draft.first = noted(is_no_truth(x.kind), Reason::WrongType, at, draft.first);
    if let Some(tree) = x.tree {
        draft.table.def.checks.push(tree)?;
    }
    Ok(())
}

pub fn filter_ends(alloc: Global, draft: &mut Draft)
    ensures { draft.new ≡ filter_ends draft.old }
{
    let x = expression_ends(alloc, draft);
    let at = draft.statement.where_at;
    draft.first = noted(is_no_truth(x.kind), Reason::WrongType, at, draft.first);
    draft.statement.filter = x.tree;
}
