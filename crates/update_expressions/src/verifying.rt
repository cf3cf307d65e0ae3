//! Bytes verified as the code of a SET list.

ghost use Rattle.std.specs.Prelude.{◌≡◌, ◌≢◌, ◌≤◌, nat_eq, length, map, not, ◌&&◌, slice_get, Err, IfOk, List, None, Some};
ghost use Rattle.std.specs.List.{list_any};
ghost use Rattle.sql_base.specs.Codes.{sets_code};
ghost use Rattle.sql_base.specs.Tables.{AreSets, all_differ};
ghost use Rattle.sql_base.specs.declared.statements.Assign.{Assign};
ghost use Rattle.predicate_codes.specs.SetLists.{are_sets, assigns_in, can_store};
ghost use Rattle.sql_base.specs.Rows.{kinds};
ghost use Rattle.predicate_runner.specs.Outlines.{kind_in};
ghost use Rattle.update_expressions.specs.Entries.{entry_in, entry_of, set_in};

use crate::faults::{column_kind, is_key_column};
use predicate_runner::{CodeFault, ExprKind, Verified, counted_in, verify};
use sql_base::{ColumnKind, List, TableDef};
use std::alloc::Global;
use std::marker::Model;

/// An assignment with the verified code of its value.
#[derive(Debug, Drop)]
pub struct VerifiedSet {
    pub column: u8,
    pub value: Verified,
}

/// A verified SET list, which contracts see as that list.
#[derive(Debug, Drop)]
pub struct VerifiedSets {
    sets: List<VerifiedSet>,
}

impl Model for VerifiedSets {
    ghost use Rattle.std.specs.Prelude.{List, map};
    ghost use Rattle.std.specs.Coded.{codes};
    ghost use Rattle.sql_base.specs.contracts.expressions.Expr as e;
    ghost use Rattle.sql_base.specs.declared.statements.Assign as assign;
    ghost use Rattle.update_expressions.specs.Entries.{set_in};

    ghost Value = { List assign.Assign };

    ghost coded = { Prim.hlevel (codes, e.the_row.coded) };

    ghost view = { λ it. map set_in it.sets };
}

impl VerifiedSets {
    pub fn sets(&self) -> &[VerifiedSet]
        ensures { map set_in result.now ≡ self.now }
    {
        self.sets.items()
    }
}

/// The bytes as the code of a SET list, exactly where they are the code of one of the table.
pub fn verify_sets(alloc: Global, code: &[u8], table: &TableDef) -> Result<VerifiedSets, CodeFault>
    ensures verified { IfOk result (λ sets. AreSets table.now sets × (code.now ≡ sets_code sets)) }
    ensures bad_code { result ≡ Err CodeFault.BadCode → (sets : List Assign) → AreSets table.now sets → code.now ≢ sets_code sets }
{
    let Some((count, entries)) = code.split_first() else {
        return Err(CodeFault::BadCode);
    };
    if code.len() > 8192 {
        return Err(CodeFault::BadCode);
    }
    let sets = verify_entries(alloc, *count, entries, table)?;
    if are_sets(sets.items()) {
        Ok(VerifiedSets { sets })
    } else {
        Err(CodeFault::BadCode)
    }
}

// So many assignments, and nothing behind them.
fn verify_entries(
    alloc: Global,
    count: u8,
    code: &[u8],
    table: &TableDef,
) -> Result<List<VerifiedSet>, CodeFault>
    ensures ok { IfOk result (λ sets. assigns_in table.now count code.now ≡ Some (map set_in sets)) }
    ensures bad { result ≡ Err CodeFault.BadCode → assigns_in table.now count code.now ≡ None }
{
    let mut sets = List::new(alloc);
    let mut rest = code;
    for _ in 0..count {
        let entry = verify_entry(alloc, rest, table)?;
        rest = &rest[entry.size..];
        sets.push(entry.set)?;
    }
    if rest.is_empty() {
        Ok(sets)
    } else {
        Err(CodeFault::BadCode)
    }
}

// An assignment, and how many bytes it has in the code.
#[derive(Drop)]
struct Entry {
    set: VerifiedSet,
    size: usize,
}

fn verify_entry(alloc: Global, code: &[u8], table: &TableDef) -> Result<Entry, CodeFault>
    ensures ok { IfOk result (λ entry. entry_in table.now code.now ≡ Some (entry_of entry)) }
    ensures within { IfOk result (λ entry. entry.size ≤ length code.now) }
    ensures bad { result ≡ Err CodeFault.BadCode → entry_in table.now code.now ≡ None }
{
    let Some((column, behind)) = code.split_first() else {
        return Err(CodeFault::BadCode);
    };
    let Some(bytes) = counted_in(behind) else {
        return Err(CodeFault::BadCode);
    };
    let value = verify(alloc, bytes, table)?;
    if !can_set(table, *column, value.kind()) {
        return Err(CodeFault::BadCode);
    }
    Ok(Entry {
        set: VerifiedSet {
            column: *column,
            value,
        },
        size: bytes.len() + 3,
    })
}

// Whether values of the kind may be assigned to the column.
fn can_set(table: &TableDef, column: u8, kind: ExprKind) -> bool
    ensures { result ≡ (not (list_any (nat_eq column) table.now.key) && can_store (slice_get (kinds table.now) column) (kind_in kind)) }
{
    match column_kind(table, column) {
        Some(kept) => !is_key_column(table, column) && can_store(kept, kind),
        None => false,
    }
}

fn can_store(column: ColumnKind, kind: ExprKind) -> bool
    ensures { result ≡ can_store (Some column) (kind_in kind) }
{
    match column {
        ColumnKind::Int => match kind {
            ExprKind::Number => true,
            ExprKind::Text(_width) => false,
            ExprKind::Truth => false,
        },
        ColumnKind::Char(room) => match kind {
            ExprKind::Number => false,
            ExprKind::Text(width) => width <= room,
            ExprKind::Truth => false,
        },
    }
}

// Whether there is one assignment at least, and no two to one column.
fn are_sets(sets: &[VerifiedSet]) -> bool
    ensures { result ≡ are_sets (map set_in sets.now) }
{
    !sets.is_empty() && columns_differ(sets)
}

fn columns_differ(sets: &[VerifiedSet]) -> bool
    ensures { result ≡ all_differ (λ (a b : VerifiedSet). nat_eq a.column b.column) sets.now }
{
    for place in 0..sets.len() {
        if is_set(&sets[place + 1..], sets[place].column) {
            return false;
        }
    }
    true
}

fn is_set(sets: &[VerifiedSet], column: u8) -> bool
    ensures { result ≡ list_any (λ (set : VerifiedSet). nat_eq column set.column) sets.now }
{
    sets.iter().any(|set| column == set.column)
}
