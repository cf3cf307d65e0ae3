//! The printed lines of what a statement gave.
ghost use Rattle.std.specs.Prelude.{◌≡◌, ◌++◌, ◌∷◌, [], IfOk, OnOk, codes, decimal};
ghost use Rattle.sql_base.specs.Rows.{unpacked};
ghost use Rattle.sql_base.specs.declared.outcomes.Given.TheVariants.{Rows};
ghost use Rattle.one_thread.specs.Text.{given_text, givens_text, line, values_of};
ghost use Rattle.one_thread.specs.Scaffold.Columns.{spaced_values};

use crate::printing::columns::{is_row, put_columns};
use crate::printing::words::{put_name, put_number, put_wide_number};
use crate::shown::Shown;
use sql_base::{ColumnKind, Given, List, NoMemory, Packed};
use std::alloc::Global;

/// Where a result stands: the session, the attempt in it, and the statement in the attempt, each from 1.
#[derive(Clone, Copy, Debug, PartialEq, Eq)]
struct Place {
    session: u32,
    ordinal: u32,
    statement: u64,
}

/// Adds the lines of what the statements of an attempt gave.
pub fn put_results(alloc: Global, out: &mut Vec<u8>, shown: &Shown) -> Result<(), NoMemory>
    ensures { OnOk result (out.new.items ≡ out.old.items ++ givens_text shown.now 1 shown.now.given) }
{
    for (before, given) in shown.given.items().iter().enumerate() {
        let place = Place {
            session: shown.session,
            ordinal: shown.ordinal,
            statement: before as u64 + 1,
        };
        put_given(alloc, out, place, given)?;
    }
    Ok(())
}

fn put_given(alloc: Global, out: &mut Vec<u8>, place: Place, given: &Given) -> Result<(), NoMemory>
    ensures { OnOk result (out.new.items ≡ out.old.items
        ++ given_text (decimal place.session ∷ decimal place.ordinal ∷ decimal place.statement ∷ []) given.now) }
{
    match given {
        Given::Rows { kinds, rows } => put_rows(alloc, out, place, kinds, rows),
        Given::Count(count) => put_count(out, place, *count),
        Given::Silent => Ok(()),
    }
}

// All lines begin alike, so that their first words are written once.
fn put_rows(
    alloc: Global,
    out: &mut Vec<u8>,
    place: Place,
    kinds: &List<ColumnKind>,
    rows: &List<Packed>,
) -> Result<(), NoMemory>
    ensures { OnOk result (out.new.items ≡ out.old.items
        ++ given_text (decimal place.session ∷ decimal place.ordinal ∷ decimal place.statement ∷ []) (Rows kinds.now rows.now)) }
{
    let head = row_head(alloc, place)?;
    for row in rows.items() {
        put_row(out, head.as_slice(), kinds.items(), row)?;
    }
    Ok(())
}

// The first words of each line of a result.
fn row_head(alloc: Global, place: Place) -> Result<Vec<u8>, NoMemory>
    ensures { IfOk result (λ head. head.items ≡ codes "ROW"
        ++ 0x20 ∷ decimal place.session ++ 0x20 ∷ decimal place.ordinal ++ 0x20 ∷ decimal place.statement) }
{
    let mut head = Vec::from_slice(alloc, b"ROW")?;
    put_place(&mut head, place)?;
    Ok(head)
}

fn put_row(
    out: &mut Vec<u8>,
    head: &[u8],
    kinds: &[ColumnKind],
    row: &Packed,
) -> Result<(), NoMemory>
    ensures { OnOk result (out.new.items ≡ out.old.items ++ (head.now ++ spaced_values (values_of (unpacked kinds.now row.now)) ++ 0x0A ∷ [])) }
{
    out.extend_from_slice(head)?;
    put_unpacked(out, kinds, row.bytes())?;
    out.push(b'\n')?;
    Ok(())
}

// Of bytes that are no row of these kinds there are no values to show.
fn put_unpacked(out: &mut Vec<u8>, kinds: &[ColumnKind], row: &[u8]) -> Result<(), NoMemory>
    ensures { OnOk result (out.new.items ≡ out.old.items ++ spaced_values (values_of (unpacked kinds.now row.now))) }
{
    if is_row(kinds, row) {
        put_columns(out, kinds, row)?;
    }
    Ok(())
}

fn put_count(out: &mut Vec<u8>, place: Place, count: u128) -> Result<(), NoMemory>
    ensures { OnOk result (out.new.items ≡ out.old.items
        ++ line ((codes "COUNT" ∷ decimal place.session ∷ decimal place.ordinal ∷ decimal place.statement ∷ []) ++ decimal count ∷ [])) }
{
    out.extend_from_slice(b"COUNT")?;
    put_place(out, place)?;
    put_wide_number(out, count)?;
    out.push(b'\n')?;
    Ok(())
}

fn put_place(out: &mut Vec<u8>, place: Place) -> Result<(), NoMemory>
    ensures { OnOk result (out.new.items ≡ out.old.items
        ++ 0x20 ∷ decimal place.session ++ 0x20 ∷ decimal place.ordinal ++ 0x20 ∷ decimal place.statement) }
{
    put_name(out, place.session, place.ordinal)?;
    put_number(out, place.statement)
}
