//! The range of a predicate, key column by key column.

ghost use Rattle.std.specs.Prelude.{◌≡◌, ◌≤◌, ◌<◌, drop, length, map, slice_get, sum_by, All, IfOk, Some};
ghost use Rattle.std.specs.Option.{option_copied};
ghost use Rattle.range_finder.specs.Range.{bounds_of, key_columns, range, range_over};
ghost use Rattle.sql_base.specs.Rows.{key_width, width};
ghost use Rattle.key_ranges.specs.Bounds.{bound_of};
ghost use Rattle.key_ranges.specs.Spans.{with_kind};

use crate::bounds::{ColumnBound, gather};
use crate::spans::{fill, span_left};
use sql_base::{ColumnKind, Expr, Key, KeyRange, List, NoMemory, TableDef, width_of};
use std::alloc::Global;

/// The range of keys outside which no row meets the predicate, or none where it is empty.
pub fn key_range(
    alloc: Global,
    filter: Option<&Expr>,
    table: &TableDef,
) -> Result<Option<KeyRange>, NoMemory>
    requires key { All (λ c. c < length table.now.columns) table.now.key }
    requires key_bytes { key_width table.now ≤ 32 }
    ensures { IfOk result (λ found. found ≡ range table.now (option_copied filter.entry)) }
{
    let bounds = bounds_of(alloc, filter)?;
    range_over(alloc, bounds.items(), table)
}

fn bounds_of(alloc: Global, filter: Option<&Expr>) -> Result<List<ColumnBound>, NoMemory>
    ensures { IfOk result (λ bounds. map bound_of bounds ≡ bounds_of (option_copied filter.entry)) }
{
    let mut bounds = List::new(alloc);
    match filter {
        Some(predicate) => {
            gather(alloc, &mut bounds, predicate)?;
            Ok(bounds)
        }
        None => Ok(bounds),
    }
}

// The columns are taken in order, up to the first whose span isn't one value.
fn range_over(
    alloc: Global,
    bounds: &[ColumnBound],
    table: &TableDef,
) -> Result<Option<KeyRange>, NoMemory>
    requires key { All (λ c. c < length table.now.columns) table.now.key }
    requires key_bytes { key_width table.now ≤ 32 }
    ensures { IfOk result (λ found. found ≡ range_over (map bound_of bounds.now) (key_columns table.now)) }
{
    let mut low = Vec::new(alloc);
    let mut high = Vec::new(alloc);
    let count = table.key.items().len();
    for at in 0..count {
        let column = key_column(table, at);
        match span_left(alloc, bounds, column.place, column.kind)? {
            Some(span) => {
                low.extend_from_slice(span.low.bytes())?;
                high.extend_from_slice(span.high.bytes())?;
                if !span.is_one {
                    let left = width_from(table, at + 1);
                    fill(&mut low, left, 0x00)?;
                    fill(&mut high, left, 0xFF)?;
                    return Ok(Some(range_of(low, high)));
                }
            }
            None => return Ok(None),
        }
    }
    Ok(Some(range_of(low, high)))
}

fn range_of(low: Vec<u8>, high: Vec<u8>) -> KeyRange
    ensures low { result.low ≡ low.items }
    ensures high { result.high ≡ high.items }
{
    KeyRange {
        low: Key::from_vec(low),
        high: Key::from_vec(high),
    }
}

// A key column: its place among the columns, and its kind.
#[derive(Clone, Copy)]
struct KeyColumn {
    place: u8,
    kind: ColumnKind,
}

fn key_column(table: &TableDef, at: usize) -> KeyColumn
    requires key { All (λ c. c < length table.now.columns) table.now.key }
    requires at { at < length table.now.key }
    ensures { slice_get (key_columns table.now) at ≡ Some (with_kind result.place result.kind) }
{
    let place = table.key.items()[at];
    let kind = table.columns.items()[place as usize].kind;
    KeyColumn { place, kind }
}

// How many bytes the key columns have from a place on.
fn width_from(table: &TableDef, from: usize) -> usize
    requires key { All (λ c. c < length table.now.columns) table.now.key }
    requires key_bytes { key_width table.now ≤ 32 }
    requires from { from ≤ length table.now.key }
    ensures { result ≡ sum_by (λ column. width column.kind) (drop from (key_columns table.now)) }
{
    let mut sum = 0;
    for at in from..table.key.items().len() {
        sum += width_of(key_column(table, at).kind);
    }
    sum
}
