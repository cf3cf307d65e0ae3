//! What the end of a transaction leaves of its changes.
ghost use Rattle.std.specs.Prelude.{◌≡◌, ◌≤◌, is_some, map, vec_len, vec_capacity};
ghost use Rattle.std.specs.List.{list_any};
ghost use Rattle.key_sequenced.specs.Cells.{restored, cells_settled};
ghost use Rattle.key_sequenced.specs.Files.{cell_ended};
ghost use Rattle.key_sequenced.specs.Changes.{is_written_by};

use crate::Cell;
use sql_base::TxnName;

/// Undoes the changes of a transaction.
pub fn restore(cells: &mut Vec<Cell>, t: TxnName)
    ensures items { cells.new.items ≡ restored t cells.old.items }
    ensures len { vec_len cells.new ≤ vec_len cells.old }
    ensures capacity { vec_capacity cells.new ≡ vec_capacity cells.old }
{
    cells.retain(|cell| !is_of(cell, t) || cell.was.is_some());
    undo_all(cells, t);
}

fn undo_all(cells: &mut Vec<Cell>, t: TxnName)
    ensures items { cells.new.items ≡ map (cell_ended t (λ c. c.was)) cells.old.items }
    ensures len { vec_len cells.new ≡ vec_len cells.old }
    ensures capacity { vec_capacity cells.new ≡ vec_capacity cells.old }
{
    for cell in cells.iter_mut() {
        undo(cell, t);
    }
}

/// Makes the changes of a transaction good.
pub fn settle(cells: &mut Vec<Cell>, t: TxnName)
    ensures items { cells.new.items ≡ cells_settled t cells.old.items }
    ensures len { vec_len cells.new ≤ vec_len cells.old }
    ensures capacity { vec_capacity cells.new ≡ vec_capacity cells.old }
{
    cells.retain(|cell| !is_of(cell, t) || cell.now.is_some());
    make_good_all(cells, t);
}

fn make_good_all(cells: &mut Vec<Cell>, t: TxnName)
    ensures items { cells.new.items ≡ map (cell_ended t (λ c. c.now)) cells.old.items }
    ensures len { vec_len cells.new ≡ vec_len cells.old }
    ensures capacity { vec_capacity cells.new ≡ vec_capacity cells.old }
{
    for cell in cells.iter_mut() {
        make_good(cell, t);
    }
}

fn undo(cell: &mut Cell, t: TxnName)
    ensures { cell.new ≡ cell_ended t (λ c. c.was) cell.old }
{
    if is_of(cell, t) && cell.was.is_some() {
        cell.now = cell.was.take();
        cell.writer = None;
    }
}

fn make_good(cell: &mut Cell, t: TxnName)
    ensures { cell.new ≡ cell_ended t (λ c. c.now) cell.old }
{
    if is_of(cell, t) && cell.now.is_some() {
        cell.was = None;
        cell.writer = None;
    }
}

/// A cell has a writer.
pub fn is_written(cells: &[Cell]) -> bool
    ensures { result ≡ list_any (λ c. is_some c.writer) cells.now }
{
    cells.iter().any(|cell| cell.writer.is_some())
}

fn is_of(cell: &Cell, t: TxnName) -> bool
    ensures { result ≡ is_written_by t cell.entry.now.writer }
{
    match cell.writer {
        Some(writer) => writer == t,
        None => false,
    }
}
