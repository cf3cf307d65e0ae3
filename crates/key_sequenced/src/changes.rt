//! Cells laid among others with reserved room, and rewritten there.
ghost use Rattle.std.specs.Prelude.{◌≡◌, ◌≤◌, ◌<◌, ◌+◌, insert, vec_len, vec_capacity};
ghost use Rattle.key_sequenced.specs.Cells.{AreCells, rewritten};
ghost use Rattle.key_sequenced.specs.Files.{with_cell, rewritten_at};

use crate::Cell;
use crate::places::{count_below, count_up_to, is_at};
use sql_base::{Row, TxnName};

/// Lays a cell behind those up to its key.
pub fn lay(cells: &mut Vec<Cell>, cell: Cell)
    requires cells { AreCells cells.old.items }
    requires room { vec_len cells.old < vec_capacity cells.old }
    ensures items { cells.new.items ≡ with_cell cell cells.old.items }
    ensures one { vec_len cells.new ≡ vec_len cells.old + 1 }
    ensures capacity { vec_capacity cells.new ≡ vec_capacity cells.old }
{
    let at = count_up_to(cells, cell.key.bytes());
    insert(cells, at, cell);
}

fn insert(cells: &mut Vec<Cell>, at: usize, cell: Cell)
    requires room { vec_len cells.old < vec_capacity cells.old }
    requires within { at ≤ vec_len cells.old }
    ensures items { cells.new.items ≡ insert cells.old.items at cell }
    ensures one { vec_len cells.new ≡ vec_len cells.old + 1 }
    ensures capacity { vec_capacity cells.new ≡ vec_capacity cells.old }
{
    let inserted = cells.insert(at, cell);
    prove!(inserted.is_ok());
}

/// Rewrites the cell of the key, where there is one.
pub fn rewrite_at(cells: &mut Vec<Cell>, key: &[u8], now: Option<Row>, writer: TxnName)
    requires cells { AreCells cells.old.items }
    ensures items { cells.new.items ≡ rewritten_at writer key.now now cells.old.items }
    ensures len { vec_len cells.new ≡ vec_len cells.old }
    ensures capacity { vec_capacity cells.new ≡ vec_capacity cells.old }
{
    let at = count_below(cells, key);
    if is_at(cells, at, key) {
        rewrite(&mut cells[at], now, writer);
    }
}

/// Gives the cell a new row, or none. A writer's first change keeps what stood before it.
fn rewrite(cell: &mut Cell, now: Option<Row>, writer: TxnName)
    ensures { cell.new ≡ rewritten writer now cell.old }
{
    if cell.writer.is_none() {
        cell.was = cell.now.take();
    }
    cell.now = now;
    cell.writer = Some(writer);
}
