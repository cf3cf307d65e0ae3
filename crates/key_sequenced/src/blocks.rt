//! A block of a file: up to 64 cells in memory that was taken beforehand.
ghost use Rattle.std.specs.Prelude.{◌≡◌, ◌≤◌, ◌<◌, ◌++◌, ◌||◌, [], is_some, length, reverse, vec_len, vec_capacity, IfOk};
ghost use Rattle.key_sequenced.specs.Cells.{AreCells, restored, cells_settled};
ghost use Rattle.key_sequenced.specs.Files.{with_cell, rewritten_at};
ghost use Rattle.key_sequenced.specs.Blocks.{begins_by, has_cells, most_cells, kept_cells};

use crate::Cell;
use crate::changes::{lay, rewrite_at};
use crate::ends::{is_written, restore, settle};
use sql_base::{NoMemory, Row, TxnName};
use std::alloc::Global;
use std::marker::Model;

/// The most cells of a block.
pub const MOST_CELLS: usize = 64;
/// The cells that a full block keeps when it is split.
pub const KEPT_CELLS: usize = 32;

/// Cells that stand together, with room for 64.
#[derive(Debug, Drop)]
pub struct Block {
    cells: Vec<Cell>,
    /// A cell may have a writer. Where none has, the end of a transaction leaves the block as it is.
    written: bool,
}

impl Model for Block {
    ghost use Rattle.std.specs.Prelude.{List, ◌≤◌, vec_len, vec_capacity};
    ghost use Rattle.key_sequenced.specs.declared.Cell.{Cell};
    ghost use Rattle.key_sequenced.specs.contracts.Cell as cell;
    ghost use Rattle.key_sequenced.specs.Blocks.{IsMarked};
    ghost use Rattle.std.specs.Coded.{codes};

    ghost Value = { List Cell };

    ghost coded = { Prim.hlevel (codes, cell.the_row.coded) };

    ghost view = { λ b. b.cells.items };

    ghost invariant = { λ b. (vec_len b.cells ≤ 64) × (64 ≤ vec_capacity b.cells) × IsMarked b.written b.cells.items };
}

impl Block {
    /// A block without cells.
    pub fn new(alloc: Global) -> Result<Block, NoMemory>
        ensures { IfOk result (λ block. block ≡ []) }
    {
        Ok(Block {
            cells: Vec::with_capacity(alloc, MOST_CELLS)?,
            written: false,
        })
    }

    /// The cells, in key order.
    pub fn cells(&self) -> &[Cell]
        ensures cells { result.now ≡ self.now }
        ensures most { length self.now ≤ most_cells }
    {
        self.cells.as_slice()
    }

    /// How many cells it has.
    pub fn len(&self) -> usize
        ensures len { result ≡ length self.now }
        ensures most { length self.now ≤ most_cells }
    {
        self.cells.len()
    }

    /// It has a cell.
    pub fn is_filled(&self) -> bool
        ensures { result ≡ has_cells self.now }
    {
        self.cells.first().is_some()
    }

    /// Its first key isn't above this one.
    pub fn begins_by(&self, key: &[u8]) -> bool
        ensures { result ≡ begins_by key.now self.now }
    {
        match self.cells.first() {
            Some(cell) => cell.key.bytes().cmp(key).is_le(),
            None => false,
        }
    }

    /// Lays a cell behind those up to its key.
    pub fn lay(&mut self, cell: Cell)
        requires cells { AreCells self.old }
        requires room { length self.old < most_cells }
        ensures { self.new ≡ with_cell cell self.old }
    {
        self.written = marked(self.written, &cell);
        lay(&mut self.cells, cell);
    }

    /// Lays a cell into a full block, all but the first 32 of whose cells first go to an empty one.
    pub fn lay_in_halves(&mut self, behind: &mut Block, cell: Cell)
        requires cells { AreCells self.old }
        requires full { length self.old ≡ most_cells }
        requires empty { length behind.old ≡ 0 }
        ensures cells { self.new ++ behind.new ≡ with_cell cell self.old }
        ensures front { 0 < length self.new }
        ensures back { 0 < length behind.new }
    {
        halve(&mut self.cells, &mut behind.cells);
        behind.written = self.written;
        if behind.begins_by(cell.key.bytes()) {
            behind.lay(cell);
        } else {
            self.lay(cell);
        }
    }

    /// Rewrites the cell of the key, where there is one.
    pub fn rewrite(&mut self, key: &[u8], now: Option<Row>, writer: TxnName)
        requires { AreCells self.old }
        ensures { self.new ≡ rewritten_at writer key.now now self.old }
    {
        self.written = true;
        rewrite_at(&mut self.cells, key, now, writer);
    }

    /// Undoes the changes of a transaction.
    pub fn restore(&mut self, t: TxnName)
        ensures { self.new ≡ restored t self.old }
    {
        if self.written {
            restore(&mut self.cells, t);
            self.written = is_written(&self.cells);
        }
    }

    /// Makes the changes of a transaction good.
    pub fn settle(&mut self, t: TxnName)
        ensures { self.new ≡ cells_settled t self.old }
    {
        if self.written {
            settle(&mut self.cells, t);
            self.written = is_written(&self.cells);
        }
    }
}

/// The mark of a block after one more cell.
fn marked(written: bool, cell: &Cell) -> bool
    ensures { result ≡ (written || is_some cell.entry.now.writer) }
{
    written || cell.writer.is_some()
}

/// Moves all cells but the first 32 to an empty vector, in their order.
fn halve(full: &mut Vec<Cell>, behind: &mut Vec<Cell>)
    requires full { vec_len full.old ≡ most_cells }
    requires empty { vec_len behind.old ≡ 0 }
    requires room { most_cells ≤ vec_capacity behind.old }
    ensures cells { full.new.items ++ behind.new.items ≡ full.old.items }
    ensures front { vec_len full.new ≡ kept_cells }
    ensures back { vec_len behind.new ≡ kept_cells }
    ensures capacity { vec_capacity full.new ≡ vec_capacity full.old }
    ensures capacity_behind { vec_capacity behind.old ≤ vec_capacity behind.new }
{
    move_last(full, behind);
    behind.reverse();
}

/// Moves all cells but the first 32, the last of them first.
fn move_last(full: &mut Vec<Cell>, behind: &mut Vec<Cell>)
    requires full { vec_len full.old ≡ most_cells }
    requires empty { vec_len behind.old ≡ 0 }
    requires room { most_cells ≤ vec_capacity behind.old }
    ensures cells { full.new.items ++ reverse behind.new.items ≡ full.old.items }
    ensures front { vec_len full.new ≡ kept_cells }
    ensures back { vec_len behind.new ≡ kept_cells }
    ensures capacity { vec_capacity full.new ≡ vec_capacity full.old }
    ensures capacity_behind { vec_capacity behind.old ≤ vec_capacity behind.new }
{
    for _ in KEPT_CELLS..MOST_CELLS {
        if let Some(cell) = full.pop() {
            let pushed = behind.push(cell);
            prove!(pushed.is_ok());
        }
    }
}
