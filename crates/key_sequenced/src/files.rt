//! A file, as its callers see it.
ghost use Rattle.std.specs.Prelude.{◌≡◌, ◌≤◌, ◌<◌, ◌+◌, [], All, None, Some, filter, find, length, map, option_copied, sum, vec_len, IfOk, OnOk};
ghost use Rattle.key_sequenced.specs.Cells.{AreCells, find_cell, inserted, restored, cells_settled};
ghost use Rattle.sql_base.specs.Keys.{is_from};
ghost use Rattle.key_sequenced.specs.Files.{with_cell, loaded_cell, rewritten_at, IsSize};
ghost use Rattle.key_sequenced.specs.Blocks.{AreEmpty};

use crate::Cell;
use crate::blocks::Block;
use crate::cursors::Cells;
use crate::indexes::{cells_from, find_in, holds, lay_in, restore_in, rewrite_in, settle_in};
use sql_base::{Key, List, NoMemory, Row, Start, TxnName};
use std::alloc::Global;
use std::marker::Model;

/// The cells of a file in key order, in blocks of 1 to 64, and the room for more of them. The first keys of the blocks are
/// their index.
#[derive(Debug, Drop)]
pub struct File {
    blocks: Vec<Block>,
    empty: Vec<Block>,
    alloc: Global,
}

impl Model for File {
    ghost use Rattle.key_sequenced.specs.Files.{Held};
    ghost use Rattle.key_sequenced.specs.Blocks.{held_in, AreBlocks, AreEmpty};
    ghost use Rattle.key_sequenced.specs.contracts.Cell as cell;
    ghost use Rattle.std.specs.Coded.{codes};

    ghost Value = { Held };

    ghost coded = { Prim.hlevel (codes, cell.the_row.coded) };

    ghost view = { λ f. held_in f.blocks f.empty };

    ghost invariant = { λ f. AreBlocks f.blocks.items × AreEmpty f.empty.items };
}

impl File {
    /// The empty file, which takes no memory.
    pub fn new(alloc: Global) -> File
        ensures { result.cells ≡ [] }
    {
        File {
            blocks: Vec::new(alloc),
            empty: Vec::new(alloc),
            alloc,
        }
    }

    /// Makes room for so many more records.
    pub fn reserve(&mut self, more: u32) -> Result<(), NoMemory>
        ensures same { self.new.cells ≡ self.old.cells }
        ensures room { OnOk result (more ≤ self.new.spare) }
        ensures spare { self.old.spare ≤ self.new.spare }
    {
        self.blocks.reserve(more as usize)?;
        fill(&mut self.empty, self.alloc, more as usize)
    }

    /// Lays a record of a key that has no cell.
    pub fn load(&mut self, key: Key, row: Row)
        requires room { 0 < self.old.spare }
        requires free { find_cell key self.old.cells ≡ None }
        ensures cells { self.new.cells ≡ with_cell (loaded_cell key row) self.old.cells }
        ensures spare { self.old.spare ≤ self.new.spare + 1 }
    {
        let cell = Cell {
            key,
            now: Some(row),
            was: None,
            writer: None,
        };
        lay_in(&mut self.blocks, &mut self.empty, cell);
    }

    /// Inserts a record, in a cell of its own or in the one of its key.
    pub fn put(&mut self, key: Key, row: Row, writer: TxnName)
        requires room { 0 < self.old.spare }
        ensures cells { self.new.cells ≡ inserted writer key row self.old.cells }
        ensures spare { self.old.spare ≤ self.new.spare + 1 }
    {
        if holds(&self.blocks, key.bytes()) {
            rewrite_in(&mut self.blocks, key.bytes(), Some(row), writer);
            return;
        }
        let cell = Cell {
            key,
            now: Some(row),
            was: None,
            writer: Some(writer),
        };
        lay_in(&mut self.blocks, &mut self.empty, cell);
    }

    /// The cell of the key.
    pub fn find(&self, key: &[u8]) -> Option<&Cell>
        ensures { option_copied result ≡ find_cell key.now self.now.cells }
    {
        find_in(&self.blocks, key)
    }

    /// The first cell at the start or after it.
    pub fn next_after(&self, start: &Start) -> Option<&Cell>
        ensures { option_copied result ≡ find (λ c. is_from start.now c.key) self.now.cells }
    {
        self.cells_from(start).next()
    }

    /// The cells, in key order.
    pub fn cells(&self) -> Cells<'_>
        ensures cells { result ≡ self.now.cells }
        ensures order { AreCells self.now.cells }
    {
        Cells::new(&[], &self.blocks)
    }

    /// The cells at the start and after it, in key order.
    pub fn cells_from(&self, start: &Start) -> Cells<'_>
        ensures cells { result ≡ filter (λ c. is_from start.now c.key) self.now.cells }
        ensures order { AreCells self.now.cells }
    {
        cells_from(&self.blocks, start)
    }

    /// How many cells each block has, in key order: from 1 to 64.
    pub fn shape(&self) -> Result<List<u32>, NoMemory>
        ensures sizes { IfOk result (λ sizes. sizes ≡ self.now.sizes) }
        ensures each { IfOk result (All IsSize) }
        ensures sum { IfOk result (λ sizes. sum sizes ≡ length self.now.cells) }
    {
        let mut sizes = List::new(self.alloc);
        for block in &self.blocks {
            sizes.push(block.len() as u32)?;
        }
        Ok(sizes)
    }

    /// Gives the cell of the key a new row.
    pub fn change(&mut self, key: &[u8], row: Row, writer: TxnName)
        ensures cells { self.new.cells ≡ rewritten_at writer key.now (Some row) self.old.cells }
        ensures spare { self.old.spare ≤ self.new.spare }
    {
        rewrite_in(&mut self.blocks, key, Some(row), writer);
    }

    /// Deletes the record of the key, whose cell stays to the writer's end.
    pub fn remove_now(&mut self, key: &[u8], writer: TxnName)
        ensures cells { self.new.cells ≡ rewritten_at writer key.now None self.old.cells }
        ensures spare { self.old.spare ≤ self.new.spare }
    {
        rewrite_in(&mut self.blocks, key, None, writer);
    }

    /// Undoes the changes of a transaction.
    pub fn restore(&mut self, writer: TxnName)
        ensures cells { self.new.cells ≡ restored writer self.old.cells }
        ensures spare { self.old.spare ≤ self.new.spare }
    {
        restore_in(&mut self.blocks, writer);
    }

    /// Makes the changes of a transaction good.
    pub fn settle(&mut self, writer: TxnName)
        ensures cells { self.new.cells ≡ cells_settled writer self.old.cells }
        ensures spare { self.old.spare ≤ self.new.spare }
    {
        settle_in(&mut self.blocks, writer);
    }
}

/// Adds empty blocks up to that many.
fn fill(empty: &mut Vec<Block>, alloc: Global, count: usize) -> Result<(), NoMemory>
    requires { AreEmpty empty.old.items }
    ensures empty { AreEmpty empty.new.items }
    ensures full { OnOk result (count ≤ vec_len empty.new) }
    ensures len { vec_len empty.old ≤ vec_len empty.new }
{
    while empty.len() < count {
        empty.push(Block::new(alloc)?)?;
    }
    Ok(())
}
