//! Where a key belongs among blocks, and what is read and changed there.
ghost use Rattle.std.specs.Prelude.{◌≡◌, ◌≤◌, ◌<◌, ◌+◌, List, None, drop, filter, get_or, insert, is_some, length, map, option_copied, vec_len, vec_capacity};
ghost use Rattle.sql_base.specs.Keys.{is_from};
ghost use Rattle.key_sequenced.specs.Cells.{AreCells, find_cell, restored, cells_settled};
ghost use Rattle.key_sequenced.specs.Files.{with_cell, rewritten_at};
ghost use Rattle.key_sequenced.specs.declared.Cell.{Cell};
ghost use Rattle.key_sequenced.specs.Blocks.{begun_by, home, joined, start_key, most_cells, AreBlocks, AreEmpty};

use crate::Cell;
use crate::blocks::{Block, MOST_CELLS};
use crate::cursors::Cells;
use crate::places::{count_below, count_up_to, find_at};
use sql_base::{Row, Start, TxnName};

/// How many blocks begin with the key or below it.
fn count_begun(blocks: &[Block], key: &[u8]) -> usize
    requires { AreBlocks blocks.now }
    ensures begun { result ≡ begun_by key.now blocks.now }
    ensures within { result ≤ length blocks.now }
{
    blocks.partition_point(|block| block.begins_by(key))
}

/// The place of the block to which the key belongs.
fn home(blocks: &[Block], key: &[u8]) -> usize
    requires { AreBlocks blocks.now }
    ensures home { result ≡ home key.now blocks.now }
    ensures within { 0 < length blocks.now → result < length blocks.now }
{
    count_begun(blocks, key).saturating_sub(1)
}

/// The cell of the key.
pub fn find_in<'a>(blocks: &'a [Block], key: &[u8]) -> Option<&'a Cell>
    requires { AreBlocks blocks.now }
    ensures { option_copied result ≡ find_cell key.now (joined blocks.now) }
{
    let place = home(blocks, key);
    if place < blocks.len() {
        find_at(blocks[place].cells(), key)
    } else {
        None
    }
}

/// The key has a cell.
pub fn holds(blocks: &[Block], key: &[u8]) -> bool
    requires { AreBlocks blocks.now }
    ensures { result ≡ is_some (find_cell key.now (joined blocks.now)) }
{
    find_in(blocks, key).is_some()
}

/// The cells from the start on.
pub fn cells_from<'a>(blocks: &'a [Block], start: &Start) -> Cells<'a>
    requires { AreBlocks blocks.now }
    ensures { result ≡ filter (λ c. is_from start.now c.key) (joined blocks.now) }
{
    let place = home(blocks, key_of(start));
    if place < blocks.len() {
        let (_, behind) = blocks.split_at(place + 1);
        Cells::new(rest_from(blocks[place].cells(), start), behind)
    } else {
        Cells::new(&[], blocks)
    }
}

/// The key of a start.
fn key_of(start: &Start) -> &[u8]
    ensures { result.now ≡ start_key start.now }
{
    match start {
        Start::At(key) => key.bytes(),
        Start::After(key) => key.bytes(),
    }
}

/// The cells of a block from the start on.
fn rest_from<'a>(cells: &'a [Cell], start: &Start) -> &'a [Cell]
    requires { AreCells cells.now }
    ensures { result.now ≡ filter (λ c. is_from start.now c.key) cells.now }
{
    match start {
        Start::At(key) => behind(cells, count_below(cells, key.bytes())),
        Start::After(key) => behind(cells, count_up_to(cells, key.bytes())),
    }
}

fn behind(cells: &[Cell], count: usize) -> &[Cell]
    requires { count ≤ length cells.now }
    ensures { result.now ≡ drop count cells.now }
{
    let (_, rest) = cells.split_at(count);
    rest
}

/// Rewrites the cell of the key, where there is one.
pub fn rewrite_in(blocks: &mut Vec<Block>, key: &[u8], now: Option<Row>, writer: TxnName)
    requires { AreBlocks blocks.old.items }
    ensures cells { joined blocks.new.items ≡ rewritten_at writer key.now now (joined blocks.old.items) }
    ensures blocks { AreBlocks blocks.new.items }
    ensures len { vec_len blocks.new ≡ vec_len blocks.old }
    ensures capacity { vec_capacity blocks.new ≡ vec_capacity blocks.old }
{
    let place = home(blocks, key);
    if place < blocks.len() {
        blocks[place].rewrite(key, now, writer);
    }
}

/// Lays a cell of a key that has none into the block to which it belongs, which is split if it is full.
pub fn lay_in(blocks: &mut Vec<Block>, empty: &mut Vec<Block>, cell: Cell)
    requires blocks { AreBlocks blocks.old.items }
    requires empty { AreEmpty empty.old.items }
    requires free { find_cell cell.key (joined blocks.old.items) ≡ None }
    requires room { vec_len blocks.old < vec_capacity blocks.old }
    requires spare { 0 < vec_len empty.old }
    ensures cells { joined blocks.new.items ≡ with_cell cell (joined blocks.old.items) }
    ensures blocks { AreBlocks blocks.new.items }
    ensures empty { AreEmpty empty.new.items }
    ensures one { vec_len blocks.new ≤ vec_len blocks.old + 1 }
    ensures capacity { vec_capacity blocks.new ≡ vec_capacity blocks.old }
    ensures spare { vec_len empty.old ≤ vec_len empty.new + 1 }
{
    let place = home(blocks, cell.key.bytes());
    if place < blocks.len() && blocks[place].len() < MOST_CELLS {
        blocks[place].lay(cell);
    } else if let Some(block) = empty.pop() {
        lay_in_new(blocks, place, block, cell);
    }
}

/// Lays a cell with the help of an empty block: into it, where it is the first of all, and else into a half of the full
/// block to which it belongs.
fn lay_in_new(blocks: &mut Vec<Block>, place: usize, block: Block, cell: Cell)
    requires blocks { AreBlocks blocks.old.items }
    requires place { place ≡ home cell.key blocks.old.items }
    requires free { find_cell cell.key (joined blocks.old.items) ≡ None }
    requires room { vec_len blocks.old < vec_capacity blocks.old }
    requires empty { length block ≡ 0 }
    requires full { (d : List Cell) → place < vec_len blocks.old → length (get_or blocks.old.items place d) ≡ most_cells }
    ensures cells { joined blocks.new.items ≡ with_cell cell (joined blocks.old.items) }
    ensures blocks { AreBlocks blocks.new.items }
    ensures one { vec_len blocks.new ≡ vec_len blocks.old + 1 }
    ensures capacity { vec_capacity blocks.new ≡ vec_capacity blocks.old }
{
    let mut block = block;
    if place < blocks.len() {
        blocks[place].lay_in_halves(&mut block, cell);
        insert(blocks, place + 1, block);
    } else {
        block.lay(cell);
        insert(blocks, place, block);
    }
}

fn insert(blocks: &mut Vec<Block>, at: usize, block: Block)
    requires room { vec_len blocks.old < vec_capacity blocks.old }
    requires within { at ≤ vec_len blocks.old }
    ensures items { blocks.new.items ≡ insert blocks.old.items at block }
    ensures one { vec_len blocks.new ≡ vec_len blocks.old + 1 }
    ensures capacity { vec_capacity blocks.new ≡ vec_capacity blocks.old }
{
    let inserted = blocks.insert(at, block);
    prove!(inserted.is_ok());
}

/// Undoes the changes of a transaction, and takes out the blocks that this leaves empty.
pub fn restore_in(blocks: &mut Vec<Block>, t: TxnName)
    requires { AreBlocks blocks.old.items }
    ensures cells { joined blocks.new.items ≡ restored t (joined blocks.old.items) }
    ensures blocks { AreBlocks blocks.new.items }
    ensures len { vec_len blocks.new ≤ vec_len blocks.old }
    ensures capacity { vec_capacity blocks.new ≡ vec_capacity blocks.old }
{
    restore_each(blocks, t);
    blocks.retain(|block| block.is_filled());
}

fn restore_each(blocks: &mut Vec<Block>, t: TxnName)
    ensures items { blocks.new.items ≡ map (restored t) blocks.old.items }
    ensures len { vec_len blocks.new ≡ vec_len blocks.old }
    ensures capacity { vec_capacity blocks.new ≡ vec_capacity blocks.old }
{
    for block in blocks.iter_mut() {
        block.restore(t);
    }
}

/// Makes the changes of a transaction good, and takes out the blocks that this leaves empty.
pub fn settle_in(blocks: &mut Vec<Block>, t: TxnName)
    requires { AreBlocks blocks.old.items }
    ensures cells { joined blocks.new.items ≡ cells_settled t (joined blocks.old.items) }
    ensures blocks { AreBlocks blocks.new.items }
    ensures len { vec_len blocks.new ≤ vec_len blocks.old }
    ensures capacity { vec_capacity blocks.new ≡ vec_capacity blocks.old }
{
    settle_each(blocks, t);
    blocks.retain(|block| block.is_filled());
}

fn settle_each(blocks: &mut Vec<Block>, t: TxnName)
    ensures items { blocks.new.items ≡ map (cells_settled t) blocks.old.items }
    ensures len { vec_len blocks.new ≡ vec_len blocks.old }
    ensures capacity { vec_capacity blocks.new ≡ vec_capacity blocks.old }
{
    for block in blocks.iter_mut() {
        block.settle(t);
    }
}
