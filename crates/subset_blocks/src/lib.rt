//! The subsets that are under way in a partition: what a redrive goes on with.
#![tactic(auto)]

ghost use Rattle.std.specs.Prelude.{◌≡◌, ◌<◌, length, option_copied};
ghost use Rattle.std.specs.List.{list_any};
ghost use Rattle.std.specs.Prelude.{◌==◌};
ghost use Rattle.subset_blocks.specs.Blocks.{most_blocks, free_number, find_block, advanced, closed, closed_of, NumbersDiffer};

use sql_base::{Access, Key, Start, TxnName};

/// A subset under way: the rest of a range, and what is done with its records.
#[derive(Debug, Drop)]
pub struct Block<W> {
    pub holder: TxnName,
    pub start: Start,
    pub high: Key,
    pub access: Access,
    pub work: W,
}

/// A block with its number, from 1, by which a Continue names it.
#[derive(Debug, Drop)]
pub struct Numbered<W> {
    pub number: u32,
    pub block: Block<W>,
}

/// How many blocks a partition has room for.
pub const MOST_BLOCKS: usize = 64;

/// The least number from 1 that no block has.
pub fn free_number<W>(blocks: &[Numbered<W>]) -> u32
    requires { length blocks.now < most_blocks }
    ensures { result ≡ free_number blocks.now }
{
    let most = blocks.len() as u32 + 1;
    for below in 0..most {
        let number = below + 1;
        if !has_number(blocks, number) {
            return number;
        }
    }
    0
}

fn has_number<W>(blocks: &[Numbered<W>], number: u32) -> bool
    ensures { result ≡ list_any (λ b. b.number == number) blocks.now }
{
    blocks.iter().any(|b| b.number == number)
}

/// The transaction's block of that number.
pub fn find_block<W>(blocks: &[Numbered<W>], number: u32, holder: TxnName) -> Option<&Numbered<W>>
    ensures { option_copied result ≡ find_block number holder blocks.now }
{
    for numbered in blocks {
        if numbered.number == number && numbered.block.holder == holder {
            return Some(numbered);
        }
    }
    None
}

/// Lets the block of that number go on after the key.
pub fn advance<W: Drop>(blocks: &mut Vec<Numbered<W>>, number: u32, last: Key)
    requires { NumbersDiffer blocks.old.items }
    ensures { blocks.new.items ≡ advanced number last blocks.old.items }
{
    for i in 0..blocks.len() {
        if blocks[i].number == number {
            let numbered = &mut blocks[i];
            numbered.block.start = Start::After(last);
            return;
        }
    }
}

/// Closes the block of that number.
pub fn close<W: Drop>(blocks: &mut Vec<Numbered<W>>, number: u32)
    ensures { blocks.new.items ≡ closed number blocks.old.items }
{
    blocks.retain(|b| b.number != number);
}

/// Closes the blocks of a transaction.
pub fn close_of<W: Drop>(blocks: &mut Vec<Numbered<W>>, holder: TxnName)
    ensures { blocks.new.items ≡ closed_of holder blocks.old.items }
{
    blocks.retain(|b| b.block.holder != holder);
}
