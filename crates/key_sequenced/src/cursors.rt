//! A walk over the cells of a file.
ghost use Rattle.std.specs.Prelude.{◌≡◌, ◌++◌};
ghost use Rattle.key_sequenced.specs.Blocks.{joined};

use crate::Cell;
use crate::blocks::Block;
use std::marker::Model;

/// The cells of a file from some place on, in key order.
#[derive(Debug, Drop)]
pub struct Cells<'a> {
    cells: &'a [Cell],
    blocks: &'a [Block],
}

impl<'a> Model for Cells<'a> {
    ghost use Rattle.std.specs.Prelude.{List, ◌++◌};
    ghost use Rattle.key_sequenced.specs.declared.Cell.{Cell};
    ghost use Rattle.key_sequenced.specs.contracts.Cell as cell;
    ghost use Rattle.key_sequenced.specs.Blocks.{joined};
    ghost use Rattle.std.specs.Coded.{codes};

    ghost Value = { List Cell };

    ghost coded = { Prim.hlevel (codes, cell.the_row.coded) };

    ghost view = { λ s. s.cells.now ++ joined s.blocks.now };
}

impl<'a> Cells<'a> {
    /// The cells of a slice, and behind them those of the blocks.
    pub(crate) fn new(cells: &'a [Cell], blocks: &'a [Block]) -> Cells<'a>
        ensures { result ≡ cells.now ++ joined blocks.now }
    {
        Cells { cells, blocks }
    }
}

impl<'a> Iterator for Cells<'a> {
    ghost use Rattle.std.specs.Iterator.{YieldsFirstRef, item_count};

    type Item = &'a Cell;

    ghost next_gives = { YieldsFirstRef (λ s. s) };

    ghost remaining = { item_count (λ s. s) };

    fn next(&mut self) -> Option<&'a Cell> {
        while self.cells.is_empty() {
            let (block, others) = self.blocks.split_first()?;
            self.cells = block.cells();
            self.blocks = others;
        }
        let (first, others) = self.cells.split_first()?;
        self.cells = others;
        Some(first)
    }
}
