//! Which cells a quantum looks at.
ghost use Rattle.std.specs.Prelude.{◌≡◌, false, true};
ghost use Rattle.sql_base.specs.Keys.{is_from, key_lt};
ghost use Rattle.quantum_core.specs.Verdicts.{hides, is_candidate, is_hidden};

use crate::works::Work;
use key_sequenced::Cell;
use sql_base::{Access, TxnName};
use subset_blocks::Block;

/// Whether a quantum of the block looks at the cell, which stands from its start on and up to its high key.
pub fn sees(block: &Block<Work>, cell: &Cell) -> bool
    requires from { is_from block.now.start cell.now.key ≡ true }
    requires up_to { key_lt block.now.high cell.now.key ≡ false }
    ensures { result ≡ is_candidate block.now cell.entry.now }
{
    !is_gone(block, cell)
}

/// Whether the cell lies behind the last one that a quantum of the block may look at.
pub fn is_past(block: &Block<Work>, cell: &Cell) -> bool
    ensures { result ≡ key_lt block.now.high cell.entry.now.key }
{
    block.high.bytes().cmp(cell.key.bytes()).is_lt()
}

fn is_gone(block: &Block<Work>, cell: &Cell) -> bool
    ensures { result ≡ is_hidden block.now cell.entry.now cell.entry.now.now }
{
    match &cell.now {
        Some(_) => false,
        None => hides_from(block.access, block.holder, cell.writer),
    }
}

fn hides_from(access: Access, holder: TxnName, writer: Option<TxnName>) -> bool
    ensures { result ≡ hides access holder writer }
{
    match (access, writer) {
        (Access::Browse, _) => true,
        (_, Some(other)) => other == holder,
        (_, None) => false,
    }
}
