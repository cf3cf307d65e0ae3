//! Which cells of a table a transaction may have changed.

ghost use Rattle.std.specs.Prelude.{◌≡◌, min, max, length, map};
ghost use Rattle.one_thread.specs.Scaffold.Cells.{ended};
ghost use Rattle.one_thread.specs.Scaffold.Touched.{AreSame};

use crate::cells::{Cell, end_all};
use crate::places::Window;

/// The places from `first` to below `end`. At all others each record is as it was before the transaction.
#[derive(Clone, Copy, Debug)]
pub struct Touched {
    pub first: usize,
    pub end: usize,
}

/// No place.
pub fn nowhere() -> Touched
    ensures { result.end ≡ 0 }
{
    Touched {
        first: usize::MAX,
        end: 0,
    }
}

/// The places of so many cells.
pub fn everywhere(count: usize) -> Touched
    ensures { result ≡ record { first = 0; end = count } }
{
    Touched {
        first: 0,
        end: count,
    }
}

/// These places, and those of a window.
pub fn widened(touched: Touched, window: Window) -> Touched
    ensures { result ≡ record { first = min touched.first window.first; end = max touched.end window.end } }
{
    Touched {
        first: touched.first.min(window.first),
        end: touched.end.max(window.end),
    }
}

/// Ends the transaction at each cell, of which it may have changed these.
pub fn end_touched(cells: &mut Vec<Cell>, touched: Touched, commit: bool)
    requires { AreSame touched.first touched.end cells.old.items }
    ensures { cells.new.items ≡ map (ended commit) cells.old.items }
{
    end_within(cells.as_mut_slice(), touched, commit);
}

fn end_within(cells: &mut [Cell], touched: Touched, commit: bool)
    requires { AreSame touched.first touched.end cells.old }
    ensures { cells.new ≡ map (ended commit) cells.old }
{
    let end = touched.end.min(cells.len());
    let first = touched.first.min(end);
    let (_, from) = cells.split_at_mut(first);
    let (inside, _) = from.split_at_mut(end - first);
    end_all(inside, commit);
}
