//! Where the keys of a range stand among the cells of a table.

ghost use Rattle.std.specs.Prelude.{◌≡◌, ◌≤◌, length, map, true, false};
ghost use Rattle.std.specs.List.Sorted.{IsPartitionPoint};
ghost use Rattle.sql_base.specs.Keys.{key_le, key_lt, Rise};
ghost use Rattle.one_thread.specs.Scaffold.Windows.{IsWindow};

use crate::cells::Cell;
use sql_base::KeyRange;

/// The places from `first` to below `end`.
#[derive(Clone, Copy, Debug)]
pub struct Window {
    pub first: usize,
    pub end: usize,
}

/// How many cells stand below the key.
pub fn count_below(cells: &[Cell], key: &[u8]) -> usize
    requires { Rise (map (λ cell. cell.key) cells.now) }
    ensures within { result ≤ length cells.now }
    ensures below { IsPartitionPoint (λ cell. key_lt cell.key key.now ≡ true) (λ cell. key_lt cell.key key.now ≡ false) cells.now result }
{
    cells.partition_point(|cell| cell.key.bytes().cmp(key).is_lt())
}

/// How many cells stand at the key or below it.
fn count_up_to(cells: &[Cell], key: &[u8]) -> usize
    requires { Rise (map (λ cell. cell.key) cells.now) }
    ensures within { result ≤ length cells.now }
    ensures up_to { IsPartitionPoint (λ cell. key_le cell.key key.now ≡ true) (λ cell. key_le cell.key key.now ≡ false) cells.now result }
{
    cells.partition_point(|cell| cell.key.bytes().cmp(key).is_le())
}

/// The places of the cells whose keys lie in the range.
pub fn window_of(cells: &[Cell], range: &Option<KeyRange>) -> Window
    requires { Rise (map (λ cell. cell.key) cells.now) }
    ensures { IsWindow range.now cells.now result.first result.end }
{
    let Some(range) = range else {
        return Window { first: 0, end: 0 };
    };
    let first = count_below(cells, range.low.bytes());
    let up_to = count_up_to(cells, range.high.bytes());
    let end = if up_to < first { first } else { up_to };
    Window { first, end }
}
