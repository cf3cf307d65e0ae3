//! Where a key stands among cells.
ghost use Rattle.std.specs.Prelude.{◌≡◌, ◌≤◌, length, option_copied, slice_get};
ghost use Rattle.std.specs.List.{prefix_len};
ghost use Rattle.sql_base.specs.Keys.{key_lt, key_le};
ghost use Rattle.key_sequenced.specs.Cells.{AreCells, find_cell};
ghost use Rattle.key_sequenced.specs.Files.{is_key_of};

use crate::Cell;

/// How many cells stand below the key.
pub fn count_below(cells: &[Cell], key: &[u8]) -> usize
    requires { AreCells cells.now }
    ensures below { result ≡ prefix_len (λ c. key_lt c.key key.now) cells.now }
    ensures within { result ≤ length cells.now }
{
    cells.partition_point(|cell| cell.key.bytes().cmp(key).is_lt())
}

/// How many cells stand at the key or below it.
pub fn count_up_to(cells: &[Cell], key: &[u8]) -> usize
    requires { AreCells cells.now }
    ensures up_to { result ≡ prefix_len (λ c. key_le c.key key.now) cells.now }
    ensures within { result ≤ length cells.now }
{
    cells.partition_point(|cell| cell.key.bytes().cmp(key).is_le())
}

/// The cell of the key.
pub fn find_at<'a>(cells: &'a [Cell], key: &[u8]) -> Option<&'a Cell>
    requires { AreCells cells.now }
    ensures { option_copied result ≡ find_cell key.now cells.now }
{
    let at = count_below(cells, key);
    if is_at(cells, at, key) {
        cell_at(cells, at)
    } else {
        None
    }
}

fn cell_at(cells: &[Cell], at: usize) -> Option<&Cell>
    ensures { option_copied result ≡ slice_get cells.now at }
{
    cells.get(at)
}

/// The key stands at that place.
pub fn is_at(cells: &[Cell], at: usize, key: &[u8]) -> bool
    ensures { result ≡ is_key_of key.now (slice_get cells.now at) }
{
    match cells.get(at) {
        Some(cell) => cell.key.bytes().cmp(key).is_eq(),
        None => false,
    }
}
