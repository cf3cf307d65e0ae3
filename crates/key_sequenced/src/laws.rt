//! What holds of the lists of cells that a file's calls leave.
ghost use Rattle.std.specs.Prelude.{◌≡◌, List, ◌++◌, ◌∷◌, [], ℕ, Option, true, map, if◌then◌else◌};
ghost use Rattle.std.specs.List.{AllByRecursion};
ghost use Rattle.sql_base.specs.Keys.{key_eq, key_lt};
ghost use Rattle.sql_base.specs.declared.lock_names.TxnName.{TxnName};
ghost use Rattle.sql_base.specs.declared.values.Value.{Value};
ghost use Rattle.key_sequenced.specs.Cells.{AreCells, rewritten};
ghost use Rattle.key_sequenced.specs.Files.{with_cell, rewritten_at};
ghost use Rattle.key_sequenced.specs.declared.Cell.{Cell};

/// A cell above all others is with_cell at the end, so that records loaded in order stand in that order.
/// Where keys rise, the cell of a key is the only one that a change rewrites.
pub fn file_laws()
    ensures in_order { (cell : Cell) (cells : List Cell) → AllByRecursion (λ c. key_lt c.key cell.key ≡ true) cells → with_cell cell cells ≡ cells ++ cell ∷ [] }
    ensures by_key { (t : TxnName) (key : List ℕ) (now : Option (List Value)) (cells : List Cell) → AreCells cells → rewritten_at t key now cells ≡ map (λ c. if key_eq c.key key then rewritten t now c else c) cells }
{}
