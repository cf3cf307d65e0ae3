//! Whether the first keys of a table rise.

ghost use Rattle.std.specs.Prelude.{◌≡◌, ◌≤◌, ◌<◌, ◌↔◌, ◌∷◌, ℕ, length, All, IfOk, OnOk, Err, Some, true};
ghost use Rattle.sql_base.specs.Keys.{Rise, key_lt};
ghost use Rattle.sql_base.specs.Rows.{key_kinds, key_width};
ghost use Rattle.sql_base.specs.Tables.{are_leading, first_keys};
ghost use Rattle.partition_map.specs.Map.{least_key};
ghost use Rattle.partition_cuts.specs.Checks.{not_rising};

use crate::firsts::{first_key, key_width};
use crate::pieces::filled;
use sql_base::{Key, NoMemory, TableDef};
use std::alloc::Global;

/// Why a table's partitions can't be as declared.
#[derive(Clone, Copy, Debug, PartialEq, Eq)]
pub enum MapFault {
    TooManyParts,
    /// The first key at this place, counted from 0, isn't above the one before it, or above the least key.
    FirstKeysNotRising { place: u32 },
    NoMemory,
}

impl From<NoMemory> for MapFault {
    ghost use Rattle.partition_cuts.specs.declared.checks.MapFault.TheVariants.{NoMemory};

    ghost from_gives = { λ _ fault. fault ≡ NoMemory };

    fn from(_error: NoMemory) -> MapFault {
        MapFault::NoMemory
    }
}

/// Whether the table has at most 16 partitions, whose first keys rise.
pub fn check_map(alloc: Global, table: &TableDef) -> Result<(), MapFault>
    requires key { All (λ c. c < length table.now.columns) table.now.key }
    requires key_bytes { key_width table.now ≤ 32 }
    requires leading { All (λ first. are_leading (key_kinds table.now) first ≡ true) table.now.firsts }
    ensures few { OnOk result (length table.now.firsts ≤ 15) }
    ensures rise { OnOk result (Rise (least_key table.now ∷ first_keys table.now)) }
    ensures too_many { (result ≡ Err MapFault.TooManyParts) ↔ (16 ≤ length table.now.firsts) }
    ensures falls { (place : ℕ) → result ≡ Err (MapFault.FirstKeysNotRising place) → not_rising table.now ≡ Some place }
{
    let count = table.firsts.items().len();
    if count > 15 {
        return Err(MapFault::TooManyParts);
    }
    let mut before = filled(alloc, key_width(table), 0x00)?;
    for place in 0..count {
        let key = first_key(alloc, table, &table.firsts.items()[place])?;
        if !is_below(&before, &key) {
            return Err(MapFault::FirstKeysNotRising {
                place: place as u32,
            });
        }
        before = key;
    }
    Ok(())
}

fn is_below(key: &Key, other: &Key) -> bool
    ensures { result ≡ key_lt key.now other.now }
{
    key.bytes().cmp(other.bytes()).is_lt()
}
