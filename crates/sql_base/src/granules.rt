//! Granules of locks.

ghost use Rattle.std.specs.Prelude.{◌≡◌, ◌≤◌, length, nat_eq, IfOk};
ghost use Rattle.std.specs.List.{common_prefix_len};
ghost use Rattle.sql_base.specs.Keys.{common_prefix};
ghost use Rattle.sql_base.specs.Locks.{overlaps};

use crate::bytes::Prefix;
use crate::faults::NoMemory;
use crate::key_ranges::KeyRange;
use std::alloc::Global;

/// Whether one granule is a prefix of the other.
pub fn overlaps(a: &Prefix, b: &Prefix) -> bool
    ensures { result ≡ overlaps a.now b.now }
{
    a.bytes().starts_with(b.bytes()) || b.bytes().starts_with(a.bytes())
}

/// The longest common prefix of the bounds of a range: the least granule that holds all its keys.
pub fn common_prefix(alloc: Global, range: &KeyRange) -> Result<Prefix, NoMemory>
    ensures { IfOk result (λ prefix. prefix ≡ common_prefix range.now.low range.now.high) }
{
    let low = range.low.bytes();
    let common = common_length(low, range.high.bytes());
    Ok(Prefix::from_vec(low[..common].to_vec(alloc)?))
}

/// How many bytes two strings have in common from the first on.
pub fn common_length(a: &[u8], b: &[u8]) -> usize
    ensures common { result ≡ common_prefix_len nat_eq a.now b.now }
    ensures within { result ≤ length a.now }
{
    let shorter = a.len().min(b.len());
    for at in 0..shorter {
        if a[at] != b[at] {
            return at;
        }
    }
    shorter
}
