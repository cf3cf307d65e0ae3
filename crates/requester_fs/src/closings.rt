//! The partitions that an attempt has sent something to.
ghost use Rattle.std.specs.Prelude.{◌≡◌, IfOk, filter};
ghost use Rattle.std.specs.List.{range_with_len};
ghost use Rattle.session_laws.specs.Scaffold.Machine.{has_seen, see};

use sql_base::{List, NoMemory};
use std::alloc::Global;

fn has_seen(seen: &[u32], part: u32) -> bool
    ensures { result ≡ has_seen seen.now part }
{
    seen.contains(&part)
}

/// Those partitions with one more, the newest first.
pub(crate) fn see(alloc: Global, part: u32, seen: &[u32]) -> Result<List<u32>, NoMemory>
    ensures { IfOk result (λ parts. parts ≡ see part seen.now) }
{
    let mut parts = Vec::new(alloc);
    if !has_seen(seen, part) {
        parts.push(part)?;
    }
    parts.extend_from_slice(seen)?;
    Ok(List::from_vec(parts))
}

/// Those below `parts`, in rising number.
pub(crate) fn in_order(alloc: Global, parts: u32, seen: &[u32]) -> Result<List<u32>, NoMemory>
    ensures { IfOk result (λ list. list ≡ filter (has_seen seen.now) (range_with_len 0 parts)) }
{
    let mut list = List::new(alloc);
    for part in 0..parts {
        if has_seen(seen, part) {
            list.push(part)?;
        }
    }
    Ok(list)
}
