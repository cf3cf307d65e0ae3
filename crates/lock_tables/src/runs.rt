//! The tree over a table in order: its nodes are runs of locks whose granules begin with the same bytes.
ghost use Rattle.std.specs.Prelude.{◌≡◌, ◌≤◌, ◌+◌, ◌++◌, List, drop, filter, length, nat_lt, not, take};
ghost use Rattle.std.specs.List.Sorted.{IsNonDecreasingBy};
ghost use Rattle.sql_base.specs.declared.lock_names.Lock.{Lock};
ghost use Rattle.lock_tables.specs.Runs.{branch, ends_at, goes_on_by};

use sql_base::Lock;

/// The locks of a run, all alike in so many bytes, whose granules have no more of them.
pub fn own(run: &[Lock], depth: usize) -> &[Lock]
    requires { IsNonDecreasingBy (branch depth) run.now }
    ensures own { result.now ≡ filter (ends_at depth) run.now }
    ensures front { (rest : List Lock) × (run.now ≡ result.now ++ rest) }
{
    let (own, _) = run.split_at(count_before(run, depth, 1));
    own
}

/// The locks of a run, all alike in so many bytes, whose granules go on with this byte.
pub fn below(run: &[Lock], depth: usize, byte: u8) -> &[Lock]
    requires { IsNonDecreasingBy (branch depth) run.now }
    ensures { result.now ≡ filter (goes_on_by depth byte) run.now }
{
    let branch = u16::from(byte) + 1;
    let (_, from) = run.split_at(count_before(run, depth, branch));
    let (next, _) = from.split_at(count_before(from, depth, branch + 1));
    next
}

/// How many locks of a run go on by branches below the bound.
fn count_before(run: &[Lock], depth: usize, bound: u16) -> usize
    requires { IsNonDecreasingBy (branch depth) run.now }
    ensures within { result ≤ length run.now }
    ensures front { take result run.now ≡ filter (λ l. nat_lt (branch depth l) bound) run.now }
    ensures back { drop result run.now ≡ filter (λ l. not (nat_lt (branch depth l) bound)) run.now }
{
    run.partition_point(|lock| branch(lock, depth) < bound)
}

/// The branch on which a lock goes on behind so many bytes: 0 where its granule ends there, else one more than its next
/// byte.
fn branch(lock: &Lock, depth: usize) -> u16
    ensures { result ≡ branch depth lock.now }
{
    match lock.prefix.bytes().get(depth) {
        None => 0,
        Some(byte) => u16::from(*byte) + 1,
    }
}
