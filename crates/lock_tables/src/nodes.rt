//! How many nodes the tree over a table in order has.
ghost use Rattle.std.specs.Prelude.{◌≡◌, length, option_copied};
ghost use Rattle.sql_base.specs.Locks.{InTableOrder};
ghost use Rattle.lock_tables.specs.Nodes.{fresh, nodes};

use sql_base::{Lock, common_length};

/// How many different byte lists the granules of some locks in table order begin with.
pub fn count_nodes(locks: &[Lock]) -> u128
    requires { InTableOrder locks.now }
    ensures { result ≡ length (nodes locks.now) }
{
    let mut count: u128 = 0;
    for at in 0..locks.len() {
        count += count_fresh(locks[at].prefix.bytes(), locks.get(at + 1)) as u128;
    }
    count
}

/// How many of the byte lists that a granule begins with no lock behind it has, the first of which is next.
fn count_fresh(bytes: &[u8], next: Option<&Lock>) -> usize
    ensures { result ≡ fresh bytes.now (option_copied next.entry) }
{
    match next {
        None => bytes.len() + 1,
        Some(next) => bytes.len() - common_length(bytes, next.prefix.bytes()),
    }
}
