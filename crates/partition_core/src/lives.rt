//! The live transactions.
ghost use Rattle.std.specs.Prelude.{◌≡◌, ◌<◌, ◌&&◌, ◌==◌, is_none, not, find, filter, map, option_and_then, vec_len, vec_capacity};
ghost use Rattle.std.specs.List.{list_any};
ghost use Rattle.sql_base.specs.Locks.{same_txn};
ghost use Rattle.partition_state.specs.State.{enlisted};
ghost use Rattle.partition_state.specs.Step.{prepared};

use partition_state::Live;
use sql_base::TxnName;

pub fn is_live(lives: &[Live], t: TxnName) -> bool
    ensures { result ≡ list_any (λ l. same_txn l.name t) lives.now }
{
    lives.iter().any(|live| live.name == t)
}

/// The floor with which the transaction has prepared.
pub fn floor_of(lives: &[Live], t: TxnName) -> Option<u64>
    ensures { result ≡ option_and_then (λ l. l.floor) (find (λ l. same_txn l.name t) lives.now) }
{
    for live in lives {
        if live.name == t {
            return live.floor;
        }
    }
    None
}

/// Whether the transaction is live and hasn't prepared.
pub fn is_unprepared(lives: &[Live], t: TxnName) -> bool
    ensures { result ≡ (list_any (λ l. same_txn l.name t) lives.now && is_none (option_and_then (λ l. l.floor) (find (λ l. same_txn l.name t) lives.now))) }
{
    is_live(lives, t) && floor_of(lives, t).is_none()
}

/// Another attempt of the opener that is live.
pub fn other_live(lives: &[Live], t: TxnName) -> Option<Live>
    ensures { result ≡ find (λ l. (l.name.session == t.session) && not (l.name.ordinal == t.ordinal)) lives.now }
{
    for live in lives {
        if live.name.session == t.session && live.name.ordinal != t.ordinal {
            return Some(*live);
        }
    }
    None
}

/// Lets the transaction be live, for which there is room.
pub fn enlist(lives: &mut Vec<Live>, t: TxnName)
    requires { vec_len lives.old < vec_capacity lives.old }
    ensures { lives.new.items ≡ enlisted t lives.old.items }
{
    if !is_live(lives, t) {
        let pushed = lives.push(Live {
            name: t,
            floor: None,
        });
        prove!(pushed.is_ok());
    }
}

/// Keeps the floor with which the transaction prepares.
pub fn set_floor(lives: &mut Vec<Live>, t: TxnName, floor: u64)
    ensures { lives.new.items ≡ map (prepared t floor) lives.old.items }
{
    for live in lives.iter_mut() {
        *live = prepared(*live, t, floor);
    }
}

fn prepared(live: Live, t: TxnName, floor: u64) -> Live
    ensures { result ≡ prepared t floor live }
{
    if live.name == t {
        Live {
            name: live.name,
            floor: Some(floor),
        }
    } else {
        live
    }
}

/// The transaction isn't live any more.
pub fn dismiss(lives: &mut Vec<Live>, t: TxnName)
    ensures { lives.new.items ≡ filter (λ l. not (same_txn l.name t)) lives.old.items }
{
    lives.retain(|live| live.name != t);
}
