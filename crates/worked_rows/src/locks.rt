//! A table of locks: whom it names on the way down and below a granule, and the same calls on a plain list.
use lock_tables::{LockFault, LockTable};
use sql_base::{Lock, Mode, NoMemory, Prefix, TxnName};
use std::alloc::Global;
use std::test::Fail;

/// A lock of the first transaction of a session.
#[derive(Clone, Copy, Debug, PartialEq, Eq)]
struct Wanted<'a> {
    session: u32,
    granule: &'a [u8],
    mode: Mode,
}

fn name_of(session: u32) -> TxnName {
    TxnName {
        session,
        ordinal: 1,
    }
}

fn lock_of(alloc: Global, wanted: Wanted<'_>) -> Result<Lock, NoMemory> {
    Ok(Lock {
        holder: name_of(wanted.session),
        prefix: Prefix::from_vec(wanted.granule.to_vec(alloc)?),
        mode: wanted.mode,
    })
}

fn is_as(lock: &Lock, wanted: Wanted<'_>) -> bool {
    lock.holder == name_of(wanted.session)
        && lock.prefix.bytes() == wanted.granule
        && lock.mode == wanted.mode
}

#[test]
fn the_first_on_the_way_down_and_then_below(rt: HostRuntime) -> Result<(), Fail> {
    let alloc = rt.alloc();
    let long = Wanted {
        session: 1,
        granule: b"AA",
        mode: Mode::S,
    };
    let short = Wanted {
        session: 2,
        granule: b"A",
        mode: Mode::S,
    };
    let mut locks = LockTable::new(alloc);
    assert_eq!(rt; locks.nodes(), 0);
    locks.reserve(2)?;
    for wanted in [long, short] {
        assert_eq!(rt; locks.grant(lock_of(alloc, wanted)?), Ok(()));
    }
    assert_eq!(rt; locks.nodes(), 3);
    let rows: [(u32, &[u8], Mode, Option<Wanted<'_>>); 4] = [
        (3, b"AA\x80", Mode::X, Some(short)),
        (3, b"", Mode::X, Some(short)),
        (3, b"AA\x80", Mode::S, None),
        (2, b"A", Mode::X, Some(long)),
    ];
    for (session, granule, mode, wanted) in rows {
        let found = locks.stands_against(name_of(session), granule, mode);
        let is_right = match (found, wanted) {
            (Some(lock), Some(wanted)) => is_as(lock, wanted),
            (found, wanted) => found.is_none() && wanted.is_none(),
        };
        assert!(rt; is_right, "{session} {granule:?}");
    }
    locks.release_all(name_of(1));
    assert_eq!(rt; locks.nodes(), 2);
    let [left] = locks.items() else {
        return Err("another number of locks".into());
    };
    assert!(rt; is_as(left, short));
    Ok(())
}

/// The locks of a plain table, in table order, looked through from the first.
#[derive(Drop)]
struct PlainTable<'a> {
    locks: Vec<Wanted<'a>>,
}

impl<'a> PlainTable<'a> {
    fn place_against(&self, wanted: Wanted<'a>) -> Option<usize> {
        self.locks.iter().position(|lock| conflict(lock, &wanted))
    }

    fn grant(&mut self, wanted: Wanted<'a>) -> Result<(), NoMemory> {
        if self.locks.iter().any(|own| covers(own, &wanted)) {
            return Ok(());
        }
        let at = self
            .locks
            .iter()
            .filter(|lock| stands_before(lock, &wanted))
            .count();
        if at <= self.locks.len() {
            self.locks.insert(at, wanted)?;
        }
        Ok(())
    }

    fn release(&mut self, session: u32) {
        self.locks.retain(|lock| lock.session != session);
    }
}

fn conflict(a: &Wanted<'_>, b: &Wanted<'_>) -> bool {
    a.session != b.session
        && (a.granule.starts_with(b.granule) || b.granule.starts_with(a.granule))
        && (a.mode == Mode::X || b.mode == Mode::X)
}

fn covers(own: &Wanted<'_>, wanted: &Wanted<'_>) -> bool {
    own.session == wanted.session
        && wanted.granule.starts_with(own.granule)
        && (own.mode == Mode::X || wanted.mode == Mode::S)
}

fn stands_before(a: &Wanted<'_>, b: &Wanted<'_>) -> bool {
    let by_mode = (a.mode == Mode::X).cmp(&(b.mode == Mode::X));
    let by_session = a.session.cmp(&b.session).then(by_mode);
    a.granule.cmp(b.granule).then(by_session).is_lt()
}

const GRANULES: [&[u8]; 14] = [
    b"",
    b"A",
    b"AA",
    b"AAA",
    b"AAB",
    b"AAC",
    b"AB",
    b"ABA",
    b"B",
    b"BA",
    b"BB",
    b"BBA",
    b"C",
    b"\x00\xFF",
];

/// One call of a table.
#[derive(Clone, Copy, Debug)]
enum Call<'a> {
    Ask(Wanted<'a>),
    Grant(Wanted<'a>),
    Release(u32),
}

/// The call that a number stands for: mostly grants, by five sessions, of which few have short granules or end.
fn call_of(number: u32) -> Call<'static> {
    let session = number / 8 % 5;
    let place = number / 64 % 25 % 14;
    let wanted = Wanted {
        session,
        granule: GRANULES[place as usize],
        mode: if number / 4096 % 4 == 0 {
            Mode::X
        } else {
            Mode::S
        },
    };
    match number / 32768 % 16 {
        0 | 1 | 2 | 3 | 4 => Call::Ask(wanted),
        5 => Call::Release(session),
        _ => Call::Grant(wanted),
    }
}

/// Makes the call at both, and says whether they answer alike.
fn make<'a>(
    alloc: Global,
    locks: &mut LockTable,
    plain: &mut PlainTable<'a>,
    call: Call<'a>,
) -> Result<bool, NoMemory> {
    match call {
        Call::Ask(wanted) => {
            let found = locks.stands_against(name_of(wanted.session), wanted.granule, wanted.mode);
            let bar = plain
                .place_against(wanted)
                .and_then(|at| plain.locks.get(at));
            Ok(match (found, bar) {
                (Some(lock), Some(bar)) => is_as(lock, *bar),
                (found, bar) => found.is_none() && bar.is_none(),
            })
        }
        Call::Grant(wanted) => {
            locks.reserve(1)?;
            let granted = locks.grant(lock_of(alloc, wanted)?);
            match plain.place_against(wanted) {
                Some(at) => Ok(granted == Err(LockFault::Conflict { at })),
                None => {
                    plain.grant(wanted)?;
                    Ok(granted == Ok(()))
                }
            }
        }
        Call::Release(session) => {
            locks.release_all(name_of(session));
            plain.release(session);
            Ok(true)
        }
    }
}

/// The two tables have the same locks.
fn are_alike(locks: &LockTable, plain: &PlainTable<'_>) -> bool {
    let mut left = locks.items().iter();
    for wanted in &plain.locks {
        match left.next() {
            Some(lock) => {
                if !is_as(lock, *wanted) {
                    return false;
                }
            }
            None => return false,
        }
    }
    left.next().is_none()
}

#[test]
fn a_table_does_what_a_plain_list_does(rt: HostRuntime) -> Result<(), Fail> {
    let alloc = rt.alloc();
    let mut locks = LockTable::new(alloc);
    let mut plain = PlainTable {
        locks: Vec::new(alloc),
    };
    let mut number: u32 = 1;
    let mut most = 0;
    for round in 0..3000u32 {
        number = number.wrapping_mul(1664525).wrapping_add(1013904223);
        let call = call_of(number);
        let alike = make(alloc, &mut locks, &mut plain, call)?;
        assert!(rt; alike && are_alike(&locks, &plain), "{round} {call:?}");
        most = most.max(plain.locks.len());
    }
    // Many stood at once.
    assert!(rt; most > 12, "{most}");
    Ok(())
}
