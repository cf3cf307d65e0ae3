//! What a partition keeps: locks in table order, rows in a buffer, and the syncs of openers.
use lock_tables::{LockFault, LockTable};
use sql_base::{Lock, Mode, NoMemory, Packed, Prefix, TxnName};
use std::alloc::Global;
use std::test::Fail;
use sync_messages::{Arrival, Openers, UnknownOpener};
use virtual_buffers::{Buffer, DoesNotFit};

fn lock_of(alloc: Global, session: u32, prefix: &[u8], mode: Mode) -> Result<Lock, NoMemory> {
    Ok(Lock {
        holder: TxnName {
            session,
            ordinal: 1,
        },
        prefix: Prefix::from_vec(prefix.to_vec(alloc)?),
        mode,
    })
}

/// The session that asks, the prefix, the mode, the place of the lock against it, and how many locks stand then.
type Grant<'a> = (u32, &'a [u8], Mode, Option<usize>, usize);

#[test]
fn locks_are_granted_where_none_conflicts(rt: HostRuntime) -> Result<(), Fail> {
    let alloc = rt.alloc();
    let rows: [Grant<'_>; 9] = [
        (2, b"AB", Mode::S, None, 1),
        (1, b"A", Mode::S, None, 2),
        // A longer prefix, a shorter one and one beside them.
        (3, b"ABC", Mode::X, Some(0), 2),
        (1, b"", Mode::X, Some(1), 2),
        (3, b"AC", Mode::S, None, 3),
        (3, b"B", Mode::X, None, 4),
        // An own lock stands for what it covers.
        (3, b"BB", Mode::S, None, 4),
        (1, b"AC", Mode::S, None, 4),
        // The first of two in table order.
        (4, b"AC", Mode::X, Some(0), 4),
    ];
    let mut locks = LockTable::new(alloc);
    locks.reserve(8)?;
    for (session, prefix, mode, against, count) in rows {
        let wanted = match against {
            Some(at) => Err(LockFault::Conflict { at }),
            None => Ok(()),
        };
        let granted = locks.grant(lock_of(alloc, session, prefix, mode)?);
        assert_eq!(rt; granted, wanted, "{session} {prefix:?}");
        assert_eq!(rt; locks.locks(alloc)?.items().len(), count);
    }
    Ok(())
}

#[test]
fn a_buffer_takes_what_fits(rt: HostRuntime) -> Result<(), Fail> {
    let alloc = rt.alloc();
    let wide = Packed::from_vec(vec![in alloc; b'A'; 256]?);
    let mut buffer = Buffer::new(alloc, 320)?;
    let rows = [
        Ok(()),
        Err(DoesNotFit {
            need: 258,
            left: 62,
        }),
    ];
    for wanted in rows {
        assert_eq!(rt; buffer.push_row(&wide), wanted);
    }
    let small = Packed::from_vec(vec![in alloc; b'B'; 60]?);
    assert_eq!(rt; buffer.push_row(&small), Ok(()));
    let kept = buffer.rows(alloc)?;
    let [first, second] = kept.items() else {
        return Err("another number of rows".into());
    };
    assert_eq!(rt;
        (first.bytes(), second.bytes()),
        (wide.bytes(), small.bytes())
    );
    Ok(())
}

#[test]
fn syncs_are_new_once(rt: HostRuntime) -> Result<(), Fail> {
    let mut openers: Openers<u8> = Openers::new(rt.alloc(), 2)?;
    if openers.arrive(1, 5) == Ok(Arrival::New) {
        openers.keep(1, 5, b'a');
    }
    if openers.arrive(2, 7) == Ok(Arrival::New) {
        openers.starve(2, 7);
    }
    let rows = [
        (0, 1, Err(UnknownOpener)),
        (3, 1, Err(UnknownOpener)),
        (1, 4, Ok(Arrival::Old)),
        (1, 5, Ok(Arrival::Repeat)),
        (1, 6, Ok(Arrival::New)),
        (2, 6, Ok(Arrival::Old)),
        (2, 7, Ok(Arrival::Starved)),
        (2, 8, Ok(Arrival::New)),
    ];
    for (opener, sync, wanted) in rows {
        assert_eq!(rt; openers.arrive(opener, sync), wanted, "{opener} {sync}");
    }
    Ok(())
}
