//! The stamps that a journal draws, and its refusals.

use commit_journal::{CommitFault, Journal};
use sql_base::TxnName;
use std::test::Fail;

#[test]
fn stamps_are_drawn_above_the_last_one_and_the_floor(rt: HostRuntime) -> Result<(), Fail> {
    let mut journal = Journal::new(rt.alloc());
    // the ordinal in session 1, the floor, and the stamp
    let rows = [
        (1, 7, Ok(8)),
        (1, 0, Err(CommitFault::AlreadyCommitted { stamp: 8 })),
        (2, 3, Ok(9)),
    ];
    for (ordinal, floor, wanted) in rows {
        let name = TxnName {
            session: 1,
            ordinal,
        };
        assert_eq!(rt; journal.commit(name, floor), wanted);
    }
    Ok(())
}

#[test]
fn stamps_end_with_the_greatest_number(rt: HostRuntime) -> Result<(), Fail> {
    let mut journal = Journal::new(rt.alloc());
    let name = TxnName {
        session: 1,
        ordinal: 1,
    };
    let drawn = journal.commit(name, 18_446_744_073_709_551_615);
    assert_eq!(rt; drawn, Err(CommitFault::StampsSpent));
    Ok(())
}
