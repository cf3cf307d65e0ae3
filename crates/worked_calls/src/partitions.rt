//! What a partition replies to requests that it serves one after the other, and what is left of it.
use crate::asking::{Deed, read_keys};
use crate::partition_cases::{CASES, Case, LOAD, READ, TABLE};
use crate::replying::Wanted;
use crate::serving::{expect_replies, found, has_kept, partition_of, replies, served};
use dp_messages::{Ask, Request};
use partition_core::{Partition, Pick, Served};
use sql_base::{Cause, Row, Value};
use std::alloc::Global;
use std::process::Abort;
use std::test::Fail;

/// Whether the rows are just those of these numbers.
fn are_rows(rows: &[Row], wanted: &[(i64, i64)]) -> bool {
    let mut same = rows.len() == wanted.len();
    for (row, (k, v)) in rows.iter().zip(wanted) {
        same = same && matches!(row.values(), [Value::Int(a), Value::Int(b)] if a == k && b == v);
    }
    same
}

/// Whether the rows of a partition are just those of these numbers.
fn has_rows(alloc: Global, partition: &Partition, wanted: &[(i64, i64)]) -> Result<bool, Fail> {
    let rows = partition.rows(alloc)?;
    Ok(are_rows(rows.items(), wanted))
}

/// How many locks a partition has, how many subsets under way, and how many entries.
fn counts(alloc: Global, partition: &Partition) -> Result<[usize; 3], Fail> {
    let locks = partition.locks(alloc)?;
    Ok([
        locks.items().len(),
        partition.blocks(),
        partition.history().len(),
    ])
}

/// Serves the requests of a case, and compares the replies and what is left of the partition.
fn expect_case(rt: &impl Abort, alloc: Global, case: &Case) -> Result<(), Fail> {
    let mut partition = partition_of(alloc, case.script)?;
    expect_replies(rt, alloc, &mut partition, case.steps)?;
    let same_rows = has_rows(alloc, &partition, case.rows)?;
    assert!(rt; same_rows);
    let counts = counts(alloc, &partition)?;
    assert_eq!(rt; counts, [case.locks, case.subsets, case.steps.len()]);
    assert_eq!(rt; partition.high(), case.high);
    Ok(())
}

#[test]
fn requests_are_replied_to(rt: HostRuntime) -> Result<(), Fail> {
    for case in &CASES {
        expect_case(&rt, rt.alloc(), case)?;
    }
    Ok(())
}

// A row of 256 bytes: the key, a letter and 247 blanks.
fn wide(alloc: Global, key: u8, letter: u8) -> Result<Vec<u8>, Fail> {
    let mut row = [0, 0, 0, 0, 0, 0, 0, key, letter].to_vec(alloc)?;
    for _ in 0..247 {
        row.push(b' ')?;
    }
    Ok(row)
}

#[test]
fn a_full_buffer_ends_a_quantum(rt: HostRuntime) -> Result<(), Fail> {
    let alloc = rt.alloc();
    let script = [
        "QUANTUM 50; BUFFER 320;",
        "TABLE t (k INT, c CHAR(248), PRIMARY KEY (k)); LOAD t (1,'A'),(2,'B');",
    ];
    let one = wide(alloc, 1, b'A')?;
    let two = wide(alloc, 2, b'B')?;
    let first = [one.as_slice()];
    let second = [two.as_slice()];
    let steps = [
        (1, 1, READ, Wanted::Redrive(1, Cause::Buffer, &first, 0)),
        (1, 1, Deed::GoOn(1, 1), Wanted::Ended(&second, 0)),
    ];
    let mut partition = partition_of(alloc, &script)?;
    expect_replies(&rt, alloc, &mut partition, &steps)
}

#[test]
fn the_65th_subset_is_too_many(rt: HostRuntime) -> Result<(), Fail> {
    let alloc = rt.alloc();
    let script = ["QUANTUM 1; TABLE t (k INT, PRIMARY KEY (k)); LOAD t (1),(2);"];
    let mut partition = partition_of(alloc, &script)?;
    let request = Request {
        ordinal: 1,
        ask: read_keys(alloc)?,
    };
    for number in 1..65u32 {
        let wanted = Wanted::Stops(number);
        assert!(rt;
            replies(
                alloc,
                &mut partition,
                1,
                u64::from(number),
                &request,
                wanted
            )
        );
    }
    assert!(rt;
        replies(
            alloc,
            &mut partition,
            1,
            65,
            &request,
            Wanted::TooManySubsets
        )
    );
    assert_eq!(rt; partition.blocks(), 64);
    Ok(())
}

/// A letter for what the first opener finds that asks for the reply to a sync: a reply, none yet, a later one, or none ever.
fn picked(partition: &Partition, sync: u64) -> u8 {
    match found(partition, 1, sync) {
        Some(Pick::Reply(_reply)) => b'r',
        Some(Pick::Pending) => b'p',
        Some(Pick::Passed) => b'l',
        Some(Pick::Starved) => b's',
        None => b'-',
    }
}

/// Says that memory was short for the fourth sync of the first opener, if it may still be served.
fn starve_fourth(partition: &mut Partition) {
    if let Pick::Pending = partition.pickup(1, 4) {
        partition.starve(1, 4);
    }
}

#[test]
fn syncs_are_served_once(rt: HostRuntime) -> Result<(), Fail> {
    let alloc = rt.alloc();
    let mut partition = partition_of(alloc, &[TABLE, LOAD])?;
    let request = Request {
        ordinal: 1,
        ask: Ask::Prepare,
    };
    assert_eq!(rt;
        served(alloc, &mut partition, 1, 2, &request),
        Some(Served::New)
    );
    assert_eq!(rt;
        served(alloc, &mut partition, 1, 2, &request),
        Some(Served::Repeat)
    );
    starve_fourth(&mut partition);
    assert_eq!(rt;
        [
            picked(&partition, 3),
            picked(&partition, 4),
            picked(&partition, 5)
        ],
        *b"ssp"
    );
    let rows = [(4, Served::Starved), (3, Served::Old), (5, Served::New)];
    for (sync, wanted) in rows {
        assert_eq!(rt;
            served(alloc, &mut partition, 1, sync, &request),
            Some(wanted)
        );
    }
    assert_eq!(rt;
        [
            picked(&partition, 4),
            picked(&partition, 5),
            picked(&partition, 6)
        ],
        *b"lrp"
    );
    assert!(rt; has_kept(&partition, 1, 5, Wanted::NotKnown));
    assert_eq!(rt; partition.into_history().items().len(), 2);
    Ok(())
}
