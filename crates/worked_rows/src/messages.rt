//! Bytes that spell requests, and bytes that spell none.

use dp_messages::{Ask, BytesFault, accept, address, decode_request, encode_request};
use sql_base::NoMemory;
use std::alloc::Global;
use std::test::Fail;

/// A whole request, and its opener and sync.
#[derive(Drop)]
struct Spelled {
    bytes: &'static [u8],
    opener: u32,
    sync: u64,
}

#[test]
fn requests_are_read_and_spelled_again(rt: HostRuntime) -> Result<(), Fail> {
    let alloc = rt.alloc();
    let rows = [
        // A Continue of subset 1 behind the key `k`.
        Spelled {
            bytes: &[
                0, 0, 0, 2, 0, 0, 0, 0, 0, 0, 1, 2, 0, 0, 0, 3, 4, 0, 0, 0, 1, 1, b'k',
            ],
            opener: 2,
            sync: 258,
        },
        // A BeginRead under REPEATABLE access with a filter and two columns.
        Spelled {
            bytes: &[
                0, 0, 0, 8, 0, 0, 0, 0, 0, 0, 0, 1, 0, 0, 0, 1, 1, 3, 0, 1, 16, 1, 32, 1, 0, 3, 2,
                1, b'A', 2, 1, 0,
            ],
            opener: 8,
            sync: 1,
        },
        // An EndCommit with stamp 65,536.
        Spelled {
            bytes: &[
                0, 0, 0, 1, 255, 255, 255, 255, 255, 255, 255, 255, 0, 0, 0, 1, 9, 0, 0, 0, 0, 0,
                1, 0, 0,
            ],
            opener: 1,
            sync: u64::MAX,
        },
    ];
    for row in &rows {
        let message = accept(alloc, row.bytes.to_vec(alloc)?)?;
        assert_eq!(rt; address(&message), (row.opener, row.sync));
        let again = encode_request(alloc, &decode_request(alloc, &message)?)?;
        assert_eq!(rt; again.bytes(), row.bytes);
    }
    Ok(())
}

/// What stands behind opener 1, sync 1 and ordinal 1, and the name of what it asks.
const ASKS: [(&[u8], &[u8]); 12] = [
    (
        &[1, 3, 0, 1, 16, 1, 32, 1, 0, 3, 2, 1, b'A', 2, 1, 0],
        b"BeginRead",
    ),
    (
        &[2, 2, 1, 9, 1, 9, 1, 9, 0, 0, 6, 1, 1, 0, 2, 3, 0],
        b"BeginUpdate",
    ),
    (&[3, 3, 0, 1, 1, 1, 2, 0], b"BeginDelete"),
    (&[4, 0, 0, 0, 1, 1, b'k'], b"Continue"),
    (&[5, 1, 1, 5, 0, 1, 0], b"ReadKey"),
    (&[6, 0, 2, 7, 8], b"Insert"),
    (&[6, 0, 0], b"Insert"),
    (&[7, 0, 1], b"LockGranule"),
    (&[7, 2, 1, 2, 2], b"LockGranule"),
    (&[8], b"Prepare"),
    (&[9, 0, 0, 0, 0, 0, 1, 0, 0], b"EndCommit"),
    (&[10], b"EndUndo"),
];

fn ask_name(ask: &Ask) -> &'static [u8] {
    match ask {
        Ask::BeginRead { .. } => b"BeginRead",
        Ask::BeginUpdate { .. } => b"BeginUpdate",
        Ask::BeginDelete { .. } => b"BeginDelete",
        Ask::Continue { .. } => b"Continue",
        Ask::ReadKey { .. } => b"ReadKey",
        Ask::Insert { .. } => b"Insert",
        Ask::LockGranule { .. } => b"LockGranule",
        Ask::Prepare => b"Prepare",
        Ask::EndCommit { .. } => b"EndCommit",
        Ask::EndUndo => b"EndUndo",
    }
}

/// The bytes behind opener 1, sync 1 and ordinal 1.
fn asking(alloc: Global, ask: &[u8]) -> Result<Vec<u8>, NoMemory> {
    let mut bytes = [0, 0, 0, 1, 0, 0, 0, 0, 0, 0, 0, 1, 0, 0, 0, 1].to_vec(alloc)?;
    bytes.extend_from_slice(ask)?;
    Ok(bytes)
}

#[test]
fn each_request_has_its_kind(rt: HostRuntime) -> Result<(), Fail> {
    let alloc = rt.alloc();
    for (ask, name) in ASKS {
        let bytes = asking(alloc, ask)?;
        let message = accept(alloc, asking(alloc, ask)?)?;
        let envelope = decode_request(alloc, &message)?;
        assert!(rt; ask_name(&envelope.request.ask) == name, "{name:?}");
        let again = encode_request(alloc, &envelope)?;
        assert_eq!(rt; again.bytes(), bytes.as_slice(), "{name:?}");
    }
    Ok(())
}

/// How many of the beginnings of the bytes are messages.
fn accepted_beginnings(alloc: Global, bytes: &[u8]) -> Result<usize, NoMemory> {
    let mut count = 0usize;
    for length in 0..bytes.len() {
        let beginning = bytes[..length].to_vec(alloc)?;
        if accept(alloc, beginning).is_ok() {
            count = count.saturating_add(1);
        }
    }
    Ok(count)
}

#[test]
fn no_request_is_cut_short_or_followed(rt: HostRuntime) -> Result<(), Fail> {
    let alloc = rt.alloc();
    for (ask, name) in ASKS {
        let mut bytes = asking(alloc, ask)?;
        assert_eq!(rt;
            accepted_beginnings(alloc, bytes.as_slice())?,
            0,
            "{name:?}"
        );
        bytes.push(0)?;
        assert!(rt;
            matches!(accept(alloc, bytes), Err(BytesFault::Malformed)),
            "{name:?}"
        );
    }
    Ok(())
}

// What stands behind opener 1, sync 1 and ordinal 1, and makes no request of it.
const HOSTILE_ASKS: [&[u8]; 20] = [
    // No kind, and two that there aren't.
    &[],
    &[0],
    &[11],
    // A byte behind Prepare, EndUndo and EndCommit.
    &[8, 0],
    &[10, 10],
    &[9, 0, 0, 0, 0, 0, 0, 0, 1, 0],
    // An EndCommit without its last byte.
    &[9, 0, 0, 0, 0, 0, 0, 0],
    // A key of 2 bytes of which there is one, and of 255 of which there is none.
    &[4, 0, 0, 0, 1, 2, b'k'],
    &[4, 0, 0, 0, 1, 255],
    // A row of 65,535 bytes of which there is one, and a length cut short.
    &[6, 255, 255, 1],
    &[6, 0],
    // Modes 0 and 3, and accesses 0 and 4.
    &[7, 0, 0],
    &[7, 0, 3],
    &[5, 0, 1, 5, 0, 1, 0],
    &[5, 4, 1, 5, 0, 1, 0],
    // A flag that is neither 0 nor 1, and a filter of 3 bytes of which there are 2.
    &[5, 1, 1, 5, 2, 1, 0],
    &[5, 1, 1, 5, 1, 0, 3, 1, 0],
    // A column twice, next to itself and apart.
    &[5, 1, 1, 5, 0, 2, 0, 0],
    &[5, 1, 1, 5, 0, 3, 7, 2, 7],
    // A BeginUpdate without its SET list.
    &[2, 2, 0, 1, 0, 1, 9, 0],
];

const HOSTILE_ENVELOPES: [&[u8]; 7] = [
    &[],
    &[0, 0, 0, 1],
    // Openers 0, 9 and 2^24 + 1, sync 0 and ordinal 0.
    &[0, 0, 0, 0, 0, 0, 0, 0, 0, 0, 0, 1, 0, 0, 0, 1, 8],
    &[0, 0, 0, 9, 0, 0, 0, 0, 0, 0, 0, 1, 0, 0, 0, 1, 8],
    &[1, 0, 0, 1, 0, 0, 0, 0, 0, 0, 0, 1, 0, 0, 0, 1, 8],
    &[0, 0, 0, 1, 0, 0, 0, 0, 0, 0, 0, 0, 0, 0, 0, 1, 8],
    &[0, 0, 0, 1, 0, 0, 0, 0, 0, 0, 0, 1, 0, 0, 0, 0, 8],
];

#[test]
fn hostile_bytes_are_no_request(rt: HostRuntime) -> Result<(), Fail> {
    let alloc = rt.alloc();
    for ask in HOSTILE_ASKS {
        let refused = matches!(
            accept(alloc, asking(alloc, ask)?),
            Err(BytesFault::Malformed)
        );
        assert!(rt; refused, "{ask:?}");
    }
    for bytes in HOSTILE_ENVELOPES {
        let refused = matches!(
            accept(alloc, bytes.to_vec(alloc)?),
            Err(BytesFault::Malformed)
        );
        assert!(rt; refused, "{bytes:?}");
    }
    Ok(())
}
