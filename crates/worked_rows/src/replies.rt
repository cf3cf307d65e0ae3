//! Bytes that spell replies, and bytes that spell none.

use dp_messages::{BytesFault, Reply, decode_reply, encode_reply};
use std::alloc::Global;
use std::test::Fail;

/// The bytes of a reply, and its name.
const REPLIES: [(&[u8], &[u8]); 23] = [
    // Two rows, the second empty.
    (&[1, 0, 2, 0, 2, 97, 98, 0, 0, 0, 0, 0, 0], b"Ended"),
    // Subset 5 is stopped by a lock, with 2 records changed.
    (&[2, 0, 0, 0, 5, 1, 9, 2, 0, 0, 0, 0, 0, 2], b"Redrive"),
    // The lock of attempt 4 of session 3.
    (&[3, 0, 0, 0, 3, 0, 0, 0, 4, 1, 8, 1], b"Locked"),
    (&[4, 1, 8, 1], b"Failed"),
    (&[4, 1, 8, 2], b"Failed"),
    // The second CHECK fails.
    (&[4, 1, 8, 3, 0, 0, 0, 2], b"Failed"),
    (&[5, 0, 1, 9], b"Row"),
    (&[5, 0, 0], b"Row"),
    (&[6], b"NoRow"),
    (&[7], b"Done"),
    (&[8, 0, 0, 0, 0, 0, 0, 1, 0], b"Floor"),
    (&[9, 1, 8], b"DuplicateKey"),
    (&[10, 0, 0, 1, 0], b"AfterEnd"),
    (&[11, 0, 0, 0, 0, 0, 0, 1, 0], b"AfterPrepare"),
    (&[12, 0, 0, 0, 2], b"StillLive"),
    (&[13], b"NotKnown"),
    (&[14], b"NotPrepared"),
    (&[15, 255, 255, 255, 255, 255, 255, 255, 255], b"StampLow"),
    (&[16], b"NoSubset"),
    (&[17, 2, 8, 9], b"WrongKey"),
    (&[18], b"BadCode"),
    (&[19], b"BadShape"),
    (&[20], b"TooManySubsets"),
];

fn name_of(reply: &Reply) -> &'static [u8] {
    match reply {
        Reply::Ended { .. } => b"Ended",
        Reply::Redrive { .. } => b"Redrive",
        Reply::Locked(_) => b"Locked",
        Reply::Failed { .. } => b"Failed",
        Reply::Row(_) => b"Row",
        Reply::NoRow => b"NoRow",
        Reply::Done => b"Done",
        Reply::Floor(_) => b"Floor",
        Reply::DuplicateKey { .. } => b"DuplicateKey",
        Reply::AfterEnd { .. } => b"AfterEnd",
        Reply::AfterPrepare { .. } => b"AfterPrepare",
        Reply::StillLive { .. } => b"StillLive",
        Reply::NotKnown => b"NotKnown",
        Reply::NotPrepared => b"NotPrepared",
        Reply::StampLow { .. } => b"StampLow",
        Reply::NoSubset => b"NoSubset",
        Reply::WrongKey { .. } => b"WrongKey",
        Reply::BadCode => b"BadCode",
        Reply::BadShape => b"BadShape",
        Reply::TooManySubsets => b"TooManySubsets",
    }
}

#[test]
fn each_reply_has_its_kind(rt: HostRuntime) -> Result<(), Fail> {
    let alloc = rt.alloc();
    for (bytes, name) in REPLIES {
        let reply = decode_reply(alloc, bytes)?;
        assert!(rt; name_of(&reply) == name, "{name:?}");
        let again = encode_reply(alloc, &reply)?;
        assert_eq!(rt; again.as_slice(), bytes, "{name:?}");
    }
    Ok(())
}

/// How many of the beginnings of the bytes are replies.
fn read_beginnings(alloc: Global, bytes: &[u8]) -> usize {
    let mut count = 0usize;
    for length in 0..bytes.len() {
        if decode_reply(alloc, &bytes[..length]).is_ok() {
            count = count.saturating_add(1);
        }
    }
    count
}

#[test]
fn no_reply_is_cut_short_or_followed(rt: HostRuntime) -> Result<(), Fail> {
    let alloc = rt.alloc();
    for (bytes, name) in REPLIES {
        assert_eq!(rt; read_beginnings(alloc, bytes), 0, "{name:?}");
        let mut longer = bytes.to_vec(alloc)?;
        longer.push(0)?;
        let refused = matches!(
            decode_reply(alloc, longer.as_slice()),
            Err(BytesFault::Malformed)
        );
        assert!(rt; refused, "{name:?}");
    }
    Ok(())
}

#[test]
fn hostile_bytes_are_no_reply(rt: HostRuntime) {
    let rows: [&[u8]; 20] = [
        &[],
        // Kinds that there aren't.
        &[0],
        &[21],
        &[255],
        // 65,535 rows of which there is none, one row of 65,535 bytes, and two rows of which there is one.
        &[1, 255, 255],
        &[1, 0, 1, 255, 255, 0],
        &[1, 0, 2, 0, 1, 9, 0, 0, 0, 0],
        // No row where there is one.
        &[1, 0, 0, 0, 1, 9, 0, 0, 0, 0],
        // Causes 0 and 5.
        &[2, 0, 0, 0, 5, 1, 9, 0, 0, 0, 0, 0, 0, 2],
        &[2, 0, 0, 0, 5, 1, 9, 5, 0, 0, 0, 0, 0, 2],
        // A key of 255 bytes of which there are 7.
        &[2, 0, 0, 0, 5, 255, 9, 2, 0, 0, 0, 0, 0],
        // Modes 0 and 3, and a prefix of 2 bytes of which there is one.
        &[3, 0, 0, 0, 3, 0, 0, 0, 4, 1, 8, 0],
        &[3, 0, 0, 0, 3, 0, 0, 0, 4, 1, 8, 3],
        &[3, 0, 0, 0, 3, 0, 0, 0, 4, 2, 8],
        // Faults 0 and 4, and one with a number that has none.
        &[4, 1, 8, 0],
        &[4, 1, 8, 4],
        &[4, 1, 8, 1, 0, 0, 0, 2],
        // A row with another behind it, and keys with a byte too many and too few.
        &[5, 0, 1, 9, 0, 1, 9],
        &[9, 0, 8],
        &[17, 2, 8],
    ];
    for bytes in rows {
        let refused = matches!(decode_reply(rt.alloc(), bytes), Err(BytesFault::Malformed));
        assert!(rt; refused, "{bytes:?}");
    }
}
