//! Bytes that are the code of no expression or SET list of t (k INT, v INT, c CHAR(4), PRIMARY KEY (k)).
use crate::codes::{assignments_in, table_of, verified_as};
use std::alloc::Global;
use std::test::Fail;

// Most go on from k < v.
const EXPRESSIONS: [&[u8]; 36] = [
    // No operator, and numbers of none.
    b"",
    b"\x00",
    b"\x14",
    b"\x26",
    b"\x33",
    b"\xFF",
    // A number, a text and a column cut short.
    b"\x01",
    b"\x01\0\0\0\0\0\0\x07",
    b"\x02",
    b"\x02\x02A",
    b"\x02\xFFA",
    b"\x03",
    // Bytes of a text beside 32..126, and columns that there aren't.
    b"\x02\x01\x1F",
    b"\x02\x01\x7F",
    b"\x03\x03",
    b"\x03\xFF",
    // An operand too few, and one too many.
    b"\x10",
    b"\x03\0\x10",
    b"\x03\0\x20",
    b"\x32",
    b"\x30\0\0",
    b"\x03\0\x03\x01",
    b"\x03\0\x03\x01\x22\x03\0",
    // A number and a text, added and compared, and numbers for truth values.
    b"\x03\0\x03\x02\x10",
    b"\x03\0\x03\x02\x22",
    b"\x03\0\x32",
    b"\x03\0\x30\0\x02\x03\x01",
    // Truth values added and compared.
    b"\x03\0\x03\x01\x22\x03\0\x03\x01\x22\x10",
    b"\x03\0\x03\x01\x22\x03\0\x03\x01\x22\x20",
    // The length of a right side cut short, and a byte too small and too great.
    b"\x03\0\x03\x01\x22\x30",
    b"\x03\0\x03\x01\x22\x30\0",
    b"\x03\0\x03\x01\x22\x30\0\x04\x03\0\x03\x01\x22",
    b"\x03\0\x03\x01\x22\x31\0\x06\x03\0\x03\x01\x22",
    // A right side that is empty, a number, or two values.
    b"\x03\0\x03\x01\x22\x31\0\0",
    b"\x03\0\x03\x01\x22\x31\0\x02\x03\0",
    b"\x03\0\x03\x01\x22\x30\0\x04\x03\0\x03\x01",
];

#[test]
fn hostile_bytes_are_no_expression(rt: HostRuntime) -> Result<(), Fail> {
    let table = table_of(rt.alloc())?;
    for code in EXPRESSIONS {
        assert_eq!(rt; verified_as(rt.alloc(), code, &table), b'-', "{code:?}");
    }
    Ok(())
}

/// A code, and a piece of code that follows it so many times.
fn followed(alloc: Global, code: &[u8], piece: &[u8], count: usize) -> Result<Vec<u8>, Fail> {
    let mut bytes = code.to_vec(alloc)?;
    for _ in 0..count {
        bytes.extend_from_slice(piece)?;
    }
    Ok(bytes)
}

/// The code of a comparison of two texts of so many bytes.
fn compared(alloc: Global, left: u8, right: u8) -> Result<Vec<u8>, Fail> {
    let left = followed(alloc, &[2, left], b"A", left as usize)?;
    let both = followed(alloc, left.as_slice(), &[2, right], 1)?;
    let mut code = followed(alloc, both.as_slice(), b"A", right as usize)?;
    code.push(0x20)?;
    Ok(code)
}

/// The code of a truth value and another behind it, joined with AND.
fn joined(alloc: Global, left: &[u8], right: &[u8], count: usize) -> Result<Vec<u8>, Fail> {
    let Ok(length) = u16::try_from(right.len()) else {
        return Err("a right side that is too long".into());
    };
    let head = followed(alloc, &[0x30], &length.to_be_bytes(), 1)?;
    let piece = followed(alloc, head.as_slice(), right, 1)?;
    followed(alloc, left, piece.as_slice(), count)
}

// 15 comparisons of 515 bytes and one of 260 and its second text, with 3 bytes more for each but the first.
#[test]
fn a_code_has_8192_bytes_at_the_most(rt: HostRuntime) -> Result<(), Fail> {
    let alloc = rt.alloc();
    let table = table_of(alloc)?;
    let wide = compared(alloc, 255, 255)?;
    let many = joined(alloc, wide.as_slice(), wide.as_slice(), 14)?;
    for (width, wanted) in [(162, b'b'), (163, b'-')] {
        let last = compared(alloc, 255, width)?;
        let code = joined(alloc, many.as_slice(), last.as_slice(), 1)?;
        assert_eq!(rt;
            verified_as(alloc, code.as_slice(), &table),
            wanted,
            "{}",
            code.len()
        );
    }
    Ok(())
}

#[test]
fn a_tree_has_32_levels_at_the_most(rt: HostRuntime) -> Result<(), Fail> {
    let alloc = rt.alloc();
    let table = table_of(alloc)?;
    // NOT over k < v, which has two levels, and sums of k.
    let rows: [(&[u8], &[u8], usize, u8); 4] = [
        (b"\x03\0\x03\x01\x22", b"\x32", 30, b'b'),
        (b"\x03\0\x03\x01\x22", b"\x32", 31, b'-'),
        (b"\x03\0", b"\x03\0\x10", 31, b'n'),
        (b"\x03\0", b"\x03\0\x10", 32, b'-'),
    ];
    for (code, piece, count, wanted) in rows {
        let deep = followed(alloc, code, piece, count)?;
        assert_eq!(rt; verified_as(alloc, deep.as_slice(), &table), wanted);
    }
    Ok(())
}

const SET_LISTS: [&[u8]; 24] = [
    b"",
    b"\x00",
    // No assignment where one is counted, and one that is cut short.
    b"\x01",
    b"\x01\x01",
    b"\x01\x01\0",
    b"\x01\x01\0\x02",
    b"\x01\x01\0\x02\x03",
    b"\x01\x01\0\x03\x03\0",
    // A byte behind the list, and another assignment.
    b"\x01\x01\0\x02\x03\0\0",
    b"\x01\x01\0\x02\x03\0\x02\0\x04\x02\x02AB",
    b"\x02\x01\0\x02\x03\0",
    b"\x21\x01\0\x02\x03\0",
    // No code, and codes with a byte too many and of nothing.
    b"\x01\x01\0\0",
    b"\x01\x01\0\x03\x03\0\0",
    b"\x01\x01\0\x01\x10",
    // A column that there isn't, and the key.
    b"\x01\x03\0\x02\x03\0",
    b"\x01\xFF\0\x02\x03\0",
    b"\x01\0\0\x02\x03\x01",
    // A column twice, next to itself and apart.
    b"\x02\x01\0\x02\x03\0\x01\0\x02\x03\x01",
    b"\x03\x01\0\x02\x03\0\x02\0\x02\x03\x02\x01\0\x02\x03\x01",
    // A text for a number, a number for a text, and a truth value.
    b"\x01\x01\0\x02\x03\x02",
    b"\x01\x02\0\x02\x03\0",
    b"\x01\x01\0\x05\x03\0\x03\x01\x22",
    // A text that is longer than its column.
    b"\x01\x02\0\x07\x02\x05ABCDE",
];

#[test]
fn hostile_bytes_are_no_set_list(rt: HostRuntime) -> Result<(), Fail> {
    let table = table_of(rt.alloc())?;
    for code in SET_LISTS {
        assert_eq!(rt; assignments_in(rt.alloc(), code, &table), None, "{code:?}");
    }
    Ok(())
}
