//! The words of texts, each as the slice of the text that it stands on, and the first faults.
ghost use Rattle.std.specs.Prelude.{◌≤◌, length};

use statement_words::{SCRIPT_LIMIT, WordFault, WordReason, words};
use std::test::Fail;

/// The words of the text, with one blank between them.
fn joined(rt: &HostRuntime, text: &[u8]) -> Result<Vec<u8>, Fail>
    requires { length text.now ≤ SCRIPT_LIMIT }
{
    let mut joined = Vec::new(rt.alloc());
    for token in words(rt.alloc(), text)?.items() {
        let slice = text
            .get(token.first as usize..token.end as usize)
            .ok_or("a span outside the text")?;
        joined.extend_from_slice(slice)?;
        joined.push(b' ')?;
    }
    Ok(joined)
}

#[test]
fn texts_have_these_words(rt: HostRuntime) -> Result<(), Fail> {
    let rows: [(&[u8], &[u8]); 4] = [
        (b"", b""),
        (b" \t\r\n", b""),
        (
            b"SELECT k\t FROM t\r\nWHERE c<='A''B'AND k<>12ab;",
            b"SELECT k FROM t WHERE c <= 'A''B' AND k <> 12 ab ; ",
        ),
        (
            b"RESTART 09223372036854775808;",
            b"RESTART 09223372036854775808 ; ",
        ),
    ];
    for (text, wanted) in rows {
        if text.len() <= SCRIPT_LIMIT {
            assert!(rt; joined(&rt, text)?.as_slice() == wanted);
        }
    }
    Ok(())
}

#[test]
fn texts_have_these_faults(rt: HostRuntime) -> Result<(), Fail> {
    let rows: [(&[u8], WordReason, u32); 5] = [
        (b"SELECT #", WordReason::BadByte, 7),
        (b"k = 'A", WordReason::OpenText, 4),
        (b"k = 'A\r\n", WordReason::BadByte, 6),
        (b"x 'A''", WordReason::OpenText, 2),
        (b"a 9223372036854775809", WordReason::NumberTooWide, 2),
    ];
    for (text, reason, at) in rows {
        if text.len() <= SCRIPT_LIMIT {
            let fault = words(rt.alloc(), text).err().ok_or("a fault")?;
            assert_eq!(rt; fault, WordFault::At { reason, at });
        }
    }
    Ok(())
}

#[test]
fn a_text_of_255_bytes_is_the_longest(rt: HostRuntime) -> Result<(), Fail> {
    let mut text = vec![in rt.alloc(); b'A'; 255]?;
    text.insert(0, b'\'')?;
    text.push(b'\'')?;
    assert_eq!(rt; words(rt.alloc(), text.as_slice())?.items().len(), 1);
    text.insert(1, b'A')?;
    let fault = words(rt.alloc(), text.as_slice()).err().ok_or("a fault")?;
    let reason = WordReason::TextTooLong;
    assert_eq!(rt; fault, WordFault::At { reason, at: 0 });
    Ok(())
}
