//! Codes of expressions and SET lists over t (k INT, v INT, c CHAR(4), PRIMARY KEY (k)), and granules.

use predicate_runner::{CodeFault, ExprKind, verify};
use sql_base::{
    Column, ColumnKind, Key, KeyRange, List, Name, NoMemory, Prefix, TableDef, common_prefix,
    overlaps,
};
use std::alloc::Global;
use std::test::Fail;
use update_expressions::verify_sets;

fn column_of(alloc: Global, name: &[u8], kind: ColumnKind) -> Result<Column, NoMemory> {
    Ok(Column {
        name: Name::from_vec(name.to_vec(alloc)?),
        kind,
    })
}

/// t (k INT, v INT, c CHAR(4), PRIMARY KEY (k))
pub fn table_of(alloc: Global) -> Result<TableDef, NoMemory> {
    let mut columns = List::new(alloc);
    columns.push(column_of(alloc, b"k", ColumnKind::Int)?)?;
    columns.push(column_of(alloc, b"v", ColumnKind::Int)?)?;
    columns.push(column_of(alloc, b"c", ColumnKind::Char(4))?)?;
    let mut key = List::new(alloc);
    key.push(0)?;
    Ok(TableDef {
        name: Name::from_vec(b"t".to_vec(alloc)?),
        columns,
        key,
        checks: List::new(alloc),
        firsts: List::new(alloc),
    })
}

/// A letter for what a code is verified as: a number, a text, a truth value, none, or want of memory.
pub fn verified_as(alloc: Global, code: &[u8], table: &TableDef) -> u8 {
    match verify(alloc, code, table) {
        Ok(verified) => match verified.kind() {
            ExprKind::Number => b'n',
            ExprKind::Text(_width) => b't',
            ExprKind::Truth => b'b',
        },
        Err(CodeFault::BadCode) => b'-',
        Err(CodeFault::NoMemory) => b'm',
    }
}

#[test]
fn codes_are_verified(rt: HostRuntime) -> Result<(), Fail> {
    let alloc = rt.alloc();
    let table = table_of(alloc)?;
    let rows: [(&[u8], u8); 9] = [
        // k / 2, with one byte behind it, and nothing
        (b"\x03\x00\x01\x00\x00\x00\x00\x00\x00\x00\x02\x13", b'n'),
        (
            b"\x03\x00\x01\x00\x00\x00\x00\x00\x00\x00\x02\x13\x00",
            b'-',
        ),
        (b"", b'-'),
        // 'AB', and with a byte that isn't printable
        (b"\x02\x02AB", b't'),
        (b"\x02\x02A\x1F", b'-'),
        // k < v, k < c, and a column too many
        (b"\x03\x00\x03\x01\x22", b'b'),
        (b"\x03\x00\x03\x02\x22", b'-'),
        (b"\x03\x03", b'-'),
        // k < v AND v < k
        (
            b"\x03\x00\x03\x01\x22\x30\x00\x05\x03\x01\x03\x00\x22",
            b'b',
        ),
    ];
    for (code, want) in rows {
        assert_eq!(rt; verified_as(alloc, code, &table), want);
    }
    Ok(())
}

/// How many assignments a code is verified as, or none.
pub fn assignments_in(alloc: Global, code: &[u8], table: &TableDef) -> Option<usize> {
    match verify_sets(alloc, code, table) {
        Ok(sets) => Some(sets.sets().len()),
        Err(_fault) => None,
    }
}

#[test]
fn set_lists_are_verified(rt: HostRuntime) -> Result<(), Fail> {
    let alloc = rt.alloc();
    let table = table_of(alloc)?;
    let rows: [(&[u8], Option<usize>); 6] = [
        // v = k; v = k, c = 'AB'
        (b"\x01\x01\x00\x02\x03\x00", Some(1)),
        (b"\x02\x01\x00\x02\x03\x00\x02\x00\x04\x02\x02AB", Some(2)),
        // v twice, the key column, a text for a number, no assignment
        (b"\x02\x01\x00\x02\x03\x00\x01\x00\x02\x03\x00", None),
        (b"\x01\x00\x00\x02\x03\x01", None),
        (b"\x01\x01\x00\x04\x02\x02AB", None),
        (b"\x00", None),
    ];
    for (code, want) in rows {
        assert_eq!(rt; assignments_in(alloc, code, &table), want);
    }
    Ok(())
}

#[test]
fn granules_meet(rt: HostRuntime) -> Result<(), Fail> {
    let alloc = rt.alloc();
    let rows: [(&[u8], &[u8], bool, usize); 4] = [
        (b"AA\x80", b"AA\xFF", false, 2),
        (b"AA", b"AA\xFF", true, 2),
        (b"", b"B", true, 0),
        (b"A", b"B", false, 0),
    ];
    for (low, high, want, common) in rows {
        let a = Prefix::from_vec(low.to_vec(alloc)?);
        let b = Prefix::from_vec(high.to_vec(alloc)?);
        assert_eq!(rt; overlaps(&a, &b), want);
        let range = KeyRange {
            low: Key::from_vec(low.to_vec(alloc)?),
            high: Key::from_vec(high.to_vec(alloc)?),
        };
        assert_eq!(rt; common_prefix(alloc, &range)?.bytes().len(), common);
    }
    Ok(())
}
