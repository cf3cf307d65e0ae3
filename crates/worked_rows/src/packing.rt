//! Keys of rows, and rows from their bytes, over t (k INT, c CHAR(2), PRIMARY KEY (c, k)).
ghost use Rattle.std.specs.Prelude.{◌≡◌, ◌∷◌, ◌<◌, [], length, All, IfOk, true};
ghost use Rattle.sql_base.specs.KeyFaults.{have_kinds};
ghost use Rattle.sql_base.specs.Rows.{kinds};
ghost use Rattle.sql_base.specs.declared.tables.ColumnKind.TheVariants.{Int, Char};

use sql_base::{
    Column, ColumnKind, KeyFault, List, Name, NoMemory, Packed, Row, TableDef, Text, UnpackFault,
    Value, encode_key, pack, unpack,
};
use std::alloc::Global;
use std::test::Fail;

fn table_of(alloc: Global) -> Result<TableDef, NoMemory>
    ensures kinds { IfOk result (λ table. kinds table ≡ Int ∷ Char 2 ∷ []) }
    ensures key { IfOk result (λ table. All (λ c. c < length table.columns) table.key) }
{
    let mut columns = List::new(alloc);
    columns.push(Column {
        name: Name::from_vec(b"k".to_vec(alloc)?),
        kind: ColumnKind::Int,
    })?;
    columns.push(Column {
        name: Name::from_vec(b"c".to_vec(alloc)?),
        kind: ColumnKind::Char(2),
    })?;
    let mut key = List::new(alloc);
    key.push(1)?;
    key.push(0)?;
    Ok(TableDef {
        name: Name::from_vec(b"t".to_vec(alloc)?),
        columns,
        key,
        checks: List::new(alloc),
        firsts: List::new(alloc),
    })
}

fn row_of(alloc: Global, k: i64, c: &[u8]) -> Result<Row, NoMemory>
    ensures { IfOk result (λ row. have_kinds (Int ∷ Char 2 ∷ []) row ≡ true) }
{
    let mut values = List::new(alloc);
    values.push(Value::Int(k))?;
    values.push(Value::Text(Text::from_vec(c.to_vec(alloc)?)))?;
    Ok(Row::from_values(values))
}

#[test]
fn rows_have_keys_in_the_order_of_their_values(rt: HostRuntime) -> Result<(), Fail> {
    let alloc = rt.alloc();
    let table = table_of(alloc)?;
    let rows: [(i64, &[u8], &[u8]); 7] = [
        (i64::MIN, b"", b"  \0\0\0\0\0\0\0\0"),
        (-1, b"A", b"A \x7F\xFF\xFF\xFF\xFF\xFF\xFF\xFF"),
        (0, b"A", b"A \x80\0\0\0\0\0\0\0"),
        (255, b"A", b"A \x80\0\0\0\0\0\0\xFF"),
        (256, b"A ", b"A \x80\0\0\0\0\0\x01\0"),
        (-256, b"AB", b"AB\x7F\xFF\xFF\xFF\xFF\xFF\xFF\0"),
        (i64::MAX, b"~~", b"~~\xFF\xFF\xFF\xFF\xFF\xFF\xFF\xFF"),
    ];
    let mut before = Vec::new(alloc);
    for (k, c, wanted) in rows {
        let key = encode_key(alloc, &row_of(alloc, k, c)?, &table);
        let key = key.ok().ok_or("no key")?;
        assert_eq!(rt; key.bytes(), wanted);
        assert!(rt; before.as_slice().cmp(key.bytes()).is_lt());
        before = key.bytes().to_vec(alloc)?;
    }
    Ok(())
}

#[test]
fn texts_keep_rows_from_keys(rt: HostRuntime) -> Result<(), Fail> {
    let alloc = rt.alloc();
    let table = table_of(alloc)?;
    let long = KeyFault::TextTooLong { column: 1 };
    let hidden = KeyFault::NotPrintable { column: 1 };
    let rows: [(&[u8], KeyFault); 4] = [
        (b"ABC", long),
        (b"AB\x1F", long),
        (b"A\x1F", hidden),
        (b"\x7F", hidden),
    ];
    for (c, wanted) in rows {
        let key = encode_key(alloc, &row_of(alloc, 1, c)?, &table);
        assert_eq!(rt; key.err(), Some(wanted));
    }
    Ok(())
}

/// The values of a row, one behind the other.
fn shown(alloc: Global, row: &Row) -> Result<Vec<u8>, NoMemory> {
    let mut bytes = Vec::new(alloc);
    for value in row.values() {
        match value {
            Value::Int(number) => bytes.extend_from_slice(&number.to_be_bytes())?,
            Value::Text(text) => bytes.extend_from_slice(text.bytes())?,
        }
    }
    Ok(bytes)
}

#[test]
fn rows_are_unpacked(rt: HostRuntime) -> Result<(), Fail> {
    let alloc = rt.alloc();
    let number = [ColumnKind::Int];
    let both = [ColumnKind::Int, ColumnKind::Char(2)];
    let rows: [(&[ColumnKind], &[u8], Option<UnpackFault>); 7] = [
        (&number, b"\0\0\0\0\0\0\0\x09", None),
        (&both, b"\xFF\xFF\xFF\xFF\xFF\xFF\xFF\xFEA ", None),
        // Nine bytes for one number, and none.
        (
            &number,
            b"\0\0\0\0\0\0\0\0\x09",
            Some(UnpackFault::WrongLength),
        ),
        (&number, b"", Some(UnpackFault::WrongLength)),
        (
            &both,
            b"\0\0\0\0\0\0\0\x09A",
            Some(UnpackFault::WrongLength),
        ),
        // The length is judged first.
        (
            &both,
            b"\0\0\0\0\0\0\0\x09\x1F  ",
            Some(UnpackFault::WrongLength),
        ),
        (
            &both,
            b"\0\0\0\0\0\0\0\x09A\x7F",
            Some(UnpackFault::NotPrintable),
        ),
    ];
    for (kinds, bytes, fault) in rows {
        let packed = Packed::from_vec(bytes.to_vec(alloc)?);
        match unpack(alloc, &packed, kinds) {
            Ok(row) => assert_eq!(rt; shown(alloc, &row)?.as_slice(), bytes),
            Err(found) => assert_eq!(rt; Some(found), fault, "{bytes:?}"),
        }
        let refused = unpack(alloc, &packed, kinds).is_err();
        assert_eq!(rt; refused, fault.is_some(), "{bytes:?}");
    }
    Ok(())
}

#[test]
fn columns_are_packed_in_the_order_named(rt: HostRuntime) -> Result<(), Fail> {
    let alloc = rt.alloc();
    let row = row_of(alloc, -2, b"AB")?;
    assert_eq!(rt; row.values().len(), 2);
    let rows: [(&[u8], &[u8]); 3] = [
        (&[0], b"\xFF\xFF\xFF\xFF\xFF\xFF\xFF\xFE"),
        (&[1, 0], b"AB\xFF\xFF\xFF\xFF\xFF\xFF\xFF\xFE"),
        (&[], b""),
    ];
    for (columns, wanted) in rows {
        if columns.iter().all(|column| *column < 2) {
            assert_eq!(rt; pack(alloc, &row, columns)?.bytes(), wanted);
        }
    }
    Ok(())
}
