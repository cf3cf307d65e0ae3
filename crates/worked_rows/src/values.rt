//! Values of expressions, rows after their SETs and keys, over t (k INT, v INT, c CHAR(4), PRIMARY KEY (k)).

ghost use Rattle.std.specs.Prelude.{◌≡◌, ◌∷◌, ◌<◌, [], length, All, IfOk, true};
ghost use Rattle.sql_base.specs.KeyFaults.{have_kinds};
ghost use Rattle.sql_base.specs.Rows.{IsRow, are_of_kinds, kinds};
ghost use Rattle.sql_base.specs.declared.tables.ColumnKind.TheVariants.{Int, Char};

use predicate_runner::{Item, run, verify};
use sql_base::{
    Column, ColumnKind, EvalFault, List, Name, NoMemory, Row, TableDef, Text, Value, encode_key,
};
use std::alloc::Global;
use std::test::Fail;
use update_expressions::{apply, verify_sets};

fn table_of(alloc: Global) -> Result<TableDef, NoMemory>
    ensures kinds { IfOk result (λ table. kinds table ≡ Int ∷ Int ∷ Char 4 ∷ []) }
    ensures key { IfOk result (λ table. All (λ c. c < length table.columns) table.key) }
{
    let mut columns = List::new(alloc);
    columns.push(Column {
        name: Name::from_vec(b"k".to_vec(alloc)?),
        kind: ColumnKind::Int,
    })?;
    columns.push(Column {
        name: Name::from_vec(b"v".to_vec(alloc)?),
        kind: ColumnKind::Int,
    })?;
    columns.push(Column {
        name: Name::from_vec(b"c".to_vec(alloc)?),
        kind: ColumnKind::Char(4),
    })?;
    let mut key = List::new(alloc);
    key.push(0)?;
    Ok(TableDef {
        name: Name::from_vec(b"t".to_vec(alloc)?),
        columns,
        key,
        checks: List::new(alloc),
        firsts: List::new(alloc),
    })
}

/// The row of this key, with 10 and 'AB'.
fn row_of(alloc: Global, k: i64) -> Result<Row, NoMemory>
    ensures row { IfOk result (λ row. are_of_kinds (Int ∷ Int ∷ Char 4 ∷ []) row ≡ true) }
    ensures kinds { IfOk result (λ row. have_kinds (Int ∷ Int ∷ Char 4 ∷ []) row ≡ true) }
{
    let mut values = List::new(alloc);
    values.push(Value::Int(k))?;
    values.push(Value::Int(10))?;
    values.push(Value::Text(Text::from_vec(b"AB  ".to_vec(alloc)?)))?;
    Ok(Row::from_values(values))
}

/// What a code comes to.
#[derive(Debug, PartialEq, Eq, Clone, Copy)]
enum Came {
    Number(i64),
    Truth(bool),
    Overflow,
    ZeroDivide,
    Other,
}

fn value_in(alloc: Global, code: &[u8], table: &TableDef, row: &Row) -> Came
    requires { IsRow table.now row.now }
{
    match verify(alloc, code, table) {
        Ok(verified) => match run(&verified, row) {
            Ok(Item::Number(number)) => Came::Number(number),
            Ok(Item::Truth(truth)) => Came::Truth(truth),
            Ok(Item::Text(_text)) => Came::Other,
            Err(EvalFault::Overflow) => Came::Overflow,
            Err(EvalFault::ZeroDivide) => Came::ZeroDivide,
        },
        Err(_fault) => Came::Other,
    }
}

#[test]
fn codes_come_to_values(rt: HostRuntime) -> Result<(), Fail> {
    let alloc = rt.alloc();
    let table = table_of(alloc)?;
    let rows: [(i64, &[u8], Came); 5] = [
        // k / 2, k / -1
        (
            -7,
            b"\x03\x00\x01\x00\x00\x00\x00\x00\x00\x00\x02\x13",
            Came::Number(-3),
        ),
        (
            -9223372036854775808,
            b"\x03\x00\x01\xFF\xFF\xFF\xFF\xFF\xFF\xFF\xFF\x13",
            Came::Overflow,
        ),
        // k < 0 AND 1 / (k - k) = 1, and the other way round
        (
            5,
            b"\x03\x00\x01\x00\x00\x00\x00\x00\x00\x00\x00\x22\x30\x00\x19\x01\x00\x00\x00\x00\x00\x00\x00\x01\x03\x00\x03\x00\x11\x13\x01\x00\x00\x00\x00\x00\x00\x00\x01\x20",
            Came::Truth(false),
        ),
        (
            5,
            b"\x01\x00\x00\x00\x00\x00\x00\x00\x01\x03\x00\x03\x00\x11\x13\x01\x00\x00\x00\x00\x00\x00\x00\x01\x20\x30\x00\x0C\x03\x00\x01\x00\x00\x00\x00\x00\x00\x00\x00\x22",
            Came::ZeroDivide,
        ),
        // c = 'AB'
        (5, b"\x03\x02\x02\x02AB\x20", Came::Truth(true)),
    ];
    for (k, code, want) in rows {
        let row = row_of(alloc, k)?;
        assert_eq!(rt; value_in(alloc, code, &table, &row), want);
    }
    Ok(())
}

/// The number and the text that a row has after its SETs, or none.
fn updated_in(alloc: Global, code: &[u8], table: &TableDef, row: &Row) -> Option<Row>
    requires { IsRow table.now row.now }
{
    let sets = verify_sets(alloc, code, table).ok()?;
    apply(alloc, &sets, row).ok()
}

#[test]
fn rows_are_updated(rt: HostRuntime) -> Result<(), Fail> {
    let alloc = rt.alloc();
    let table = table_of(alloc)?;
    let row = row_of(alloc, 5)?;
    // SET v = k, c = 'X'
    let new = updated_in(
        alloc,
        b"\x02\x01\x00\x02\x03\x00\x02\x00\x03\x02\x01X",
        &table,
        &row,
    );
    assert_eq!(rt;
        shown(alloc, new)?.as_slice(),
        b"\x00\x00\x00\x00\x00\x00\x00\x05\x00\x00\x00\x00\x00\x00\x00\x05X   ".as_slice()
    );
    // SET v = v / (v - v)
    let none = updated_in(
        alloc,
        b"\x01\x01\x00\x08\x03\x01\x03\x01\x03\x01\x11\x13",
        &table,
        &row,
    );
    assert!(rt; none.is_none());
    Ok(())
}

/// The values of a row, one after the other.
fn shown(alloc: Global, row: Option<Row>) -> Result<Vec<u8>, NoMemory> {
    let mut bytes = Vec::new(alloc);
    if let Some(row) = row {
        for value in row.values() {
            match value {
                Value::Int(number) => bytes.extend_from_slice(&number.to_be_bytes())?,
                Value::Text(text) => bytes.extend_from_slice(text.bytes())?,
            }
        }
    }
    Ok(bytes)
}

#[test]
fn keys_are_encoded(rt: HostRuntime) -> Result<(), Fail> {
    let alloc = rt.alloc();
    let table = table_of(alloc)?;
    let rows: [(i64, &[u8]); 3] = [
        (-7, b"\x7F\xFF\xFF\xFF\xFF\xFF\xFF\xF9"),
        (0, b"\x80\x00\x00\x00\x00\x00\x00\x00"),
        (9223372036854775807, b"\xFF\xFF\xFF\xFF\xFF\xFF\xFF\xFF"),
    ];
    for (k, want) in rows {
        let row = row_of(alloc, k)?;
        match encode_key(alloc, &row, &table) {
            Ok(key) => assert_eq!(rt; key.bytes(), want),
            Err(_fault) => assert!(rt; false),
        }
    }
    Ok(())
}
