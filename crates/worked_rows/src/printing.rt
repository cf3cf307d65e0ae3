//! The text of a run: attempts, their results and the records of tables.

use one_thread::{Shown, print_run};
use sql_base::{
    Abort, Column, ColumnKind, Given, Key, List, Name, NoMemory, Outcome, Packed, Row, TableDef,
    Text, Value,
};
use std::alloc::Global;
use std::test::Fail;

fn table(alloc: Global) -> Result<TableDef, NoMemory> {
    let mut columns = List::new(alloc);
    columns.push(Column {
        name: Name::from_vec(b"k".to_vec(alloc)?),
        kind: ColumnKind::Int,
    })?;
    columns.push(Column {
        name: Name::from_vec(b"c".to_vec(alloc)?),
        kind: ColumnKind::Char(3),
    })?;
    Ok(TableDef {
        name: Name::from_vec(b"it_is".to_vec(alloc)?),
        columns,
        key: List::from_vec([0u8].to_vec(alloc)?),
        checks: List::new(alloc),
        firsts: List::new(alloc),
    })
}

fn row(alloc: Global, number: i64, text: &[u8]) -> Result<Row, NoMemory> {
    let mut values = List::new(alloc);
    values.push(Value::Int(number))?;
    values.push(Value::Text(Text::from_vec(text.to_vec(alloc)?)))?;
    Ok(Row::from_values(values))
}

// The number is -2, and stands before the text it's, which has a quote.
fn selected(alloc: Global) -> Result<Given, NoMemory> {
    let bytes = b"\xff\xff\xff\xff\xff\xff\xff\xfei's".to_vec(alloc)?;
    let mut rows = List::new(alloc);
    rows.push(Packed::from_vec(bytes))?;
    Ok(Given::Rows {
        kinds: List::from_vec([ColumnKind::Int, ColumnKind::Char(3)].to_vec(alloc)?),
        rows,
    })
}

fn ended(alloc: Global, ordinal: u32, outcome: Outcome) -> Result<Shown, NoMemory> {
    let mut given = List::new(alloc);
    given.push(Given::Silent)?;
    given.push(selected(alloc)?)?;
    given.push(Given::Count(12))?;
    Ok(Shown {
        session: 3,
        ordinal,
        outcome,
        given,
    })
}

#[test]
fn results_follow_an_attempt_that_was_not_aborted(rt: HostRuntime) -> Result<(), Fail> {
    let alloc = rt.alloc();
    let mut shown = Vec::new(alloc);
    shown.push(ended(alloc, 1, Outcome::Committed { stamp: 70 })?)?;
    shown.push(ended(alloc, 2, Outcome::RolledBack)?)?;
    let bytes = print_run(alloc, &[], shown.as_slice(), &[])?;
    let expected = b"TXN 3 1 COMMITTED 70\nROW 3 1 2 -2 'i''s'\nCOUNT 3 1 3 12\n\
        TXN 3 2 ROLLEDBACK\nROW 3 2 2 -2 'i''s'\nCOUNT 3 2 3 12\n";
    assert_eq!(rt; bytes.as_slice(), expected.as_slice());
    Ok(())
}

#[test]
fn an_aborted_attempt_shows_its_cause_alone(rt: HostRuntime) -> Result<(), Fail> {
    let alloc = rt.alloc();
    let key = Key::from_vec([0x80, 0x0a, 0xf9].to_vec(alloc)?);
    let mut shown = Vec::new(alloc);
    shown.push(ended(alloc, 1, Outcome::Aborted(Abort::Duplicate { key }))?)?;
    shown.push(ended(alloc, 2, Outcome::Aborted(Abort::LockedOut))?)?;
    let bytes = print_run(alloc, &[], shown.as_slice(), &[])?;
    let expected = b"TXN 3 1 ABORTED DUPLICATEKEY 800af9\nTXN 3 2 ABORTED LOCKED\n";
    assert_eq!(rt; bytes.as_slice(), expected.as_slice());
    Ok(())
}

#[test]
fn tables_show_their_records_in_order(rt: HostRuntime) -> Result<(), Fail> {
    let alloc = rt.alloc();
    let mut tables = Vec::new(alloc);
    tables.push(table(alloc)?)?;
    tables.push(table(alloc)?)?;
    let mut rows = List::new(alloc);
    rows.push(row(alloc, -9223372036854775808, b"a b")?)?;
    rows.push(row(alloc, 0, b"'''")?)?;
    let mut records = Vec::new(alloc);
    records.push(List::new(alloc))?;
    records.push(rows)?;
    let bytes = print_run(alloc, tables.as_slice(), &[], records.as_slice())?;
    let expected = b"TABLE it_is\nTABLE it_is\nREC -9223372036854775808 'a b'\nREC 0 ''''''''\n";
    assert_eq!(rt; bytes.as_slice(), expected.as_slice());
    Ok(())
}
