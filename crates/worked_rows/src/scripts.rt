//! Scripts that are built by hand, as they are printed.
use sql_base::{
    Access, Column, ColumnKind, Limits, List, Load, Mode, Name, NoMemory, Row, Script, Statement,
    TableDef, Value, Work,
};
use statement_printer::{print_script, print_statement};
use std::alloc::Global;
use std::test::Fail;

fn list<T: Drop>(alloc: Global, item: T) -> Result<List<T>, NoMemory> {
    let mut list = List::new(alloc);
    list.push(item)?;
    Ok(list)
}

fn column(alloc: Global, name: u8) -> Result<Column, NoMemory> {
    let mut bytes = Vec::new(alloc);
    bytes.push(name)?;
    Ok(Column {
        name: Name::from_vec(bytes),
        kind: ColumnKind::Int,
    })
}

/// The table t with two INT columns k and v, of which k is the key.
fn table(alloc: Global) -> Result<TableDef, NoMemory> {
    let mut columns = list(alloc, column(alloc, b'k')?)?;
    columns.push(column(alloc, b'v')?)?;
    Ok(TableDef {
        name: Name::from_vec(b"t".to_vec(alloc)?),
        columns,
        key: list(alloc, 0)?,
        checks: List::new(alloc),
        firsts: List::new(alloc),
    })
}

/// Five rows of that table.
fn load(alloc: Global) -> Result<Load, NoMemory> {
    let mut rows = List::new(alloc);
    for (key, value) in [(1, 10), (2, 20), (3, 30), (4, 40), (5, 50)] {
        rows.push(row(alloc, key, value)?)?;
    }
    Ok(Load { table: 0, rows })
}

fn row(alloc: Global, key: i64, value: i64) -> Result<Row, NoMemory> {
    let mut values = list(alloc, Value::Int(key))?;
    values.push(Value::Int(value))?;
    Ok(Row::from_values(values))
}

fn limits() -> Limits {
    Limits {
        quantum: 2,
        buffer: 4_096,
        patience: 8,
        servers: 2,
        restart: 0,
    }
}

/// The statement and COMMIT WORK in one session.
fn session(alloc: Global, statement: Statement) -> Result<List<Work>, NoMemory> {
    let statements = list(alloc, statement)?;
    list(
        alloc,
        Work {
            statements,
            commit: true,
        },
    )
}

/// That table with its rows, and one session with the statement.
fn script(alloc: Global, statement: Statement) -> Result<Script, NoMemory> {
    let sessions = list(alloc, session(alloc, statement)?)?;
    let tables = list(alloc, table(alloc)?)?;
    let loads = list(alloc, load(alloc)?)?;
    Ok(Script {
        limits: limits(),
        tables,
        loads,
        sessions,
    })
}

fn scan(alloc: Global, access: Access) -> Result<Statement, NoMemory> {
    let mut columns = list(alloc, 0)?;
    columns.push(1)?;
    Ok(Statement::Select {
        table: 0,
        columns,
        filter: None,
        access,
    })
}

#[test]
fn a_script_is_printed(rt: HostRuntime) -> Result<(), Fail> {
    let script = script(rt.alloc(), scan(rt.alloc(), Access::Repeatable)?)?;
    let wanted =
        b"QUANTUM 2 ;\nBUFFER 4096 ;\nPATIENCE 8 ;\nSERVERS 2 ;\nTABLE t ( k INT , v INT , PRIMARY KEY ( k ) ) ;\nLOAD t ( 1 , 10 ) , ( 2 , 20 ) , ( 3 , 30 ) , ( 4 , 40 ) , ( 5 , 50 ) ;\nSESSION ;\nSELECT k , v FROM t FOR REPEATABLE ACCESS ;\nCOMMIT WORK ;\n";
    assert!(rt; print_script(rt.alloc(), &script)?.as_slice() == wanted.as_slice());
    let lock = Statement::LockTable {
        table: 0,
        mode: Mode::S,
    };
    let printed = print_statement(rt.alloc(), &lock, &script.tables)?;
    assert!(rt; printed.as_slice() == b"LOCK TABLE t IN SHARE MODE ;\n".as_slice());
    Ok(())
}
