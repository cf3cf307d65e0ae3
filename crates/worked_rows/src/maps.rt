//! First keys of t (k INT, PRIMARY KEY (k)) that make no partitions.

ghost use Rattle.std.specs.Prelude.{◌≡◌, ◌<◌, ◌∷◌, [], length, All, IfOk, true};
ghost use Rattle.sql_base.specs.Rows.{key_kinds, key_width};
ghost use Rattle.sql_base.specs.Tables.{are_leading};
ghost use Rattle.sql_base.specs.declared.tables.ColumnKind.TheVariants.{Int};

use partition_cuts::{MapFault, check_map};
use sql_base::{Column, ColumnKind, List, Name, NoMemory, Row, TableDef, Value};
use std::alloc::Global;
use std::test::Fail;

/// The first key (1000).
fn first_of(alloc: Global) -> Result<Row, NoMemory>
    ensures { IfOk result (λ row. are_leading (Int ∷ []) row ≡ true) }
{
    let mut first = List::new(alloc);
    first.push(Value::Int(1000))?;
    Ok(Row::from_values(first))
}

/// So many first keys, all the same.
fn firsts_of(alloc: Global, count: usize) -> Result<List<Row>, NoMemory>
    ensures { IfOk result (λ firsts. All (λ first. are_leading (Int ∷ []) first ≡ true) firsts) }
{
    let mut firsts = List::new(alloc);
    for _ in 0..count {
        firsts.push(first_of(alloc)?)?;
    }
    Ok(firsts)
}

/// t (k INT, PRIMARY KEY (k)) with so many times the first key (1000).
fn table_of(alloc: Global, count: usize) -> Result<TableDef, NoMemory>
    ensures key { IfOk result (λ table. All (λ c. c < length table.columns) table.key) }
    ensures width { IfOk result (λ table. key_width table ≡ 8) }
    ensures leading { IfOk result (λ table. All (λ first. are_leading (key_kinds table) first ≡ true) table.firsts) }
{
    let mut columns = List::new(alloc);
    columns.push(Column {
        name: Name::from_vec(b"k".to_vec(alloc)?),
        kind: ColumnKind::Int,
    })?;
    let mut key = List::new(alloc);
    key.push(0)?;
    Ok(TableDef {
        name: Name::from_vec(b"t".to_vec(alloc)?),
        columns,
        key,
        checks: List::new(alloc),
        firsts: firsts_of(alloc, count)?,
    })
}

#[test]
fn maps_are_checked(rt: HostRuntime) -> Result<(), Fail> {
    let alloc = rt.alloc();
    let again = Err(MapFault::FirstKeysNotRising { place: 1 });
    let rows = [
        (0, Ok(())),
        (1, Ok(())),
        (2, again),
        (15, again),
        (16, Err(MapFault::TooManyParts)),
    ];
    for (count, wanted) in rows {
        let table = table_of(alloc, count)?;
        assert_eq!(rt; check_map(alloc, &table), wanted);
    }
    Ok(())
}
