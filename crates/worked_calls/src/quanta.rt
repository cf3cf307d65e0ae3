//! One quantum over a store of one record.
ghost use Rattle.std.specs.Prelude.{◌≡◌, All, IfOk};
ghost use Rattle.sql_base.specs.Rows.{IsRow};
ghost use Rattle.sql_base.specs.Scripts.{IsScript};
ghost use Rattle.sql_base.specs.Tables.{IsTable};
ghost use Rattle.sql_base.specs.declared.tables.TableDef as declared;
ghost use Rattle.quantum_runner.specs.Scaffold.Works.{HoldsRow, IsWork};

use crate::asking::key_bytes;
use crate::read_scripts::{script_of, statement_in, table_in};
use key_sequenced::File;
use lock_tables::LockTable;
use quantum_core::QuantumReply;
use quantum_runner::{CheckedTable, Store, Task, Work, quantum};
use sql_base::{
    Access, Key, Mode, NoMemory, Row, Script, Start, Statement, TableDef, TxnName, row_key,
};
use std::alloc::Global;
use std::test::Fail;
use subset_blocks::Block;

const WRITER: TxnName = TxnName {
    session: 1,
    ordinal: 1,
};

fn copy_of(row: &Row) -> Result<Row, NoMemory>
    ensures { IfOk result (λ copy. copy ≡ row.now) }
{
    Ok(row.clone()?)
}

/// A store of the one row, which the writer has inserted.
#[tactic(auto, using(crate::proofs::Openings::columns_within, crate::proofs::Stores::holds_one))]
fn store_of(alloc: Global, table: &TableDef, row: &Row) -> Result<Store, NoMemory>
    requires table { IsTable table.now }
    requires row { IsRow table.now row.now }
    ensures { IfOk result (λ store. All (HoldsRow table.now) store.file.cells) }
{
    let key = row_key(alloc, row, table)?;
    let copy = copy_of(row)?;
    let mut file = File::new(alloc);
    file.reserve(1)?;
    file.put(key, copy, WRITER);
    Ok(Store {
        file,
        locks: LockTable::new(alloc),
    })
}

/// All records, which the writer deletes.
#[tactic(auto, using(crate::proofs::Stores::is_delete))]
fn deleting(alloc: Global) -> Result<Block<Work>, NoMemory>
    ensures { (table : declared.TableDef) → IfOk result (λ block. IsWork table block.work) }
{
    let low = Key::from_vec([0; 8].to_vec(alloc)?);
    let high = Key::from_vec([0xff; 8].to_vec(alloc)?);
    Ok(Block {
        holder: WRITER,
        start: Start::At(low),
        high,
        access: Access::Stable,
        work: Work::new(None, Task::Delete),
    })
}

/// The reply to a quantum that deletes the row of the script's first statement, and the store after it.
fn deleted(alloc: Global, script: &Script) -> Result<(QuantumReply, Store), Fail>
    requires { IsScript script.now }
{
    let table = table_in(script)?;
    let Statement::Insert { row, .. } = statement_in(script, table, 0)? else {
        return Err("no INSERT".into());
    };
    let checked = CheckedTable::new(alloc, table)?;
    let mut store = store_of(alloc, table, row)?;
    let block = deleting(alloc)?;
    let reply = quantum(alloc, &mut store, script.limits, &checked, &block)?;
    Ok((reply, store))
}

/// Whether the subset is handled to its end, with one record changed.
fn is_one_change(reply: &QuantumReply) -> bool {
    match reply {
        QuantumReply::Ended { rows, changed } => rows.items().is_empty() && *changed == 1,
        QuantumReply::Redrive { .. } | QuantumReply::Locked(_) | QuantumReply::Failed { .. } => {
            false
        }
    }
}

#[test]
fn a_quantum_deletes_and_locks_a_record(rt: HostRuntime) -> Result<(), Fail> {
    let alloc = rt.alloc();
    let script = script_of(
        alloc,
        &[
            "TABLE t (k INT, v INT, PRIMARY KEY (k));",
            "SESSION; INSERT INTO t VALUES (1, 10); COMMIT WORK;",
        ],
    )?;
    let (reply, store) = deleted(alloc, &script)?;
    assert!(rt; is_one_change(&reply));
    let is_deleted = match store.file.find(&key_bytes(1)) {
        Some(cell) => cell.now.is_none(),
        None => false,
    };
    assert!(rt; is_deleted);
    let locks = store.locks.locks(alloc)?;
    let [lock] = locks.items() else {
        return Err("another number of locks".into());
    };
    assert_eq!(rt; (lock.holder, lock.mode), (WRITER, Mode::X));
    assert_eq!(rt; lock.prefix.bytes(), key_bytes(1).as_slice());
    Ok(())
}
