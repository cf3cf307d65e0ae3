//! The printed lines of attempts and tables.
ghost use Rattle.std.specs.Prelude.{◌≡◌, ◌++◌, ◌∷◌, [], OnOk, codes, decimal, flat_map, map};
ghost use Rattle.one_thread.specs.Text.{abort_words, fault_word, line, outcome_words, table_text, value_text};

use crate::printing::words::{put_key, put_name, put_number, put_values};
use crate::shown::Shown;
use sql_base::{Abort, Fault, NoMemory, Outcome, Row, TableDef};

/// Adds the line of an attempt, without its results.
pub fn put_attempt(out: &mut Vec<u8>, shown: &Shown) -> Result<(), NoMemory>
    ensures { OnOk result (out.new.items ≡ out.old.items
        ++ line ((codes "TXN" ∷ decimal shown.now.session ∷ decimal shown.now.ordinal ∷ []) ++ outcome_words shown.now.outcome)) }
{
    out.extend_from_slice(b"TXN")?;
    put_name(out, shown.session, shown.ordinal)?;
    put_outcome(out, &shown.outcome)?;
    out.push(b'\n')?;
    Ok(())
}

fn put_outcome(out: &mut Vec<u8>, outcome: &Outcome) -> Result<(), NoMemory>
    ensures { OnOk result (out.new.items ≡ out.old.items ++ flat_map (λ word. 0x20 ∷ word) (outcome_words outcome.now)) }
{
    match outcome {
        Outcome::Committed { stamp } => {
            out.extend_from_slice(b" COMMITTED")?;
            put_number(out, *stamp)
        }
        Outcome::RolledBack => {
            out.extend_from_slice(b" ROLLEDBACK")?;
            Ok(())
        }
        Outcome::Aborted(abort) => {
            out.extend_from_slice(b" ABORTED")?;
            put_abort(out, abort)
        }
    }
}

fn put_abort(out: &mut Vec<u8>, abort: &Abort) -> Result<(), NoMemory>
    ensures { OnOk result (out.new.items ≡ out.old.items ++ flat_map (λ word. 0x20 ∷ word) (abort_words abort.now)) }
{
    match abort {
        Abort::LockedOut => {
            out.extend_from_slice(b" LOCKED")?;
            Ok(())
        }
        Abort::PathLost => {
            out.extend_from_slice(b" PATHFAILED")?;
            Ok(())
        }
        Abort::Faulted { key, fault } => {
            put_fault(out, *fault)?;
            put_key(out, key)
        }
        Abort::Duplicate { key } => {
            out.extend_from_slice(b" DUPLICATEKEY")?;
            put_key(out, key)
        }
    }
}

fn put_fault(out: &mut Vec<u8>, fault: Fault) -> Result<(), NoMemory>
    ensures { OnOk result (out.new.items ≡ out.old.items ++ 0x20 ∷ fault_word fault) }
{
    match fault {
        Fault::Overflow => out.extend_from_slice(b" OVERFLOW")?,
        Fault::ZeroDivide => out.extend_from_slice(b" ZERODIVIDE")?,
        Fault::CheckFailed { .. } => out.extend_from_slice(b" CHECKFAILED")?,
    }
    Ok(())
}

/// Adds the lines of a table and its records.
pub fn put_table(out: &mut Vec<u8>, table: &TableDef, rows: &[Row]) -> Result<(), NoMemory>
    ensures { OnOk result (out.new.items ≡ out.old.items ++ table_text table.now rows.now) }
{
    out.extend_from_slice(b"TABLE ")?;
    out.extend_from_slice(table.name.bytes())?;
    out.push(b'\n')?;
    for row in rows {
        put_record(out, row)?;
    }
    Ok(())
}

fn put_record(out: &mut Vec<u8>, row: &Row) -> Result<(), NoMemory>
    ensures { OnOk result (out.new.items ≡ out.old.items ++ line (codes "REC" ∷ map value_text row.now)) }
{
    out.extend_from_slice(b"REC")?;
    put_values(out, row.values())?;
    out.push(b'\n')?;
    Ok(())
}
