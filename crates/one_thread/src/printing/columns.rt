//! The values of a packed row, printed as they lie there.
ghost use Rattle.std.specs.Prelude.{◌≡◌, ◌++◌, OnOk, is_some, length, option_to_list, true};
ghost use Rattle.std.specs.Int.{w64, cast_signed, from_be_bytes};
ghost use Rattle.sql_base.specs.Rows.{unpacked, unpacked_value, width};
ghost use Rattle.one_thread.specs.Text.{values_of};
ghost use Rattle.one_thread.specs.Scaffold.Columns.{spaced_values};

use crate::printing::words::{put_int, put_text};
use sql_base::{ColumnKind, NoMemory, is_printable, width_of};

/// Whether the bytes are those of a row of these kinds.
pub fn is_row(kinds: &[ColumnKind], bytes: &[u8]) -> bool
    ensures { result ≡ is_some (unpacked kinds.now bytes.now) }
{
    match kinds {
        [] => bytes.is_empty(),
        [kind, rest @ ..] => {
            let width = width_of(*kind);
            if bytes.len() < width {
                return false;
            }
            let (value, others) = bytes.split_at(width);
            is_value(*kind, value) && is_row(rest, others)
        }
    }
}

fn is_value(kind: ColumnKind, bytes: &[u8]) -> bool
    ensures { result ≡ is_some (unpacked_value kind bytes.now) }
{
    match kind {
        ColumnKind::Int => true,
        ColumnKind::Char(_) => is_printable(bytes),
    }
}

/// Adds each value of a row behind a blank.
#[tactic(auto, using(crate::proofs::Columns::first_is_value, crate::proofs::Columns::values_more))]
pub fn put_columns(out: &mut Vec<u8>, kinds: &[ColumnKind], bytes: &[u8]) -> Result<(), NoMemory>
    requires { is_some (unpacked kinds.now bytes.now) ≡ true }
    ensures { OnOk result (out.new.items ≡ out.old.items ++ spaced_values (values_of (unpacked kinds.now bytes.now))) }
{
    match kinds {
        [] => Ok(()),
        [kind, rest @ ..] => {
            let (value, others) = bytes.split_at(width_of(*kind));
            put_column(out, *kind, value)?;
            put_columns(out, rest, others)?;
            Ok(())
        }
    }
}

fn put_column(out: &mut Vec<u8>, kind: ColumnKind, bytes: &[u8]) -> Result<(), NoMemory>
    requires width { length bytes.now ≡ width kind }
    requires value { is_some (unpacked_value kind bytes.now) ≡ true }
    ensures { OnOk result (out.new.items ≡ out.old.items ++ spaced_values (option_to_list (unpacked_value kind bytes.now))) }
{
    out.push(b' ')?;
    match kind {
        ColumnKind::Int => put_int(out, number_in(bytes)),
        ColumnKind::Char(_) => put_text(out, bytes),
    }
}

fn number_in(bytes: &[u8]) -> i64
    requires { length bytes.now ≡ 8 }
    ensures { result ≡ cast_signed w64 (from_be_bytes w64 bytes.now) }
{
    let number = <[u8; 8]>::try_from(bytes).unwrap();
    u64::from_be_bytes(number).cast_signed()
}
