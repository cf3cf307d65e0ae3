//! The bytes of statements.
ghost use Rattle.std.specs.Prelude.{◌≡◌, ◌++◌, ◌∷◌, [], OnOk, flat_map, slice_get};
ghost use Rattle.statement_words.specs.declared.tokens.Sign.TheVariants as signs;
ghost use Rattle.statement_printer.specs.Bytes.{bytes_of};
ghost use Rattle.statement_printer.specs.Printing.{access_key, access_words, columns_of, filter_words, insert_words, into_words, mode_key, set_words, sign, statement_words, with_commas};

use crate::expressions::put_expr;
use crate::tables::put_table_name;
use crate::values::{put_column, put_columns, put_row};
use crate::words::{put_key, put_keys, put_sign};
use sql_base::{Access, Assign, Column, Expr, Mode, NoMemory, Row, Statement, TableDef};
use statement_words::{Keyword, Sign};

fn access_key(access: Access) -> Keyword
    ensures { result ≡ access_key access }
{
    match access {
        Access::Browse => Keyword::Browse,
        Access::Stable => Keyword::Stable,
        Access::Repeatable => Keyword::Repeatable,
    }
}

fn mode_key(mode: Mode) -> Keyword
    ensures { result ≡ mode_key mode }
{
    match mode {
        Mode::S => Keyword::Share,
        Mode::X => Keyword::Exclusive,
    }
}

fn put_filter(out: &mut Vec<u8>, columns: &[Column], filter: &Option<Expr>) -> Result<(), NoMemory>
    ensures { OnOk result (out.new.items ≡ out.old.items ++ bytes_of (filter_words columns.now filter.now)) }
{
    match filter {
        None => Ok(()),
        Some(e) => {
            put_key(out, Keyword::Where)?;
            put_expr(out, columns, e)
        }
    }
}

/// Adds the end of a statement from its WHERE on.
fn put_access(
    out: &mut Vec<u8>,
    columns: &[Column],
    filter: &Option<Expr>,
    access: Access,
) -> Result<(), NoMemory>
    ensures { OnOk result (out.new.items ≡ out.old.items ++ bytes_of (access_words columns.now filter.now access)) }
{
    put_filter(out, columns, filter)?;
    put_keys(out, Keyword::For, access_key(access))?;
    put_key(out, Keyword::Access)?;
    put_sign(out, Sign::Semicolon)
}

fn put_set(out: &mut Vec<u8>, columns: &[Column], set: &Assign) -> Result<(), NoMemory>
    ensures { OnOk result (out.new.items ≡ out.old.items ++ bytes_of (set_words columns.now set.now)) }
{
    put_column(out, columns, set.column)?;
    put_sign(out, Sign::Equal)?;
    put_expr(out, columns, &set.value)
}

fn put_another_set(out: &mut Vec<u8>, columns: &[Column], set: &Assign) -> Result<(), NoMemory>
    ensures { OnOk result (out.new.items ≡ out.old.items ++ bytes_of (sign signs.Comma ∷ set_words columns.now set.now)) }
{
    put_sign(out, Sign::Comma)?;
    put_set(out, columns, set)
}

fn put_another_sets(out: &mut Vec<u8>, columns: &[Column], sets: &[Assign]) -> Result<(), NoMemory>
    ensures { OnOk result (out.new.items ≡ out.old.items ++ bytes_of (flat_map (λ x. sign signs.Comma ∷ set_words columns.now x) sets.now)) }
{
    for set in sets {
        put_another_set(out, columns, set)?;
    }
    Ok(())
}

fn put_sets(out: &mut Vec<u8>, columns: &[Column], sets: &[Assign]) -> Result<(), NoMemory>
    ensures { OnOk result (out.new.items ≡ out.old.items ++ bytes_of (with_commas (set_words columns.now) sets.now)) }
{
    match sets {
        [] => Ok(()),
        [set, rest @ ..] => {
            put_set(out, columns, set)?;
            put_another_sets(out, columns, rest)
        }
    }
}

fn columns_at(tables: &[TableDef], place: u8) -> &[Column]
    ensures { result.now ≡ columns_of (slice_get tables.now place) }
{
    match tables.get(place as usize) {
        Some(table) => table.columns.items(),
        None => &[],
    }
}

#[tactic(auto, unfolding(crate::specs::Printing::into_words))]
fn put_into(out: &mut Vec<u8>, tables: &[TableDef], place: u8) -> Result<(), NoMemory>
    ensures { OnOk result (out.new.items ≡ out.old.items ++ bytes_of (into_words (slice_get tables.now place))) }
{
    put_keys(out, Keyword::Insert, Keyword::Into)?;
    put_table_name(out, tables, place)?;
    put_key(out, Keyword::Values)
}

#[tactic(auto, unfolding(crate::specs::Printing::insert_words))]
fn put_insert(out: &mut Vec<u8>, tables: &[TableDef], place: u8, row: &Row) -> Result<(), NoMemory>
    ensures { OnOk result (out.new.items ≡ out.old.items ++ bytes_of (insert_words (slice_get tables.now place) row.now)) }
{
    put_into(out, tables, place)?;
    put_row(out, row)?;
    put_sign(out, Sign::Semicolon)
}

/// Adds a statement and the end of its line.
pub fn put_statement(
    out: &mut Vec<u8>,
    tables: &[TableDef],
    statement: &Statement,
) -> Result<(), NoMemory>
    ensures { OnOk result (out.new.items ≡ out.old.items ++ bytes_of (statement_words tables.now statement.now)) }
{
    match statement {
        Statement::Select {
            table,
            columns,
            filter,
            access,
        } => {
            put_key(out, Keyword::Select)?;
            put_columns(out, columns_at(tables, *table), columns.items())?;
            put_key(out, Keyword::From)?;
            put_table_name(out, tables, *table)?;
            put_access(out, columns_at(tables, *table), filter, *access)
        }
        Statement::Update {
            table,
            sets,
            filter,
            access,
        } => {
            put_key(out, Keyword::Update)?;
            put_table_name(out, tables, *table)?;
            put_key(out, Keyword::Set)?;
            put_sets(out, columns_at(tables, *table), sets.items())?;
            put_access(out, columns_at(tables, *table), filter, *access)
        }
        Statement::Delete {
            table,
            filter,
            access,
        } => {
            put_keys(out, Keyword::Delete, Keyword::From)?;
            put_table_name(out, tables, *table)?;
            put_access(out, columns_at(tables, *table), filter, *access)
        }
        Statement::Insert { table, row } => put_insert(out, tables, *table, row),
        Statement::LockTable { table, mode } => {
            put_keys(out, Keyword::Lock, Keyword::Table)?;
            put_table_name(out, tables, *table)?;
            put_keys(out, Keyword::In, mode_key(*mode))?;
            put_key(out, Keyword::Mode)?;
            put_sign(out, Sign::Semicolon)
        }
    }
}
