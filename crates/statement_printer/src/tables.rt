//! The bytes of limits, tables and their records.
ghost use Rattle.std.specs.Prelude.{◌≡◌, ◌++◌, ◌∷◌, [], OnOk, flat_map, slice_get};
ghost use Rattle.statement_words.specs.declared.tokens.Sign.TheVariants as signs;
ghost use Rattle.statement_printer.specs.Bytes.{bytes_of, with_gap};
ghost use Rattle.statement_printer.specs.Printing.{check_words, declaration, declared_words, first_words, firsts_words, key_words, kind_words, limit_words, limits_words, load_words, place_words, restart_words, row_words, sign, table_name, table_words, with_commas};

use crate::expressions::put_expr;
use crate::values::{put_columns, put_first, put_row};
use crate::words::{put_key, put_keys, put_name, put_number, put_sign};
use sql_base::{Column, ColumnKind, Expr, Limits, Load, NoMemory, Row, TableDef};
use statement_words::{Keyword, Sign};

#[tactic(auto, unfolding(crate::specs::Printing::limit_words))]
fn put_limit(out: &mut Vec<u8>, keyword: Keyword, number: u32) -> Result<(), NoMemory>
    ensures { OnOk result (out.new.items ≡ out.old.items ++ bytes_of (limit_words keyword number)) }
{
    put_key(out, keyword)?;
    put_number(out, u64::from(number))?;
    put_sign(out, Sign::Semicolon)
}

fn put_restart(out: &mut Vec<u8>, number: u32) -> Result<(), NoMemory>
    ensures { OnOk result (out.new.items ≡ out.old.items ++ bytes_of (restart_words number)) }
{
    if number == 0 {
        return Ok(());
    }
    put_limit(out, Keyword::Restart, number)
}

pub fn put_limits(out: &mut Vec<u8>, limits: &Limits) -> Result<(), NoMemory>
    ensures { OnOk result (out.new.items ≡ out.old.items ++ bytes_of (limits_words limits.now)) }
{
    put_limit(out, Keyword::Quantum, limits.quantum)?;
    put_limit(out, Keyword::Buffer, limits.buffer)?;
    put_limit(out, Keyword::Patience, limits.patience)?;
    put_limit(out, Keyword::Servers, limits.servers)?;
    put_restart(out, limits.restart)
}

fn put_kind(out: &mut Vec<u8>, kind: ColumnKind) -> Result<(), NoMemory>
    ensures { OnOk result (out.new.items ≡ out.old.items ++ bytes_of (kind_words kind)) }
{
    match kind {
        ColumnKind::Int => put_key(out, Keyword::Int),
        ColumnKind::Char(width) => {
            put_key(out, Keyword::Char)?;
            put_sign(out, Sign::Open)?;
            put_number(out, u64::from(width))?;
            put_sign(out, Sign::Close)
        }
    }
}

fn put_declared(out: &mut Vec<u8>, column: &Column) -> Result<(), NoMemory>
    ensures { OnOk result (out.new.items ≡ out.old.items ++ bytes_of (declared_words column.now)) }
{
    put_name(out, column.name.bytes())?;
    put_kind(out, column.kind)?;
    put_sign(out, Sign::Comma)
}

fn put_all_declared(out: &mut Vec<u8>, columns: &[Column]) -> Result<(), NoMemory>
    ensures { OnOk result (out.new.items ≡ out.old.items ++ bytes_of (flat_map declared_words columns.now)) }
{
    for column in columns {
        put_declared(out, column)?;
    }
    Ok(())
}

#[tactic(auto, unfolding(crate::specs::Printing::place_words))]
fn put_places(out: &mut Vec<u8>, columns: &[Column], places: &[u8]) -> Result<(), NoMemory>
    ensures { OnOk result (out.new.items ≡ out.old.items ++ bytes_of (place_words columns.now places.now)) }
{
    put_sign(out, Sign::Open)?;
    put_columns(out, columns, places)?;
    put_sign(out, Sign::Close)
}

#[tactic(auto, unfolding(crate::specs::Printing::key_words))]
fn put_primary_key(out: &mut Vec<u8>, columns: &[Column], places: &[u8]) -> Result<(), NoMemory>
    ensures { OnOk result (out.new.items ≡ out.old.items ++ bytes_of (key_words columns.now places.now)) }
{
    put_keys(out, Keyword::Primary, Keyword::Key)?;
    put_places(out, columns, places)
}

fn put_check(out: &mut Vec<u8>, columns: &[Column], e: &Expr) -> Result<(), NoMemory>
    ensures { OnOk result (out.new.items ≡ out.old.items ++ bytes_of (check_words columns.now e.now)) }
{
    put_sign(out, Sign::Comma)?;
    put_key(out, Keyword::Check)?;
    put_sign(out, Sign::Open)?;
    put_expr(out, columns, e)?;
    put_sign(out, Sign::Close)
}

fn put_checks(out: &mut Vec<u8>, columns: &[Column], checks: &[Expr]) -> Result<(), NoMemory>
    ensures { OnOk result (out.new.items ≡ out.old.items ++ bytes_of (flat_map (check_words columns.now) checks.now)) }
{
    for check in checks {
        put_check(out, columns, check)?;
    }
    Ok(())
}

fn put_another_first(out: &mut Vec<u8>, row: &Row) -> Result<(), NoMemory>
    ensures { OnOk result (out.new.items ≡ out.old.items ++ bytes_of (sign signs.Comma ∷ first_words row.now)) }
{
    put_sign(out, Sign::Comma)?;
    put_first(out, row)
}

fn put_another_firsts(out: &mut Vec<u8>, rows: &[Row]) -> Result<(), NoMemory>
    ensures { OnOk result (out.new.items ≡ out.old.items ++ bytes_of (flat_map (λ x. sign signs.Comma ∷ first_words x) rows.now)) }
{
    for row in rows {
        put_another_first(out, row)?;
    }
    Ok(())
}

fn put_all_firsts(out: &mut Vec<u8>, firsts: &[Row]) -> Result<(), NoMemory>
    ensures { OnOk result (out.new.items ≡ out.old.items ++ bytes_of (with_commas first_words firsts.now)) }
{
    match firsts {
        [] => Ok(()),
        [first, rest @ ..] => {
            put_first(out, first)?;
            put_another_firsts(out, rest)
        }
    }
}

fn put_firsts(out: &mut Vec<u8>, firsts: &[Row]) -> Result<(), NoMemory>
    ensures { OnOk result (out.new.items ≡ out.old.items ++ bytes_of (firsts_words firsts.now)) }
{
    match firsts {
        [] => Ok(()),
        [_, ..] => {
            put_keys(out, Keyword::First, Keyword::Key)?;
            put_all_firsts(out, firsts)
        }
    }
}

fn put_declaration(out: &mut Vec<u8>, table: &TableDef) -> Result<(), NoMemory>
    ensures { OnOk result (out.new.items ≡ out.old.items ++ bytes_of (declaration table.now)) }
{
    let columns = table.columns.items();
    put_all_declared(out, columns)?;
    put_primary_key(out, columns, table.key.items())?;
    put_checks(out, columns, table.checks.items())
}

pub fn put_table(out: &mut Vec<u8>, table: &TableDef) -> Result<(), NoMemory>
    ensures { OnOk result (out.new.items ≡ out.old.items ++ bytes_of (table_words table.now)) }
{
    put_key(out, Keyword::Table)?;
    put_name(out, table.name.bytes())?;
    put_sign(out, Sign::Open)?;
    put_declaration(out, table)?;
    put_sign(out, Sign::Close)?;
    put_firsts(out, table.firsts.items())?;
    put_sign(out, Sign::Semicolon)
}

fn put_another_row(out: &mut Vec<u8>, row: &Row) -> Result<(), NoMemory>
    ensures { OnOk result (out.new.items ≡ out.old.items ++ bytes_of (sign signs.Comma ∷ row_words row.now)) }
{
    put_sign(out, Sign::Comma)?;
    put_row(out, row)
}

fn put_another_rows(out: &mut Vec<u8>, rows: &[Row]) -> Result<(), NoMemory>
    ensures { OnOk result (out.new.items ≡ out.old.items ++ bytes_of (flat_map (λ x. sign signs.Comma ∷ row_words x) rows.now)) }
{
    for row in rows {
        put_another_row(out, row)?;
    }
    Ok(())
}

fn put_rows(out: &mut Vec<u8>, rows: &[Row]) -> Result<(), NoMemory>
    ensures { OnOk result (out.new.items ≡ out.old.items ++ bytes_of (with_commas row_words rows.now)) }
{
    match rows {
        [] => Ok(()),
        [row, rest @ ..] => {
            put_row(out, row)?;
            put_another_rows(out, rest)
        }
    }
}

/// Adds the name of the table at a place.
pub fn put_table_name(out: &mut Vec<u8>, tables: &[TableDef], place: u8) -> Result<(), NoMemory>
    ensures { OnOk result (out.new.items ≡ out.old.items ++ with_gap (table_name (slice_get tables.now place))) }
{
    match tables.get(place as usize) {
        Some(table) => put_name(out, table.name.bytes()),
        None => put_name(out, &[]),
    }
}

pub fn put_load(out: &mut Vec<u8>, tables: &[TableDef], load: &Load) -> Result<(), NoMemory>
    ensures { OnOk result (out.new.items ≡ out.old.items ++ bytes_of (load_words tables.now load.now)) }
{
    put_key(out, Keyword::Load)?;
    put_table_name(out, tables, load.table)?;
    put_rows(out, load.rows.items())?;
    put_sign(out, Sign::Semicolon)
}
