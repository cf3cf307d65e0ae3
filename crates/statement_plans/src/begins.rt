//! The Begins of the pieces of a range.
ghost use Rattle.std.specs.Prelude.{◌≡◌, ◌≤◌, ◌<◌, length, map, option_map, All, IfOk, true};
ghost use Rattle.partition_map.specs.Map.{cut};
ghost use Rattle.session_grammar.specs.Plans.{filter_code};
ghost use Rattle.sql_base.specs.Rows.{key_kinds, key_width};
ghost use Rattle.sql_base.specs.Tables.{IsFilter, are_leading};
ghost use Rattle.statement_plans.specs.Scaffold.Begins.{begin_of, sent_in};

use dp_messages::Ask;
use partition_cuts::cut;
use predicate_runner::compile;
use session_grammar::Sent;
use sql_base::{Access, Code, Expr, KeyRange, List, NoMemory, Prefix, TableDef, common_prefix};
use std::alloc::Global;

/// What a statement begins a subset with, beside the granule and the piece.
#[derive(Debug, Drop)]
pub(crate) enum Begin {
    Read {
        access: Access,
        filter: Option<Code>,
        columns: List<u8>,
    },
    Update {
        access: Access,
        filter: Option<Code>,
        sets: Code,
    },
    Delete {
        access: Access,
        filter: Option<Code>,
    },
}

impl Begin {
    fn ask(&self, granule: Prefix, range: KeyRange) -> Result<Ask, NoMemory>
        ensures { IfOk result (λ ask. ask ≡ begin_of self.now granule range) }
    {
        Ok(match self {
            Begin::Read {
                access,
                filter,
                columns,
            } => Ask::BeginRead {
                access: *access,
                granule,
                range,
                filter: copy_of(filter)?,
                columns: columns_copy(columns)?,
            },
            Begin::Update {
                access,
                filter,
                sets,
            } => Ask::BeginUpdate {
                access: *access,
                granule,
                range,
                filter: copy_of(filter)?,
                sets: code_copy(sets)?,
            },
            Begin::Delete { access, filter } => Ask::BeginDelete {
                access: *access,
                granule,
                range,
                filter: copy_of(filter)?,
            },
        })
    }
}

fn copy_of(filter: &Option<Code>) -> Result<Option<Code>, NoMemory>
    ensures { IfOk result (λ copy. copy ≡ filter.now) }
{
    match filter {
        Some(code) => Ok(Some(code_copy(code)?)),
        None => Ok(None),
    }
}

fn code_copy(code: &Code) -> Result<Code, NoMemory>
    ensures { IfOk result (λ copy. copy ≡ code.now) }
{
    Ok(code.clone()?)
}

/// A copy of a list of columns.
pub(crate) fn columns_copy(columns: &List<u8>) -> Result<List<u8>, NoMemory>
    ensures { IfOk result (λ copy. copy ≡ columns.now) }
{
    Ok(columns.clone()?)
}

/// The code of a predicate of the table, where there is one.
pub(crate) fn filter_code(
    alloc: Global,
    filter: &Option<Expr>,
    table: &TableDef,
) -> Result<Option<Code>, NoMemory>
    requires { IsFilter table.now filter.now }
    ensures { IfOk result (λ code. code ≡ filter_code filter.now) }
{
    match filter {
        Some(predicate) => Ok(Some(compile(alloc, predicate, table)?)),
        None => Ok(None),
    }
}

/// A Begin in each partition where a piece of the range lies, in rising partitions; the table's first has this number.
pub(crate) fn begins(
    alloc: Global,
    table: &TableDef,
    first: u32,
    range: &KeyRange,
    begin: &Begin,
) -> Result<List<Sent>, NoMemory>
    requires key { All (λ c. c < length table.now.columns) table.now.key }
    requires key_bytes { key_width table.now ≤ 32 }
    requires firsts { length table.now.firsts ≤ 15 }
    requires leading { All (λ given. are_leading (key_kinds table.now) given ≡ true) table.now.firsts }
    requires few { first ≤ 16 }
    ensures { IfOk result (λ sents. sents ≡ map (sent_in first range.now begin.now) (cut table.now range.now)) }
{
    let mut sents = List::new(alloc);
    for piece in cut(alloc, table, range)?.into_vec() {
        let granule = common_prefix(alloc, range)?;
        let ask = begin.ask(granule, piece.range)?;
        sents.push(Sent {
            part: first + piece.part,
            ask,
        })?;
    }
    Ok(sents)
}
