//! The ranges of predicates over tables of scripts, and their pieces.
ghost use Rattle.std.specs.Prelude.{◌≤◌, length};
ghost use Rattle.sql_base.specs.Scripts.{IsScript};
ghost use Rattle.sql_base.specs.Tables.{IsTable};

use crate::read_scripts::{script_of, statement_in, table_in};
use key_ranges::key_range;
use partition_cuts::cut;
use partition_map::Piece;
use sql_base::{Expr, KeyRange, NoMemory, Script, Statement, TableDef, common_prefix};
use std::alloc::Global;
use std::test::Fail;

/// The partition and the bounds of a piece.
type Part<'a> = (u32, &'a [u8], &'a [u8]);

/// A table, a predicate, the common prefix of its bounds, and the pieces of its range.
type Ranged<'a> = (&'a str, &'a str, &'a [u8], &'a [Part<'a>]);

const HALVES: &str = "TABLE t (k INT, PRIMARY KEY (k)) FIRST KEY (1000);";

const OWNED: &str = "TABLE t (own CHAR(2), k INT, PRIMARY KEY (own, k));";

const RANGES: [Ranged<'static>; 8] = [
    (
        HALVES,
        "k >= 999",
        b"",
        &[
            (0, b"\x80\0\0\0\0\0\x03\xE7", b"\x80\0\0\0\0\0\x03\xE7"),
            (
                1,
                b"\x80\0\0\0\0\0\x03\xE8",
                b"\xFF\xFF\xFF\xFF\xFF\xFF\xFF\xFF",
            ),
        ],
    ),
    (
        HALVES,
        "1000 = k",
        b"\x80\0\0\0\0\0\x03\xE8",
        &[(1, b"\x80\0\0\0\0\0\x03\xE8", b"\x80\0\0\0\0\0\x03\xE8")],
    ),
    (
        HALVES,
        "k < 1000",
        b"",
        &[(0, b"\0\0\0\0\0\0\0\0", b"\x80\0\0\0\0\0\x03\xE7")],
    ),
    // A disjunction limits nothing.
    (
        HALVES,
        "k = 1 OR k = 2",
        b"",
        &[
            (0, b"\0\0\0\0\0\0\0\0", b"\x80\0\0\0\0\0\x03\xE7"),
            (
                1,
                b"\x80\0\0\0\0\0\x03\xE8",
                b"\xFF\xFF\xFF\xFF\xFF\xFF\xFF\xFF",
            ),
        ],
    ),
    (
        OWNED,
        "own = 'AA' AND k > 5",
        b"AA",
        &[(
            0,
            b"AA\x80\0\0\0\0\0\0\x06",
            b"AA\xFF\xFF\xFF\xFF\xFF\xFF\xFF\xFF",
        )],
    ),
    // A shorter text counts with blanks, and a strict bound of a text as one that isn't.
    (
        OWNED,
        "own > 'A' AND own <= 'AB' AND k = 1",
        b"A",
        &[(
            0,
            b"A \0\0\0\0\0\0\0\0",
            b"AB\xFF\xFF\xFF\xFF\xFF\xFF\xFF\xFF",
        )],
    ),
    // A text that is longer than its column isn't usable.
    (
        OWNED,
        "own = 'AAA'",
        b"",
        &[(
            0,
            b"\0\0\0\0\0\0\0\0\0\0",
            b"\xFF\xFF\xFF\xFF\xFF\xFF\xFF\xFF\xFF\xFF",
        )],
    ),
    // Nothing is left.
    (HALVES, "k > 9 AND k < 3", b"", &[]),
];

fn are_pieces(pieces: &[Piece], wanted: &[Part<'_>]) -> bool {
    let mut same = pieces.len() == wanted.len();
    for (piece, (part, low, high)) in pieces.iter().zip(wanted) {
        same = same
            && piece.part == *part
            && piece.range.low.bytes() == *low
            && piece.range.high.bytes() == *high;
    }
    same
}

/// Whether the range has this common prefix and these pieces.
#[tactic(auto, using(crate::proofs::Openings::columns_within, crate::proofs::Openings::leading))]
fn is_cut(
    alloc: Global,
    table: &TableDef,
    range: &KeyRange,
    prefix: &[u8],
    pieces: &[Part<'_>],
) -> Result<bool, NoMemory>
    requires table { IsTable table.now }
    requires few { length table.now.firsts ≤ 15 }
{
    let common = common_prefix(alloc, range)?;
    let cuts = cut(alloc, table, range)?;
    Ok(common.bytes() == prefix && are_pieces(cuts.items(), pieces))
}

/// The predicate of a DELETE.
fn filter_of(statement: &Statement) -> Option<&Expr> {
    match statement {
        Statement::Delete { filter, .. } => filter.as_ref(),
        _ => None,
    }
}

/// Whether the predicate of the script's first statement has these pieces, or leaves nothing where there is none.
#[tactic(auto, using(crate::proofs::Openings::columns_within))]
fn is_ranged(
    alloc: Global,
    script: &Script,
    prefix: &[u8],
    pieces: &[Part<'_>],
) -> Result<bool, Fail>
    requires { IsScript script.now }
{
    let table = table_in(script)?;
    let filter = filter_of(statement_in(script, table, 0)?);
    match key_range(alloc, filter, table)? {
        Some(range) => Ok(is_cut(alloc, table, &range, prefix, pieces)?),
        None => Ok(pieces.is_empty()),
    }
}

#[test]
fn predicates_have_these_ranges(rt: HostRuntime) -> Result<(), Fail> {
    let alloc = rt.alloc();
    for (table, filter, prefix, pieces) in &RANGES {
        let script = script_of(
            alloc,
            &[
                table,
                "SESSION; DELETE FROM t WHERE",
                filter,
                "FOR STABLE ACCESS; COMMIT WORK;",
            ],
        )?;
        assert!(rt; is_ranged(alloc, &script, prefix, pieces)?, "{filter}");
    }
    Ok(())
}
