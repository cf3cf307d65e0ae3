//! The laws of codes, each the contract of a function that does nothing.

ghost use Rattle.predicate_codes.specs.Laws.{KeepsRows, OneExpression, ReadsCodes, ReadsPredicates, ReadsFilters, ReadsSets};

/// Bytes are read as an expression, a filter or a SET list exactly where they are its code, and it is well typed and within the limits.
pub fn codes_are_read()
    ensures expressions { ReadsCodes }
    ensures predicates { ReadsPredicates }
    ensures filters { ReadsFilters }
    ensures sets { ReadsSets }
{}

/// An UPDATE leaves a row of its table.
pub fn rows_are_kept()
    ensures { KeepsRows }
{}

/// A code stands for one expression at most.
pub fn codes_differ()
    ensures { OneExpression }
{}
