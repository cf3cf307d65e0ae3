//! Laws of what is known of expressions and limits.
ghost use Rattle.sql_base.specs.declared.tables.TableDef.{TableDef};
ghost use Rattle.statement_draft.specs.Describing.{LeavesDescribe, OperandsKept, WholeIsPredicate, OperatorsDescribe, NotDescribes, LimitsKept};

/// What is known of an operand is so of its tree; limits without fault lie in their ranges.
pub fn drafts_are_true()
    ensures operators { OperatorsDescribe }
    ensures negations { NotDescribes }
    ensures leaves { (table : TableDef) → LeavesDescribe table }
    ensures operands { OperandsKept }
    ensures wholes { WholeIsPredicate }
    ensures limits { LimitsKept }
{}
