//! What must come in a script: words, parts and ends.
use statement_words::{Keyword, Sign};

/// A word that is always written alike.
#[derive(Clone, Copy, Debug)]
pub enum Fixed {
    Keyword(Keyword),
    Sign(Sign),
}

/// The limits of a run, by their words.
#[derive(Clone, Copy, Debug)]
pub enum Limit {
    Quantum,
    Buffer,
    Patience,
    Servers,
    Restart,
}

/// What a name that must come stands for.
#[derive(Clone, Copy, Debug)]
pub enum NameRole {
    NewTable,
    FirstColumn,
    KeyColumn,
    LoadTable,
    SelectTable,
    OtherTable,
    InsertTable,
    SetColumn,
    SelectColumn,
}

/// What a number that must come stands for.
#[derive(Clone, Copy, Debug)]
pub enum NumberRole {
    Limit(Limit),
    Width,
    /// Behind the `-` of a literal.
    Negative,
    /// Behind the `-` of an operand.
    NegativeOperand,
}

/// A part of a script, known by the word that begins it.
#[derive(Clone, Copy, Debug)]
pub enum Part {
    Limit(Limit),
    Table,
    MoreTables,
    ColumnKind,
    ColumnOrKey,
    MoreKeyColumns,
    MoreChecks,
    Check,
    FirstKeys,
    MoreFirstKeys,
    Row,
    Literal,
    MoreLiterals,
    Loads,
    MoreLoadRows,
    Session,
    MoreSessions,
    Work,
    MoreStatements,
    MoreWorks,
    Selected,
    MoreSelected,
    Where,
    Sets,
    MoreSets,
    ReadAccess,
    ChangeAccess,
    LockMode,
    /// A whole expression, up to its first AND.
    Expression,
    /// What AND and OR join, and what NOT turns.
    Condition,
    /// What arithmetic and comparisons join.
    Operand,
    ProductRest,
    SumRest,
    CompareRest,
    AndRest,
    OrRest,
}

/// What has ended, once all its words have come.
#[derive(Clone, Copy, Debug)]
pub enum End {
    Table,
    FirstKey,
    LoadRow,
    Load,
    InsertRow,
    Check,
    Filter,
    Assign,
    Sets,
    /// An operator, with its operands.
    Operator,
    /// A parenthesis in an expression.
    Inside,
    Statement,
    Work,
    Session,
}

/// What must come next in a script, or has ended there.
#[derive(Clone, Copy, Debug)]
pub enum Symbol {
    Fixed(Fixed),
    Name(NameRole),
    Number(NumberRole),
    Part(Part),
    Ended(End),
}
