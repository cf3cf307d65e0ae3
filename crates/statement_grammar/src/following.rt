//! The symbols behind the word that begins a part.
use crate::symbols::{End, Fixed, Limit, NameRole, NumberRole, Part, Symbol};
use statement_words::{Keyword, Sign};

pub const QUANTUM: [Symbol; 2] = [
    Symbol::Number(NumberRole::Limit(Limit::Quantum)),
    Symbol::Fixed(Fixed::Sign(Sign::Semicolon)),
];

pub const BUFFER: [Symbol; 2] = [
    Symbol::Number(NumberRole::Limit(Limit::Buffer)),
    Symbol::Fixed(Fixed::Sign(Sign::Semicolon)),
];

pub const PATIENCE: [Symbol; 2] = [
    Symbol::Number(NumberRole::Limit(Limit::Patience)),
    Symbol::Fixed(Fixed::Sign(Sign::Semicolon)),
];

pub const SERVERS: [Symbol; 2] = [
    Symbol::Number(NumberRole::Limit(Limit::Servers)),
    Symbol::Fixed(Fixed::Sign(Sign::Semicolon)),
];

pub const RESTART: [Symbol; 2] = [
    Symbol::Number(NumberRole::Limit(Limit::Restart)),
    Symbol::Fixed(Fixed::Sign(Sign::Semicolon)),
];

pub const TABLE: [Symbol; 11] = [
    Symbol::Name(NameRole::NewTable),
    Symbol::Fixed(Fixed::Sign(Sign::Open)),
    Symbol::Name(NameRole::FirstColumn),
    Symbol::Part(Part::ColumnKind),
    Symbol::Fixed(Fixed::Sign(Sign::Comma)),
    Symbol::Part(Part::ColumnOrKey),
    Symbol::Fixed(Fixed::Sign(Sign::Close)),
    Symbol::Part(Part::FirstKeys),
    Symbol::Fixed(Fixed::Sign(Sign::Semicolon)),
    Symbol::Ended(End::Table),
    Symbol::Part(Part::MoreTables),
];

pub const CHAR_KIND: [Symbol; 3] = [
    Symbol::Fixed(Fixed::Sign(Sign::Open)),
    Symbol::Number(NumberRole::Width),
    Symbol::Fixed(Fixed::Sign(Sign::Close)),
];

pub const COLUMN: [Symbol; 3] = [
    Symbol::Part(Part::ColumnKind),
    Symbol::Fixed(Fixed::Sign(Sign::Comma)),
    Symbol::Part(Part::ColumnOrKey),
];

pub const KEY: [Symbol; 6] = [
    Symbol::Fixed(Fixed::Keyword(Keyword::Key)),
    Symbol::Fixed(Fixed::Sign(Sign::Open)),
    Symbol::Name(NameRole::KeyColumn),
    Symbol::Part(Part::MoreKeyColumns),
    Symbol::Fixed(Fixed::Sign(Sign::Close)),
    Symbol::Part(Part::MoreChecks),
];

pub const MORE_KEYS: [Symbol; 2] = [
    Symbol::Name(NameRole::KeyColumn),
    Symbol::Part(Part::MoreKeyColumns),
];

pub const MORE_CHECKS: [Symbol; 2] = [Symbol::Part(Part::Check), Symbol::Part(Part::MoreChecks)];

pub const CHECK: [Symbol; 6] = [
    Symbol::Fixed(Fixed::Sign(Sign::Open)),
    Symbol::Part(Part::Expression),
    Symbol::Part(Part::AndRest),
    Symbol::Part(Part::OrRest),
    Symbol::Ended(End::Check),
    Symbol::Fixed(Fixed::Sign(Sign::Close)),
];

pub const FIRST_KEYS: [Symbol; 4] = [
    Symbol::Fixed(Fixed::Keyword(Keyword::Key)),
    Symbol::Part(Part::Row),
    Symbol::Ended(End::FirstKey),
    Symbol::Part(Part::MoreFirstKeys),
];

pub const MORE_FIRSTS: [Symbol; 3] = [
    Symbol::Part(Part::Row),
    Symbol::Ended(End::FirstKey),
    Symbol::Part(Part::MoreFirstKeys),
];

pub const ROW: [Symbol; 3] = [
    Symbol::Part(Part::Literal),
    Symbol::Part(Part::MoreLiterals),
    Symbol::Fixed(Fixed::Sign(Sign::Close)),
];

pub const NEGATIVE: [Symbol; 1] = [Symbol::Number(NumberRole::Negative)];

pub const MORE_LITERALS: [Symbol; 2] = [
    Symbol::Part(Part::Literal),
    Symbol::Part(Part::MoreLiterals),
];

pub const LOADS: [Symbol; 7] = [
    Symbol::Name(NameRole::LoadTable),
    Symbol::Part(Part::Row),
    Symbol::Ended(End::LoadRow),
    Symbol::Part(Part::MoreLoadRows),
    Symbol::Fixed(Fixed::Sign(Sign::Semicolon)),
    Symbol::Ended(End::Load),
    Symbol::Part(Part::Loads),
];

pub const MORE_ROWS: [Symbol; 3] = [
    Symbol::Part(Part::Row),
    Symbol::Ended(End::LoadRow),
    Symbol::Part(Part::MoreLoadRows),
];

pub const SESSION: [Symbol; 4] = [
    Symbol::Fixed(Fixed::Sign(Sign::Semicolon)),
    Symbol::Part(Part::Work),
    Symbol::Ended(End::Session),
    Symbol::Part(Part::MoreSessions),
];

pub const SELECT: [Symbol; 10] = [
    Symbol::Part(Part::Selected),
    Symbol::Fixed(Fixed::Keyword(Keyword::From)),
    Symbol::Name(NameRole::SelectTable),
    Symbol::Part(Part::Where),
    Symbol::Fixed(Fixed::Keyword(Keyword::For)),
    Symbol::Part(Part::ReadAccess),
    Symbol::Fixed(Fixed::Keyword(Keyword::Access)),
    Symbol::Fixed(Fixed::Sign(Sign::Semicolon)),
    Symbol::Ended(End::Statement),
    Symbol::Part(Part::MoreStatements),
];

pub const UPDATE: [Symbol; 10] = [
    Symbol::Name(NameRole::OtherTable),
    Symbol::Part(Part::Sets),
    Symbol::Ended(End::Sets),
    Symbol::Part(Part::Where),
    Symbol::Fixed(Fixed::Keyword(Keyword::For)),
    Symbol::Part(Part::ChangeAccess),
    Symbol::Fixed(Fixed::Keyword(Keyword::Access)),
    Symbol::Fixed(Fixed::Sign(Sign::Semicolon)),
    Symbol::Ended(End::Statement),
    Symbol::Part(Part::MoreStatements),
];

pub const DELETE: [Symbol; 9] = [
    Symbol::Fixed(Fixed::Keyword(Keyword::From)),
    Symbol::Name(NameRole::OtherTable),
    Symbol::Part(Part::Where),
    Symbol::Fixed(Fixed::Keyword(Keyword::For)),
    Symbol::Part(Part::ChangeAccess),
    Symbol::Fixed(Fixed::Keyword(Keyword::Access)),
    Symbol::Fixed(Fixed::Sign(Sign::Semicolon)),
    Symbol::Ended(End::Statement),
    Symbol::Part(Part::MoreStatements),
];

pub const INSERT: [Symbol; 8] = [
    Symbol::Fixed(Fixed::Keyword(Keyword::Into)),
    Symbol::Name(NameRole::InsertTable),
    Symbol::Fixed(Fixed::Keyword(Keyword::Values)),
    Symbol::Part(Part::Row),
    Symbol::Ended(End::InsertRow),
    Symbol::Fixed(Fixed::Sign(Sign::Semicolon)),
    Symbol::Ended(End::Statement),
    Symbol::Part(Part::MoreStatements),
];

pub const LOCK: [Symbol; 8] = [
    Symbol::Fixed(Fixed::Keyword(Keyword::Table)),
    Symbol::Name(NameRole::OtherTable),
    Symbol::Fixed(Fixed::Keyword(Keyword::In)),
    Symbol::Part(Part::LockMode),
    Symbol::Fixed(Fixed::Keyword(Keyword::Mode)),
    Symbol::Fixed(Fixed::Sign(Sign::Semicolon)),
    Symbol::Ended(End::Statement),
    Symbol::Part(Part::MoreStatements),
];

pub const WORK_END: [Symbol; 4] = [
    Symbol::Fixed(Fixed::Keyword(Keyword::Work)),
    Symbol::Fixed(Fixed::Sign(Sign::Semicolon)),
    Symbol::Ended(End::Work),
    Symbol::Part(Part::MoreWorks),
];

pub const SELECTED: [Symbol; 1] = [Symbol::Part(Part::MoreSelected)];

pub const MORE_SELECTED: [Symbol; 2] = [
    Symbol::Name(NameRole::SelectColumn),
    Symbol::Part(Part::MoreSelected),
];

pub const WHERE: [Symbol; 4] = [
    Symbol::Part(Part::Expression),
    Symbol::Part(Part::AndRest),
    Symbol::Part(Part::OrRest),
    Symbol::Ended(End::Filter),
];

pub const SETS: [Symbol; 7] = [
    Symbol::Name(NameRole::SetColumn),
    Symbol::Fixed(Fixed::Sign(Sign::Equal)),
    Symbol::Part(Part::Expression),
    Symbol::Part(Part::AndRest),
    Symbol::Part(Part::OrRest),
    Symbol::Ended(End::Assign),
    Symbol::Part(Part::MoreSets),
];

pub const MORE_SETS: [Symbol; 7] = [
    Symbol::Name(NameRole::SetColumn),
    Symbol::Fixed(Fixed::Sign(Sign::Equal)),
    Symbol::Part(Part::Expression),
    Symbol::Part(Part::AndRest),
    Symbol::Part(Part::OrRest),
    Symbol::Ended(End::Assign),
    Symbol::Part(Part::MoreSets),
];

pub const NEGATIVE_OPERAND: [Symbol; 1] = [Symbol::Number(NumberRole::NegativeOperand)];

pub const INSIDE: [Symbol; 5] = [
    Symbol::Part(Part::Condition),
    Symbol::Part(Part::AndRest),
    Symbol::Part(Part::OrRest),
    Symbol::Fixed(Fixed::Sign(Sign::Close)),
    Symbol::Ended(End::Inside),
];

pub const NOT: [Symbol; 2] = [Symbol::Part(Part::Condition), Symbol::Ended(End::Operator)];

pub const COMPARISON_REST: [Symbol; 3] = [
    Symbol::Part(Part::ProductRest),
    Symbol::Part(Part::SumRest),
    Symbol::Part(Part::CompareRest),
];

pub const NEGATIVE_CONDITION: [Symbol; 4] = [
    Symbol::Number(NumberRole::NegativeOperand),
    Symbol::Part(Part::ProductRest),
    Symbol::Part(Part::SumRest),
    Symbol::Part(Part::CompareRest),
];

pub const INSIDE_CONDITION: [Symbol; 8] = [
    Symbol::Part(Part::Condition),
    Symbol::Part(Part::AndRest),
    Symbol::Part(Part::OrRest),
    Symbol::Fixed(Fixed::Sign(Sign::Close)),
    Symbol::Ended(End::Inside),
    Symbol::Part(Part::ProductRest),
    Symbol::Part(Part::SumRest),
    Symbol::Part(Part::CompareRest),
];

pub const OR: [Symbol; 4] = [
    Symbol::Part(Part::Condition),
    Symbol::Part(Part::AndRest),
    Symbol::Ended(End::Operator),
    Symbol::Part(Part::OrRest),
];

pub const AND: [Symbol; 3] = [
    Symbol::Part(Part::Condition),
    Symbol::Ended(End::Operator),
    Symbol::Part(Part::AndRest),
];

pub const COMPARE: [Symbol; 4] = [
    Symbol::Part(Part::Operand),
    Symbol::Part(Part::ProductRest),
    Symbol::Part(Part::SumRest),
    Symbol::Ended(End::Operator),
];

pub const SUM: [Symbol; 4] = [
    Symbol::Part(Part::Operand),
    Symbol::Part(Part::ProductRest),
    Symbol::Ended(End::Operator),
    Symbol::Part(Part::SumRest),
];

pub const PRODUCT: [Symbol; 3] = [
    Symbol::Part(Part::Operand),
    Symbol::Ended(End::Operator),
    Symbol::Part(Part::ProductRest),
];

/// A whole script.
pub const SCRIPT: [Symbol; 8] = [
    Symbol::Part(Part::Limit(Limit::Quantum)),
    Symbol::Part(Part::Limit(Limit::Buffer)),
    Symbol::Part(Part::Limit(Limit::Patience)),
    Symbol::Part(Part::Limit(Limit::Servers)),
    Symbol::Part(Part::Limit(Limit::Restart)),
    Symbol::Part(Part::Table),
    Symbol::Part(Part::Loads),
    Symbol::Part(Part::Session),
];
