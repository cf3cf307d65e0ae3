//! What is made of the words of a script so far.
use crate::faults::Fault;
use crate::kinds::{Operand, Operator};
use sql_base::{
    Access, Assign, ColumnKind, Expr, Key, Limits, List, Load, Mode, Name, Row, Statement,
    TableDef, Value, Work,
};
use statement_grammar::Stack;

/// A name and its place.
#[derive(Debug, Drop)]
pub struct NameAt {
    pub name: Name,
    pub at: u32,
}

/// The table that is being declared.
#[derive(Debug, Drop)]
pub struct NewTable {
    pub def: TableDef,
    /// The column whose kind is still to come.
    pub column: Name,
    pub column_at: u32,
    /// The bytes of a row, counted up to 257.
    pub width: u16,
    /// The bytes of a key, counted up to 33.
    pub key_width: u16,
    pub check_at: u32,
    /// The first key of the last partition so far.
    pub last: Key,
}

/// What a row is for.
#[derive(Clone, Copy, Debug)]
pub enum RowOf {
    FirstKey,
    Load,
    Insert,
}

/// The row that is being read.
#[derive(Debug, Drop)]
pub struct NewRow {
    pub of: RowOf,
    /// The kinds of its columns, unless its table is unknown.
    pub kinds: Option<List<ColumnKind>>,
    /// The place of its `(`.
    pub at: u32,
    /// The place of the last `-` in it.
    pub minus: u32,
    pub values: List<Value>,
}

/// The LOAD that is being read.
#[derive(Debug, Drop)]
pub struct NewLoad {
    pub table: Option<u8>,
    pub last: Option<Key>,
    pub rows: List<Row>,
}

/// Whose columns the names of an expression are.
#[derive(Clone, Copy, Debug)]
pub enum Scope {
    NewTable,
    Table(u8),
    Unknown,
}

/// The expression that is being read.
#[derive(Debug, Drop)]
pub struct NewExpression {
    /// The place of its first word.
    pub at: u32,
    /// How many parentheses are open, counted up to 65.
    pub inside: u8,
    pub operands: Stack<Operand>,
    pub operators: Stack<Operator>,
    /// The first fault of its operators, which counts once the whole expression stands.
    pub first: Option<Fault>,
}

#[derive(Clone, Copy, Debug)]
pub enum StatementKind {
    Select,
    Update,
    Delete,
    Insert,
    Lock,
}

/// The statement that is being read.
#[derive(Debug, Drop)]
pub struct NewStatement {
    pub kind: StatementKind,
    /// The place of its first word.
    pub at: u32,
    pub table: Option<u8>,
    /// The names of a SELECT list, until its table is known; none where it is `*`.
    pub names: List<NameAt>,
    /// The columns of a SELECT list, or those set so far.
    pub columns: List<u8>,
    pub where_at: u32,
    pub filter: Option<Expr>,
    pub access: Access,
    pub mode: Mode,
    pub sets_at: u32,
    /// The column that is being set, and the place of its name.
    pub column: Option<u8>,
    pub column_at: u32,
    pub sets: List<Assign>,
    /// The bytes of the code of the SET list, counted up to 8,193.
    pub code: u16,
}

/// What is made of the words of a script so far.
#[derive(Debug, Drop)]
pub struct Draft {
    /// The first fault so far.
    pub first: Option<Fault>,
    pub limits: Limits,
    pub tables: List<TableDef>,
    pub loads: List<Load>,
    pub sessions: List<List<Work>>,
    /// How many records, works and statements there are, each counted up to one more than its limit.
    pub records: u32,
    pub works: u32,
    pub statements: u32,
    pub table: NewTable,
    pub row: NewRow,
    pub load: NewLoad,
    pub scope: Scope,
    pub expression: NewExpression,
    pub statement: NewStatement,
    /// The statements of the work that is being read, and whether it is committed.
    pub work: List<Statement>,
    pub commit: bool,
    /// The works of the session that is being read.
    pub session: List<Work>,
}
