//! What follows the word that begins a part, and which parts may have no words.
ghost use Rattle.std.specs.Prelude.{◌≡◌, option_map};
ghost use Rattle.statement_grammar.specs.Grammar.{behind, may_be_empty};

use crate::declarations::{
    check_behind, column_or_key_behind, first_keys_behind, kind_behind, limit_behind,
    literal_behind, loads_behind, more_checks_behind, more_firsts_behind, more_keys_behind,
    more_literals_behind, more_rows_behind, row_behind, table_behind,
};
use crate::expressions::{
    and_behind, compare_behind, condition_behind, operand_behind, or_behind, product_behind,
    sum_behind,
};
use crate::statements::{
    change_behind, mode_behind, more_selected_behind, more_sets_behind, read_behind,
    selected_behind, session_behind, sets_behind, where_behind, work_behind,
};
use crate::symbols::{Limit, Part, Symbol};
use statement_words::Word;

/// What must follow the word, where it begins the part.
#[tactic(auto, unfolding(crate::specs::Grammar::behind))]
pub fn behind(part: Part, word: &Word) -> Option<&'static [Symbol]>
    ensures { option_map (λ s. s.now) result ≡ behind part word.now }
{
    match part {
        Part::Limit(limit) => limit_behind(limit, word),
        Part::Table => table_behind(word),
        Part::MoreTables => table_behind(word),
        Part::ColumnKind => kind_behind(word),
        Part::ColumnOrKey => column_or_key_behind(word),
        Part::MoreKeyColumns => more_keys_behind(word),
        Part::MoreChecks => more_checks_behind(word),
        Part::Check => check_behind(word),
        Part::FirstKeys => first_keys_behind(word),
        Part::MoreFirstKeys => more_firsts_behind(word),
        Part::Row => row_behind(word),
        Part::Literal => literal_behind(word),
        Part::MoreLiterals => more_literals_behind(word),
        Part::Loads => loads_behind(word),
        Part::MoreLoadRows => more_rows_behind(word),
        Part::Session => session_behind(word),
        Part::MoreSessions => session_behind(word),
        Part::Work => work_behind(word),
        Part::MoreStatements => work_behind(word),
        Part::MoreWorks => work_behind(word),
        Part::Selected => selected_behind(word),
        Part::MoreSelected => more_selected_behind(word),
        Part::Where => where_behind(word),
        Part::Sets => sets_behind(word),
        Part::MoreSets => more_sets_behind(word),
        Part::ReadAccess => read_behind(word),
        Part::ChangeAccess => change_behind(word),
        Part::LockMode => mode_behind(word),
        Part::Expression => condition_behind(word),
        Part::Condition => condition_behind(word),
        Part::Operand => operand_behind(word),
        Part::ProductRest => product_behind(word),
        Part::SumRest => sum_behind(word),
        Part::CompareRest => compare_behind(word),
        Part::AndRest => and_behind(word),
        Part::OrRest => or_behind(word),
    }
}

/// Whether a part may have no words.
pub fn may_be_empty(part: Part) -> bool
    ensures { result ≡ may_be_empty part }
{
    match part {
        Part::Limit(_) => true,
        Part::Table => false,
        Part::MoreTables => true,
        Part::ColumnKind => false,
        Part::ColumnOrKey => false,
        Part::MoreKeyColumns => true,
        Part::MoreChecks => true,
        Part::Check => false,
        Part::FirstKeys => true,
        Part::MoreFirstKeys => true,
        Part::Row => false,
        Part::Literal => false,
        Part::MoreLiterals => true,
        Part::Loads => true,
        Part::MoreLoadRows => true,
        Part::Session => false,
        Part::MoreSessions => true,
        Part::Work => false,
        Part::MoreStatements => false,
        Part::MoreWorks => true,
        Part::Selected => false,
        Part::MoreSelected => true,
        Part::Where => true,
        Part::Sets => false,
        Part::MoreSets => true,
        Part::ReadAccess => false,
        Part::ChangeAccess => false,
        Part::LockMode => false,
        Part::Expression => false,
        Part::Condition => false,
        Part::Operand => false,
        Part::ProductRest => true,
        Part::SumRest => true,
        Part::CompareRest => true,
        Part::AndRest => true,
        Part::OrRest => true,
    }
}
