//! The law that what is read meets the rules.
ghost use Rattle.std.specs.Prelude.{◌≡◌, ℕ, List, None};
ghost use Rattle.std.specs.List.{AllByRecursion};
ghost use Rattle.sql_base.specs.Scripts.{IsScript};
ghost use Rattle.statement_words.specs.Spans.{IsFormed};
ghost use Rattle.statement_words.specs.declared.tokens.Token.{Token};
ghost use Rattle.statement_draft.specs.Judging.{read, script_of};

/// Words that are read without fault say a script that meets every rule.
pub fn scripts_meet_rules()
    ensures { (tokens : List Token) (at : ℕ) → AllByRecursion IsFormed tokens → (read tokens at).first ≡ None → IsScript (script_of (read tokens at)) }
{}
