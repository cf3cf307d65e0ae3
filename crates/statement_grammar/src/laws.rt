//! The law that a word is refused rightly.
ghost use Rattle.statement_grammar.specs.Completing.{GoOn, Stop};

/// A word is unexpected exactly where no script begins with the words up to it.
pub fn unexpected_begins_no_script()
    ensures go_on { GoOn }
    ensures stop { Stop }
{}
