//! The laws of keys and redrives, each the contract of a function that does nothing.

ghost use Rattle.ending_laws.specs.Laws.{FewAbove, KeysHeld, RedrivesAdvance};
ghost use Rattle.ending_laws.specs.Measures.{AnswersFall, RunsFall, SendingsFall};

/// In a record that is legal so far each partition holds keys of the script alone: those of its LOAD rows and of its INSERT rows.
pub fn keys_held()
    ensures { KeysHeld }
{}

/// Of the keys of a script, at most as many as there are stand above any. A redrive comes with a key that has fewer
/// above it than that behind which the subset was to go on; where the subset was begun, fewer than there are.
pub fn redrives_advance()
    ensures few { FewAbove }
    ensures advance { RedrivesAdvance }
{}

/// Each action of a run leaves less to do: a sending outweighs the messages that it leaves, and an answer the sendings behind it.
pub fn actions_fall<S, D>()
    ensures sendings { SendingsFall }
    ensures answers { AnswersFall }
    ensures runs { RunsFall S D }
{}
