//! What holds of the machine of a session, and of the logs of the grammar.
ghost use Rattle.std.specs.Prelude.{◌+◌, length, ◌≡◌, ◌≢◌, ◌≤◌, ◌<◌, true, ◌↔◌, ◌++◌, ℕ, List, [], ◌∷◌};
ghost use Rattle.sql_base.specs.declared.scripts.Script.{Script};
ghost use Rattle.sql_base.specs.declared.scripts.Work.{Work};
ghost use Rattle.session_grammar.specs.declared.logs.Answer.{Answer};
ghost use Rattle.session_grammar.specs.declared.logs.LogEntry.{LogEntry};
ghost use Rattle.session_grammar.specs.Follows.{Attempt, Follows, FollowsInLine, IsInLine, IsPart, Reads, asker, works_of};
ghost use Rattle.session_grammar.specs.Sessions.{sync_behind};
ghost use Rattle.session_grammar.specs.Plans.{Asker};
ghost use Rattle.session_grammar.specs.Sessions.{IsSessionOf, MayCome, entries_kept};
ghost use Rattle.session_laws.specs.Scaffold.Machine.{At, Doing, Over, Place, Trying, after, works_at};
ghost use Rattle.session_laws.specs.Scaffold.Left.{is_redrive, is_repeat, left, spare_after, times, works_left};
ghost use Rattle.session_laws.specs.Scaffold.Leading.{BeginsInLine, Rest, StandsAt, next_behind};

/// A log follows in line just where it leads a session from its first place to its end.
/// It is the front of such a log just where it leads to a place, and follows just where that is the end.
pub fn leads_in_line()
    ensures follows { (r : Asker) (works : List Work) (log : List LogEntry) → FollowsInLine r works log ↔ StandsAt r works log Over }
    ensures fronts { (r : Asker) (works : List Work) (log : List LogEntry) → BeginsInLine r works log ↔ ((place : Place) × StandsAt r works log place) }
    ensures whole { (r : Asker) (works : List Work) (log : List LogEntry) (place : Place) → StandsAt r works log place → FollowsInLine r works log ↔ (place ≡ Over) }
    ensures rest { (r : Asker) (works : List Work) (log : List LogEntry) (rest : List LogEntry) (place : Place) → StandsAt r works log place → FollowsInLine r works (log ++ rest) ↔ Rest r (sync_behind 1 log) place rest }
{}

/// Each answer that may come to what a place has open leads on, and no entry may stand next but such a one.
pub fn steps_in_line()
    ensures goes_on { (r : Asker) (works : List Work) (log : List LogEntry) (place : Place) (answer : Answer) (losses : ℕ) → StandsAt r works log place → MayCome (next_behind r log place) answer losses → StandsAt r works (log ++ entries_kept (next_behind r log place) answer losses) (after r place answer) }
    ensures one_next { (r : Asker) (works : List Work) (log : List LogEntry) (place : Place) (e : LogEntry) → StandsAt r works log place → BeginsInLine r works (log ++ e ∷ []) → (answer : Answer) × (losses : ℕ) × MayCome (next_behind r log place) answer losses × (e ∷ [] ≡ entries_kept (next_behind r log place) answer losses) }
{}

/// A log in line has one reading, and isn't the front of another.
pub fn reads_in_line()
    ensures one_reading { (r : Asker) (works : List Work) (log : List LogEntry) (xs : List Attempt) (ys : List Attempt) → Reads IsInLine r works log xs → Reads IsInLine r works log ys → xs ≡ ys }
    ensures no_front { (r : Asker) (works : List Work) (log : List LogEntry) (rest : List LogEntry) → FollowsInLine r works log → FollowsInLine r works (log ++ rest) → rest ≡ [] }
{}

/// Any log has one reading, and none that follows is the front of another that does.
pub fn reads()
    ensures one_reading { (r : Asker) (works : List Work) (log : List LogEntry) (xs : List Attempt) (ys : List Attempt) → Reads IsPart r works log xs → Reads IsPart r works log ys → xs ≡ ys }
    ensures no_front { (r : Asker) (works : List Work) (log : List LogEntry) (rest : List LogEntry) → Follows r works log → Follows r works (log ++ rest) → rest ≡ [] }
{}

/// The contract of a session holds wherever its log has led it, for every script.
pub fn is_session()
    ensures { (script : Script) (number : ℕ) (log : List LogEntry) (place : Place) → StandsAt (asker script number) (works_of script number) log place → IsSessionOf script number (record { limits = script.limits; number = number; log = log; next = next_behind (asker script number) log place }) }
{}

/// Each answer leaves fewer to come, as long as each subset is redriven at most `n` times; a new session has no more left than its transactions allow.
pub fn ends()
    ensures fewer { (r : Asker) (n : ℕ) (spare : ℕ) (place : Place) (answer : Answer) → place ≢ Over → (is_redrive r n place answer ≡ true → spare ≢ 0) → left r n (spare_after r n (is_redrive r n place answer) (is_repeat r n place answer) spare) (after r place answer) < left r n spare place }
    ensures first { (r : Asker) (n : ℕ) (works : List Work) → left r n n (works_at r 1 works) ≤ works_left r n works }
{}

/// The ordinals of a session's attempts stay within what its transactions and their restarts allow.
pub fn few_attempts()
    ensures { (r : Asker) (works : List Work) (log : List LogEntry) (t : Trying) (seen : List ℕ) (doing : Doing) → StandsAt r works log (At t seen doing) → t.ordinal + t.restarts + times (length t.works) (r.limits.restart + 1) ≤ times (length works) (r.limits.restart + 1) }
{}
