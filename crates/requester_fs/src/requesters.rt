//! What works for a session: it says what is to be done next, and takes what came of it.
ghost use Rattle.std.specs.Prelude.{◌≡◌, ◌≤◌, ◌<◌, ◌++◌, ◌↔◌, ℕ, List, [], OnOk};
ghost use Rattle.session_grammar.specs.Sessions.{MayCome, entries_kept, fits_next, shown};
ghost use Rattle.session_grammar.specs.UnderWay.{Awaiting};
ghost use Rattle.session_grammar.specs.declared.logs.LogEntry.{LogEntry as Entry};
ghost use Rattle.requester_fs.specs.Asking.{Advances, HasTaken, IsAsking, IsSame, IsSpelled, next_at, places_of};

use dp_messages::Reply;
use session_grammar::{Action, Answer, LogEntry};
use sql_base::{List, NoMemory};

/// What works for one session of a script, without waiting for anybody.
///
/// It may have several requests under way, each to a partition of its own, in rising partitions; the places count
/// from 0. The request at a place stays under way until it is answered. A driver gives each answer to the place that
/// asked for it, and stops once the first place says that it has finished.
pub trait Requester: Drop {
    ghost use Rattle.requester_fs.specs.Asking.{Asking};

    /// What contracts see of it.
    ghost asking: { Self → Asking };

    /// That it never has more than one place.
    ghost single: { Self → Type 0 };

    /// What its log is known to be once it has finished, beyond that the script allows it.
    ghost allows: { Self → List Entry → Type 0 };

    /// How many answers it may still take, where each redrive comes with a key that has fewer of some keys above it;
    /// so many stand above each key, and at most n.
    ghost left: { Self → (List ℕ → ℕ) → ℕ → ℕ };

    /// How many places there are, one at least.
    fn places(&self) -> u32
        ensures counted { result ≡ places_of (asking self.now).way }
        ensures one { single self.now → result ≡ 1 };

    /// What is to be done at a place.
    fn at(&self, place: u32) -> Action<'_>
        requires { place < places_of (asking self.now).way }
        ensures { shown result ≡ next_at (asking self.now).way place };

    /// Whether a request stands at the place to which this reply may come. It takes no memory.
    fn fits(&self, place: u32, reply: &Reply) -> bool
        requires { place < places_of (asking self.now).way }
        ensures { result ≡ fits_next (next_at (asking self.now).way place) reply.now };

    /// Takes what came of the action at a place, after so many losses: the reply to its request or that its path
    /// failed, or the stamp of its commit. After want of memory nothing more is known of the requester.
    fn answer(&mut self, place: u32, answer: Answer, losses: u32) -> Result<(), NoMemory>
        requires place { place < places_of (asking self.old).way }
        requires comes { MayCome (next_at (asking self.old).way place) answer losses }
        requires spelled { IsSpelled answer }
        ensures same { OnOk result (IsSame (asking self.old) (asking self.new)) }
        ensures taken { OnOk result (HasTaken (asking self.old) (next_at (asking self.old).way place) answer losses (asking self.new)) }
        ensures asking { OnOk result (IsAsking (asking self.new)) }
        ensures single { OnOk result (single self.new ↔ single self.old) }
        ensures allows { OnOk result ((log : List Entry) → allows self.new log ↔ allows self.old log) }
        ensures fewer { OnOk result ((above : List ℕ → ℕ) (n : ℕ) → ((key : List ℕ) → above key ≤ n) → Advances above n (next_at (asking self.old).way place) answer → left self.new above n < left self.old above n) }
        ensures one { OnOk result (single self.new → places_of (asking self.new).way ≡ 1) }
        ensures in_order { OnOk result (single self.old → (asking self.new).log ≡ (asking self.old).log ++ entries_kept (next_at (asking self.old).way place) answer losses) };

    /// The log of a requester that has finished.
    fn ended(self) -> List<LogEntry>
        requires { (asking self).way ≡ Awaiting [] }
        ensures log { result ≡ (asking self).log }
        ensures allowed { allows self result };
}
