//! What becomes of messages on their way.

ghost use Rattle.std.specs.Prelude.{◌≡◌, ◌≢◌, ◌≤◌, List, [], ◌∷◌, length, drop};
ghost use Rattle.outside.specs.declared.wire.Passage.{Passage};
ghost use Rattle.outside.specs.declared.wire.Passage.TheVariants.{Carry};

/// What becomes of a message that is sent.
#[derive(Clone, Copy, Debug, PartialEq, Eq)]
pub enum Passage {
    /// It arrives, and so does its reply.
    Carry,
    /// It arrives twice.
    Repeat,
    /// It is lost on its way.
    LoseRequest,
    /// It arrives, and its reply is lost.
    LoseReply,
}

/// What decides, for one session, which messages are lost or repeated.
///
/// Contracts see the answers that it tells from now on: those of `first`, and then those of
/// `round`, which has some, over and over.
pub trait Wire: Drop {
    ghost use Rattle.outside.specs.Wire.{Answers};

    ghost first: { Self → List Passage };

    ghost round: { Self → List Passage };

    /// Hears the number of the session, once, before the first `pass`.
    fn start(&mut self, number: u64)
        ensures same_first { first self.new ≡ first self.old }
        ensures same_round { round self.new ≡ round self.old }
        ensures goes_on { round self.new ≢ [] };

    /// Tells what becomes of the next message.
    fn pass(&mut self) -> Passage
        ensures answer { Answers (first self.old) (round self.old) result (first self.new) }
        ensures same_round { round self.new ≡ round self.old }
        ensures goes_on { round self.new ≢ [] };
}

/// A wire that goes round a list of answers.
#[derive(Debug, Drop)]
pub struct Cycle {
    answers: Vec<Passage>,
    next: usize,
    ghost filled: { answers.items ≢ [] },
    ghost in_range: { next ≤ length answers.items },
}

impl Cycle {
    /// The wire that tells the answers of the list in order, over and over.
    pub fn new(list: Vec<Passage>) -> Cycle
        requires { list.items ≢ [] }
        ensures first { ⟦<Cycle as Wire>⟧.first result ≡ [] }
        ensures round { ⟦<Cycle as Wire>⟧.round result ≡ list.items }
    {
        let next = list.len();
        Cycle {
            answers: list,
            next,
        }
    }
}

impl Wire for Cycle {
    ghost first = { λ cycle. drop cycle.next cycle.answers.items };

    ghost round = { λ cycle. cycle.answers.items };

    fn start(&mut self, _number: u64) {}

    fn pass(&mut self) -> Passage {
        if self.next == self.answers.len() {
            self.next = 0;
        }
        let answer = self.answers[self.next];
        self.next += 1;
        answer
    }
}

/// A wire that tells a list of answers once, and `Carry` from then on.
#[derive(Debug, Drop)]
pub struct Listed {
    answers: Vec<Passage>,
    next: usize,
    ghost in_range: { next ≤ length answers.items },
}

impl Listed {
    /// The wire that tells the answers of the list in order, and then `Carry`.
    pub fn new(list: Vec<Passage>) -> Listed
        ensures first { ⟦<Listed as Wire>⟧.first result ≡ list.items }
        ensures round { ⟦<Listed as Wire>⟧.round result ≡ Carry ∷ [] }
    {
        Listed {
            answers: list,
            next: 0,
        }
    }
}

impl Wire for Listed {
    ghost first = { λ listed. drop listed.next listed.answers.items };

    ghost round = { λ _. Carry ∷ [] };

    fn start(&mut self, _number: u64) {}

    fn pass(&mut self) -> Passage {
        if self.next == self.answers.len() {
            return Passage::Carry;
        }
        let answer = self.answers[self.next];
        self.next += 1;
        answer
    }
}
