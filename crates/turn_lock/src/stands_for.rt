//! What a turn lock may hold.
ghost use Rattle.std.specs.Prelude.{◌≡◌, List, length};

/// What a turn lock may hold: a value that has a history, which is a list of entries, a root, from which the history
/// began, and a state, which is what it is now. Contracts alone see them.
pub trait StandsFor {
    type Entry;

    type Root;

    ghost history: { Self → List Self.Entry };

    ghost root: { Self → Self.Root };

    ghost state: { Self → Self.Root };

    /// The length of the history.
    fn entries(&self) -> u64
        ensures { result ≡ length (history self.now) };
}
