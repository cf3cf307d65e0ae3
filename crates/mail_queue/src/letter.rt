//! What a mail carries.
ghost use Rattle.std.specs.Prelude.{◌≡◌, ℕ, List};

/// What a mail carries. Contracts see it as its bytes, its spelling.
pub trait Letter {
    ghost spelling: { Self → List ℕ };

    fn bytes(&self) -> &[u8]
        ensures { result.now ≡ spelling self.now };
}
