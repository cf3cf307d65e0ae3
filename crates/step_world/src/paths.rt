//! What becomes of messages on their paths.
ghost use Rattle.std.specs.Prelude.{◌≡◌};
ghost use Rattle.outside.specs.Wire.{is_loss};

use outside::Passage;

/// Whether a message or its reply is lost.
pub fn is_loss(passage: Passage) -> bool
    ensures { result ≡ is_loss passage }
{
    match passage {
        Passage::LoseRequest | Passage::LoseReply => true,
        Passage::Carry | Passage::Repeat => false,
    }
}
