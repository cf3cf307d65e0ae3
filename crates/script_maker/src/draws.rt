//! The generator of draws.
ghost use Rattle.std.specs.Prelude.{◌≡◌, ◌<◌};
ghost use Rattle.script_maker.specs.Making.{next_state, shown_below};

const MULTIPLIER: u64 = 6364136223846793005;

const INCREMENT: u64 = 1442695040888963407;

/// Where the draws stand.
#[derive(Debug, Drop)]
pub struct Draws {
    pub state: u64,
}

impl Draws {
    /// Draws a number below n.
    pub fn draw(&mut self, n: u32) -> u32
        requires { 0 < n }
        ensures state { self.new.state ≡ next_state self.old.state }
        ensures shown { result ≡ shown_below n self.new.state }
        ensures below { result < n }
    {
        self.state = self.state.wrapping_mul(MULTIPLIER).wrapping_add(INCREMENT);
        (self.state >> 33) as u32 % n
    }
}
