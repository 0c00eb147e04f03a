ghost use Rattle.std.specs.Prelude.{◌≡◌, ◌<◌};
ghost use Rattle.script_lines.specs.Draws.{next, draw};

use std::marker::Model;

/// Numbers that look random, and are the same for each seed.
#[derive(Drop)]
pub struct Draws {
    state: u64,
}

impl Model for Draws {
    ghost use Rattle.std.specs.Prelude.{ℕ};

    ghost Value = { ℕ };

    ghost view = { λ d. d.state };
}

impl Draws {
    /// The numbers of a seed.
    pub fn new(seed: u64) -> Self
        ensures { result ≡ seed }
    {
        Draws { state: seed }
    }

    /// The next number, from 0 on and below `count`.
    #[tactic(auto, unfolding(crate::specs::Draws::next, crate::specs::Draws::draw))]
    pub fn draw(&mut self, count: u64) -> u64
        requires { 0 < count }
        ensures value { result ≡ draw count self.old }
        ensures below { result < count }
        ensures next { self.new ≡ next self.old }
    {
        self.state = self
            .state
            .wrapping_mul(6364136223846793005)
            .wrapping_add(1442695040888963407);
        (self.state >> 33) % count
    }
}
