ghost use Rattle.std.specs.Prelude.{◌≡◌, List, ℕ};

use std::marker::Model;

/// Objects, each with the number where its redo starts, which contracts see as a list of pairs.
#[derive(Drop)]
pub struct Starts {
    pairs: Vec<(u32, u64)>,
}

impl Model for Starts {
    ghost Value = { List (ℕ × ℕ) };

    ghost view = { λ s. s.pairs.items };
}

impl Starts {
    /// The same pairs, moved in.
    pub fn new(pairs: Vec<(u32, u64)>) -> Self
        ensures { result ≡ pairs.items }
    {
        Starts { pairs }
    }

    /// The pairs.
    pub fn as_slice(&self) -> &[(u32, u64)]
        ensures { result.now ≡ self.now }
    {
        self.pairs.as_slice()
    }

    /// The pairs, moved out.
    pub fn into_vec(self) -> Vec<(u32, u64)>
        ensures { result.items ≡ self }
    {
        self.pairs
    }
}
