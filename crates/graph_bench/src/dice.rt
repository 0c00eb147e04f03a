/// Numbers that look random, and are the same in each run.
#[derive(Drop)]
pub struct Dice {
    state: u64,
}

impl Dice {
    pub fn new() -> Self {
        Dice { state: 1 }
    }

    /// The next number: from 0 to `most`.
    pub fn next(&mut self, most: u32) -> u32 {
        self.state = self
            .state
            .wrapping_mul(6364136223846793005)
            .wrapping_add(1442695040888963407);
        ((self.state >> 33) % (most as u64 + 1)) as u32
    }
}
