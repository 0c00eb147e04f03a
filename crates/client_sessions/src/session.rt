ghost use Rattle.std.specs.Prelude.{◌<◌, ◌^◌};

/// What is kept of a client between its commands.
#[derive(Drop)]
pub struct Session {
    /// It came, and is not gone.
    pub here: bool,
    /// It was told that nothing more will be.
    pub leaving: bool,
    /// So many clients had come before it.
    pub number: u64,
    /// What it calls itself.
    pub title: Vec<u8>,
    /// MULTI came.
    pub multi: bool,
    /// The commands since, as their words.
    pub queue: Vec<Vec<Vec<u8>>>,
    /// What they take.
    pub held: usize,
    /// One of them was refused as it came.
    pub spoilt: bool,
    /// The names that it watches.
    pub watched: Vec<Vec<u8>>,
    /// One of them was given a value, or taken away.
    pub stale: bool,
    ghost small: { number < 2 ^ 63 },
}
