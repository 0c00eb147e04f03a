// When a redo installs.
ghost use Rattle.std.specs.Prelude.{◌≡◌};
ghost use Rattle.explain_core.specs.Turns.{is_above as are_above};

/// When a redo installs, and how much at once.
#[derive(Clone, Copy, Debug)]
pub struct Marks {
    /// Where more objects than this are dirty,
    pub dirty: usize,

    /// or more members than this wait in the graph;
    pub waiting: u64,

    /// so many nodes at most are installed together, and one at least.
    pub most: usize,
}

impl Marks {
    /// Whether so many dirty objects are too many, or so many members that wait.
    pub fn is_above(self, dirty: usize, waiting: u64) -> bool
        ensures { result ≡ are_above self dirty waiting }
    {
        dirty > self.dirty || waiting > self.waiting
    }
}
