ghost use Rattle.std.specs.Prelude.{◌≡◌, ◌==◌, ◌||◌, length};

use crate::few::Few;

/// Commands that come next in a call, and whether they end it.
#[derive(Drop)]
pub struct Round {
    pub ops: Few,
    pub last: bool,
}

impl Round {
    /// Whether the call ends with it: as the last round, or as one without commands.
    pub(crate) fn is_end(&self) -> bool
        ensures { result ≡ (self.now.last || (length self.now.ops == 0)) }
    {
        self.last || self.ops.is_empty()
    }
}
