ghost use Rattle.std.specs.Prelude.{◌≡◌};
ghost use Rattle.command_words.specs.declared.unread.Unread.TheVariants.{Memory};

use std::alloc::AllocError;
use thiserror::Error;

/// Why the words of the command line are not read.
#[derive(Debug, Drop, Error)]
pub enum Unread {
    /// They ask nothing. The error's text says why, and how the program is used.
    #[error("{0}")]
    Refused(clap::Error),
    /// There is no memory to read them.
    #[error("out of memory")]
    Memory,
}

impl From<AllocError> for Unread {
    ghost from_gives = { λ _ unread. unread ≡ Memory };

    fn from(_error: AllocError) -> Unread {
        Unread::Memory
    }
}
