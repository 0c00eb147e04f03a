ghost use Rattle.std.specs.Prelude.{◌≡◌};
ghost use Rattle.script_lines.specs.declared.read_error.ReadError.TheVariants.{Memory as OutOfMemory};

use oper_core::Memory;
use thiserror::Error;

/// Why a line was not read. A part of it may be gone from the source, so reading does not go on.
#[derive(Clone, Copy, Debug, PartialEq, Eq, Error)]
pub enum ReadError {
    /// The source failed.
    #[error("the source failed")]
    ReadFault,
    /// So many bytes were taken as an input may have, and its end was not read.
    #[error("the input is too long")]
    TooLong,
    /// Out of memory.
    #[error("out of memory")]
    Memory,
}

impl From<Memory> for ReadError {
    ghost from_gives = { λ _ e. e ≡ OutOfMemory };

    fn from(_: Memory) -> Self {
        ReadError::Memory
    }
}
