ghost use Rattle.std.specs.Prelude.{◌≡◌};
ghost use Rattle.graph_view.specs.declared.draw_error.DrawError.TheVariants.{Read};
ghost use Rattle.script_lines.specs.declared.read_error.ReadError.TheVariants.{Memory as OutOfMemory};

use oper_core::Memory;
use script_lines::ReadError;
use thiserror::Error;

/// Why no graph is printed.
#[derive(Clone, Copy, Debug, Error)]
pub enum DrawError {
    /// The line of this number, from 1 on, is outside the grammar.
    #[error("line {0} is outside the grammar")]
    Bad(u64),
    /// The line of this number, from 1 on, makes as many commands as the values of objects ask for.
    #[error("line {0} makes as many commands as values ask for, which are not known here")]
    Several(u64),
    /// The script was not read to its end, or it is out of memory.
    #[error("{0}")]
    Read(ReadError),
}

impl From<ReadError> for DrawError {
    ghost from_gives = { λ error drawn. drawn ≡ Read error };

    fn from(error: ReadError) -> Self {
        DrawError::Read(error)
    }
}

impl From<Memory> for DrawError {
    ghost from_gives = { λ _ drawn. drawn ≡ Read OutOfMemory };

    fn from(_: Memory) -> Self {
        DrawError::Read(ReadError::Memory)
    }
}
