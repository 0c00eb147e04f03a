ghost use Rattle.std.specs.Prelude.{◌≡◌};
ghost use Rattle.tool_output.specs.Stops.{stop_from_open, stop_from_read};
ghost use Rattle.tool_output.specs.declared.stop.Stop.TheVariants.{Memory as OutOfMemory};

use disk_model::FileNo;
use formats::ReadErr;
use oper_core::Memory;
use stable_objects::OpenErr;
use thiserror::Error;

/// Why a tool stops before it has said all.
#[derive(Clone, Copy, Debug, PartialEq, Eq, Error)]
pub enum Stop {
    /// The objects gate is not open.
    #[error("this is not a store")]
    NotAStore,
    /// A file breaks its format at this place.
    #[error("{file:?} is damaged at {place}")]
    Damaged { file: FileNo, place: u64 },
    /// The disk failed.
    #[error("the disk failed")]
    DiskFault,
    /// The output failed.
    #[error("the output failed")]
    SayFault,
    /// Out of memory.
    #[error("out of memory")]
    Memory,
}

impl From<OpenErr> for Stop {
    ghost from_gives = { λ cause stop. stop ≡ stop_from_open cause };

    fn from(cause: OpenErr) -> Self {
        match cause {
            OpenErr::NotAStore => Stop::NotAStore,
            OpenErr::DiskFault => Stop::DiskFault,
            OpenErr::Damaged { file, place } => Stop::Damaged { file, place },
            OpenErr::Memory => Stop::Memory,
        }
    }
}

impl From<ReadErr> for Stop {
    ghost from_gives = { λ cause stop. stop ≡ stop_from_read cause };

    fn from(cause: ReadErr) -> Self {
        match cause {
            ReadErr::DiskFault => Stop::DiskFault,
            ReadErr::Damaged { file, place } => Stop::Damaged { file, place },
            ReadErr::Memory => Stop::Memory,
        }
    }
}

impl From<Memory> for Stop {
    ghost from_gives = { λ _ stop. stop ≡ OutOfMemory };

    fn from(_: Memory) -> Self {
        Stop::Memory
    }
}
