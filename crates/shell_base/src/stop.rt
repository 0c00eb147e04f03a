ghost use Rattle.std.specs.Prelude.{◌≡◌};
ghost use Rattle.shell_base.specs.Status.{status_of, stop_from_read, stop_of_input};
ghost use Rattle.shell_base.specs.declared.stop.Stop.TheVariants.{Memory as OutOfMemory};

use crate::status::Status;
use disk_model::FileNo;
use formats::ReadErr;
use oper_core::Memory;
use script_lines::ReadError;
use thiserror::Error;

/// Why a run ends before its script does.
#[derive(Clone, Copy, Debug, PartialEq, Eq, Error)]
pub enum Stop {
    /// The disk failed.
    #[error("the disk failed")]
    DiskFault,
    /// The slot that was read breaks its format, in this file at this place.
    #[error("{file:?} is damaged at {place}")]
    Damaged { file: FileNo, place: u64 },
    /// The input failed.
    #[error("the input failed")]
    ReadFault,
    /// The output failed.
    #[error("the output failed")]
    SayFault,
    /// The disk of the backup failed.
    #[error("the disk of the backup failed")]
    BackupFault,
    /// Out of memory.
    #[error("out of memory")]
    Memory,
    /// The input has 2^40 bytes or more.
    #[error("the input is too long")]
    TooLong,
}

impl Stop {
    /// The status that reports it.
    pub fn status(self) -> Status
        ensures { result ≡ status_of self }
    {
        match self {
            Stop::DiskFault => Status::DiskFault,
            Stop::Damaged { .. } => Status::Damaged,
            Stop::ReadFault => Status::ReadFault,
            Stop::SayFault => Status::SayFault,
            Stop::BackupFault => Status::BackupFault,
            Stop::Memory => Status::Memory,
            Stop::TooLong => Status::TooLong,
        }
    }
}

impl From<Memory> for Stop {
    ghost from_gives = { λ _ stop. stop ≡ OutOfMemory };

    fn from(_: Memory) -> Self {
        Stop::Memory
    }
}

impl From<ReadErr> for Stop {
    ghost from_gives = { λ cause stop. stop ≡ stop_from_read cause };

    fn from(cause: ReadErr) -> Self {
        match cause {
            ReadErr::DiskFault => Stop::DiskFault,
            ReadErr::Damaged { file, place } => Stop::Damaged { file, place },
            ReadErr::Memory => Stop::Memory,
        }
    }
}

impl From<ReadError> for Stop {
    ghost from_gives = { λ error stop. stop ≡ stop_of_input error };

    fn from(error: ReadError) -> Self {
        match error {
            ReadError::ReadFault => Stop::ReadFault,
            ReadError::TooLong => Stop::TooLong,
            ReadError::Memory => Stop::Memory,
        }
    }
}
