ghost use Rattle.std.specs.Prelude.{◌≡◌};
ghost use Rattle.execution.specs.Failures.{exec_from_read};
ghost use Rattle.execution.specs.declared.exec_err.ExecErr.TheVariants.{DiskFault, Memory as OutOfMemory};

use disk_model::{Failed, FileNo};
use formats::ReadErr;
use oper_core::Refusal;
use thiserror::Error;

/// Why a command was not done, or an object not fetched.
#[derive(Debug, Drop, Error)]
pub enum ExecErr {
    /// It is refused on the values as they are.
    #[error("refused: {0}")]
    Refused(Refusal),
    /// The disk failed, and the engine is not used again.
    #[error("the disk failed")]
    DiskFault,
    /// The slot that was read breaks its format, in this file at this place.
    #[error("{file:?} is damaged at {place}")]
    Damaged { file: FileNo, place: u64 },
    /// The log has no room for its record.
    #[error("the log is full: {used} bytes are used, {need} more are needed, the limit is {limit}")]
    LogFull { used: u64, need: u64, limit: u64 },
    /// No record may have this LSN.
    #[error("no record may have the number {lsn}")]
    LsnEnd { lsn: u64 },
    /// Out of memory.
    #[error("out of memory")]
    Memory,
}

impl From<Failed> for ExecErr {
    ghost from_gives = { λ _ e. e ≡ DiskFault };

    fn from(_: Failed) -> Self {
        ExecErr::DiskFault
    }
}

impl From<oper_core::Memory> for ExecErr {
    ghost from_gives = { λ _ e. e ≡ OutOfMemory };

    fn from(_: oper_core::Memory) -> Self {
        ExecErr::Memory
    }
}

impl From<ReadErr> for ExecErr {
    ghost from_gives = { λ cause e. e ≡ exec_from_read cause };

    fn from(cause: ReadErr) -> Self {
        match cause {
            ReadErr::DiskFault => ExecErr::DiskFault,
            ReadErr::Damaged { file, place } => ExecErr::Damaged { file, place },
            ReadErr::Memory => ExecErr::Memory,
        }
    }
}
