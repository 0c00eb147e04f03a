ghost use Rattle.std.specs.Prelude.{◌≡◌};
ghost use Rattle.execution.specs.RecordFailures.{record_from_read};
ghost use Rattle.execution.specs.declared.record_err.RecordErr.TheVariants.{DiskFault, Memory as OutOfMemory};

use disk_model::{Failed, FileNo};
use formats::ReadErr;
use thiserror::Error;

/// Why a record of another log was not taken.
#[derive(Debug, Drop, Error)]
pub enum RecordErr {
    /// The record's LSN is above the next one.
    #[error("the next record has the number {expected}, and this one {got}")]
    Gap { expected: u64, got: u64 },
    /// The record has the next LSN, and is a command that is refused, or an identity write of another value.
    #[error("the record {lsn} differs")]
    Differs { lsn: u64 },
    /// The log has no room for the record.
    #[error("the log is full: {used} bytes are used, {need} more are needed, the limit is {limit}")]
    LogFull { used: u64, need: u64, limit: u64 },
    /// The disk failed, and the engine is not used again.
    #[error("the disk failed")]
    DiskFault,
    /// The slot that was read breaks its format, in this file at this place.
    #[error("{file:?} is damaged at {place}")]
    Damaged { file: FileNo, place: u64 },
    /// Out of memory.
    #[error("out of memory")]
    Memory,
}

impl From<Failed> for RecordErr {
    ghost from_gives = { λ _ e. e ≡ DiskFault };

    fn from(_: Failed) -> Self {
        RecordErr::DiskFault
    }
}

impl From<oper_core::Memory> for RecordErr {
    ghost from_gives = { λ _ e. e ≡ OutOfMemory };

    fn from(_: oper_core::Memory) -> Self {
        RecordErr::Memory
    }
}

impl From<ReadErr> for RecordErr {
    ghost from_gives = { λ cause e. e ≡ record_from_read cause };

    fn from(cause: ReadErr) -> Self {
        match cause {
            ReadErr::DiskFault => RecordErr::DiskFault,
            ReadErr::Damaged { file, place } => RecordErr::Damaged { file, place },
            ReadErr::Memory => RecordErr::Memory,
        }
    }
}
