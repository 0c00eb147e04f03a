ghost use Rattle.std.specs.Prelude.{◌≡◌};
ghost use Rattle.log_records.specs.LogCopy.{copy_from_put, copy_from_read};
ghost use Rattle.log_records.specs.declared.copy_err.CopyErr.TheVariants as of_copy;

use crate::put_err::PutErr;
use disk_model::{Failed, FileNo};
use formats::ReadErr;
use std::alloc::AllocError;
use thiserror::Error;

/// Why a log was not copied to another machine.
#[derive(Clone, Copy, Debug, PartialEq, Eq, Error)]
pub enum CopyErr {
    /// The copy would be longer than a log may be.
    #[error("the log is full: {used} bytes are used, its copy has {need}, the limit is {limit}")]
    LogFull { used: u64, need: u64, limit: u64 },
    /// A call to the log's own device failed.
    #[error("the disk failed")]
    DiskFault,
    /// A call to the other device failed.
    #[error("the target's disk failed")]
    TargetFault,
    /// A file of the log breaks its format at this place.
    #[error("{file:?} is damaged at {place}")]
    Damaged { file: FileNo, place: u64 },
    /// There is no memory left.
    #[error("out of memory")]
    Memory,
}

// The log itself is only read.
impl From<ReadErr> for CopyErr {
    ghost from_gives = { λ cause e. e ≡ copy_from_read cause };

    fn from(cause: ReadErr) -> Self {
        match cause {
            ReadErr::DiskFault => CopyErr::DiskFault,
            ReadErr::Damaged { file, place } => CopyErr::Damaged { file, place },
            ReadErr::Memory => CopyErr::Memory,
        }
    }
}

// The target is only written.
impl From<PutErr> for CopyErr {
    ghost from_gives = { λ cause e. e ≡ copy_from_put cause };

    fn from(cause: PutErr) -> Self {
        match cause {
            PutErr::DiskFault => CopyErr::TargetFault,
            PutErr::Memory => CopyErr::Memory,
        }
    }
}

impl From<Failed> for CopyErr {
    ghost from_gives = { λ _ e. e ≡ of_copy.TargetFault };

    fn from(_: Failed) -> Self {
        CopyErr::TargetFault
    }
}

impl From<AllocError> for CopyErr {
    ghost from_gives = { λ _ e. e ≡ of_copy.Memory };

    fn from(_: AllocError) -> Self {
        CopyErr::Memory
    }
}
