ghost use Rattle.std.specs.Prelude.{◌≡◌};
ghost use Rattle.log_records.specs.Rewriting.{rewrite_from_read};
ghost use Rattle.log_records.specs.declared.rewrite_err.RewriteErr.TheVariants as of_rewrite;

use disk_model::{Failed, FileNo};
use formats::ReadErr;
use thiserror::Error;

/// Why a log was not rewritten.
#[derive(Clone, Copy, Debug, PartialEq, Eq, Error)]
pub enum RewriteErr {
    /// The new log would be longer than a log may be.
    #[error("the log is full: {used} bytes are used, the new log has {need}, the limit is {limit}")]
    LogFull { used: u64, need: u64, limit: u64 },
    /// The log has had its last epoch.
    #[error("no epoch comes after {epoch}")]
    Exhausted { epoch: u64 },
    /// A call to the device failed.
    #[error("the disk failed")]
    DiskFault,
    /// A file breaks its format at this place.
    #[error("{file:?} is damaged at {place}")]
    Damaged { file: FileNo, place: u64 },
    /// There is no memory left.
    #[error("out of memory")]
    Memory,
}

impl From<ReadErr> for RewriteErr {
    ghost from_gives = { λ cause e. e ≡ rewrite_from_read cause };

    fn from(cause: ReadErr) -> Self {
        match cause {
            ReadErr::DiskFault => RewriteErr::DiskFault,
            ReadErr::Damaged { file, place } => RewriteErr::Damaged { file, place },
            ReadErr::Memory => RewriteErr::Memory,
        }
    }
}

impl From<Failed> for RewriteErr {
    ghost from_gives = { λ _ e. e ≡ of_rewrite.DiskFault };

    fn from(_: Failed) -> Self {
        RewriteErr::DiskFault
    }
}

impl From<oper_core::Memory> for RewriteErr {
    ghost from_gives = { λ _ e. e ≡ of_rewrite.Memory };

    fn from(_: oper_core::Memory) -> Self {
        RewriteErr::Memory
    }
}
