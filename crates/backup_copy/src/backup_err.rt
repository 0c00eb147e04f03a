ghost use Rattle.std.specs.Prelude.{◌≡◌};
ghost use Rattle.backup_copy.specs.Failures.{backup_from_copy, backup_from_read};

use disk_model::FileNo;
use formats::ReadErr;
use log_records::CopyErr;
use thiserror::Error;

/// Why a step of a backup was not done.
#[derive(Debug, Drop, Error)]
pub enum BackupErr {
    /// A group of so many commands is open, and nothing was done.
    #[error("a group of {commands} commands is open")]
    InGroup { commands: u64 },
    /// A backup is being made already, with so many objects copied.
    #[error("a backup is being made, {copied} objects are copied")]
    InBackup { copied: u32 },
    /// No backup is being made.
    #[error("no backup is being made")]
    NoBackup,
    /// There is a store in the target, which is left as it is.
    #[error("already a store")]
    AlreadyStore,
    /// Only so many objects are copied yet.
    #[error("only {copied} objects are copied")]
    NotCopied { copied: u32 },
    /// The disk of the store failed, and the engine is not used again.
    #[error("the disk failed")]
    DiskFault,
    /// The disk of the target failed. The backup is given up.
    #[error("the disk of the target failed")]
    TargetFault,
    /// What was read of the store breaks its format, in this file at this place.
    #[error("{file:?} is damaged at {place}")]
    Damaged { file: FileNo, place: u64 },
    /// The log of the target would be longer than a log may be.
    #[error("the log is full: {used} bytes are used, the target's would have {need}, the limit is {limit}")]
    LogFull { used: u64, need: u64, limit: u64 },
    /// Out of memory.
    #[error("out of memory")]
    Memory,
}

impl From<ReadErr> for BackupErr {
    ghost from_gives = { λ cause e. e ≡ backup_from_read cause };

    fn from(cause: ReadErr) -> Self {
        match cause {
            ReadErr::DiskFault => BackupErr::DiskFault,
            ReadErr::Damaged { file, place } => BackupErr::Damaged { file, place },
            ReadErr::Memory => BackupErr::Memory,
        }
    }
}

impl From<CopyErr> for BackupErr {
    ghost from_gives = { λ cause e. e ≡ backup_from_copy cause };

    fn from(cause: CopyErr) -> Self {
        match cause {
            CopyErr::LogFull { used, need, limit } => BackupErr::LogFull { used, need, limit },
            CopyErr::DiskFault => BackupErr::DiskFault,
            CopyErr::TargetFault => BackupErr::TargetFault,
            CopyErr::Damaged { file, place } => BackupErr::Damaged { file, place },
            CopyErr::Memory => BackupErr::Memory,
        }
    }
}
