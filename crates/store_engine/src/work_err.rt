ghost use Rattle.std.specs.Prelude.{◌≡◌};
ghost use Rattle.store_engine.specs.Calls.{work_from_checkpoint, work_from_install, work_from_rewrite};
ghost use Rattle.store_engine.specs.declared.work_err.WorkErr.TheVariants.{DiskFault};

use cache_manager::InstallErr;
use checkpointing::CheckpointErr;
use disk_model::{Failed, FileNo};
use log_records::RewriteErr;
use thiserror::Error;

/// Why a begin, a force, an install, a turn, a drain, a checkpoint or a trim was not done.
#[derive(Debug, Drop, Error)]
pub enum WorkErr {
    /// A group of so many commands is open, and nothing was done.
    #[error("a group of {commands} commands is open")]
    InGroup { commands: u64 },
    /// The slots are copied, so many objects so far, and nothing was done.
    #[error("a backup is being made, {copied} objects are copied")]
    InBackup { copied: u32 },
    /// The log has no room for a record, or for the one that would take its place.
    #[error("the log is full: {used} bytes are used, {need} more are needed, the limit is {limit}")]
    LogFull { used: u64, need: u64, limit: u64 },
    /// No record may have this LSN.
    #[error("no record may have the number {lsn}")]
    LsnEnd { lsn: u64 },
    /// No log may have a greater epoch.
    #[error("no log may have an epoch greater than {epoch}")]
    Exhausted { epoch: u64 },
    /// The disk failed, and the engine is not used again.
    #[error("the disk failed")]
    DiskFault,
    /// What was read breaks its format, in this file at this place.
    #[error("{file:?} is damaged at {place}")]
    Damaged { file: FileNo, place: u64 },
    /// Out of memory.
    #[error("out of memory")]
    Memory,
}

impl From<Failed> for WorkErr {
    ghost from_gives = { λ _ e. e ≡ DiskFault };

    fn from(_: Failed) -> Self {
        WorkErr::DiskFault
    }
}

impl From<InstallErr> for WorkErr {
    ghost from_gives = { λ cause e. e ≡ work_from_install cause };

    fn from(cause: InstallErr) -> Self {
        match cause {
            InstallErr::LogFull { used, need, limit } => WorkErr::LogFull { used, need, limit },
            InstallErr::LsnEnd { lsn } => WorkErr::LsnEnd { lsn },
            InstallErr::DiskFault => WorkErr::DiskFault,
            InstallErr::Memory => WorkErr::Memory,
        }
    }
}

impl From<CheckpointErr> for WorkErr {
    ghost from_gives = { λ cause e. e ≡ work_from_checkpoint cause };

    fn from(cause: CheckpointErr) -> Self {
        match cause {
            CheckpointErr::LogFull { used, need, limit } => WorkErr::LogFull { used, need, limit },
            CheckpointErr::DiskFault => WorkErr::DiskFault,
            CheckpointErr::Memory => WorkErr::Memory,
        }
    }
}

impl From<RewriteErr> for WorkErr {
    ghost from_gives = { λ cause e. e ≡ work_from_rewrite cause };

    fn from(cause: RewriteErr) -> Self {
        match cause {
            RewriteErr::LogFull { used, need, limit } => WorkErr::LogFull { used, need, limit },
            RewriteErr::Exhausted { epoch } => WorkErr::Exhausted { epoch },
            RewriteErr::DiskFault => WorkErr::DiskFault,
            RewriteErr::Damaged { file, place } => WorkErr::Damaged { file, place },
            RewriteErr::Memory => WorkErr::Memory,
        }
    }
}
