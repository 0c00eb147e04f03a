ghost use Rattle.std.specs.Prelude.{◌≡◌};
ghost use Rattle.checkpointing.specs.declared.checkpoint_err.CheckpointErr.TheVariants.{DiskFault};
ghost use Rattle.checkpointing.specs.Left.{EndsAs};

use disk_model::Failed;
use running_store::StoreErr;
use thiserror::Error;

/// Why no checkpoint was taken.
#[derive(Debug, Drop, Error)]
pub enum CheckpointErr {
    /// The log has no room for the checkpoint.
    #[error("the log is full: {used} bytes are used, {need} more are needed, the limit is {limit}")]
    LogFull { used: u64, need: u64, limit: u64 },
    /// The disk failed.
    #[error("the disk failed")]
    DiskFault,
    /// Out of memory.
    #[error("out of memory")]
    Memory,
}

impl From<StoreErr> for CheckpointErr {
    ghost from_gives = { EndsAs };

    fn from(cause: StoreErr) -> Self {
        match cause {
            StoreErr::DiskFault => CheckpointErr::DiskFault,
            StoreErr::Memory => CheckpointErr::Memory,
        }
    }
}

impl From<Failed> for CheckpointErr {
    ghost from_gives = { λ _ e. e ≡ DiskFault };

    fn from(_: Failed) -> Self {
        CheckpointErr::DiskFault
    }
}
