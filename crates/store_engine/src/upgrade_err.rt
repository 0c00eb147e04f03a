ghost use Rattle.std.specs.Prelude.{◌≡◌};
ghost use Rattle.store_engine.specs.Upgrading.{upgrade_from_read};

use disk_model::FileNo;
use formats::ReadErr;
use thiserror::Error;

/// Why a store was not made larger.
#[derive(Debug, Drop, Error)]
pub enum UpgradeErr {
    /// The store is of version 2, and nothing was done.
    #[error("the store is of version 2 already")]
    AlreadyTwo,
    /// The store has more objects, or longer values, and nothing was done. These are its numbers.
    #[error("the store has {objects} objects of {cap} bytes at most")]
    Smaller { objects: u32, cap: u32 },
    /// The disk failed.
    #[error("the disk failed")]
    DiskFault,
    /// What was read breaks its format, in this file at this place, or the last slot is open and its head is cut.
    #[error("{file:?} is damaged at {place}")]
    Damaged { file: FileNo, place: u64 },
    /// Out of memory.
    #[error("out of memory")]
    Memory,
}

impl From<ReadErr> for UpgradeErr {
    ghost from_gives = { λ cause e. e ≡ upgrade_from_read cause };

    fn from(cause: ReadErr) -> Self {
        match cause {
            ReadErr::DiskFault => UpgradeErr::DiskFault,
            ReadErr::Damaged { file, place } => UpgradeErr::Damaged { file, place },
            ReadErr::Memory => UpgradeErr::Memory,
        }
    }
}
