ghost use Rattle.std.specs.Prelude.{◌≡◌};
ghost use Rattle.stable_objects.specs.Reading.{open_from_read};
ghost use Rattle.stable_objects.specs.declared.open_err.OpenErr.TheVariants.{DiskFault, Memory as OutOfMemory};

use disk_model::{Failed, FileNo};
use formats::ReadErr;
use oper_core::Memory;
use thiserror::Error;

/// Why a store is not opened.
#[derive(Clone, Copy, Debug, PartialEq, Eq, Error)]
pub enum OpenErr {
    /// The objects gate is not open.
    #[error("this is not a store")]
    NotAStore,
    /// A call to the device failed.
    #[error("the disk failed")]
    DiskFault,
    /// A file breaks its format at this place.
    #[error("{file:?} is damaged at {place}")]
    Damaged { file: FileNo, place: u64 },
    /// There is no memory left.
    #[error("out of memory")]
    Memory,
}

impl From<ReadErr> for OpenErr {
    ghost from_gives = { λ cause e. e ≡ open_from_read cause };

    fn from(cause: ReadErr) -> Self {
        match cause {
            ReadErr::DiskFault => OpenErr::DiskFault,
            ReadErr::Damaged { file, place } => OpenErr::Damaged { file, place },
            ReadErr::Memory => OpenErr::Memory,
        }
    }
}

impl From<Failed> for OpenErr {
    ghost from_gives = { λ _ e. e ≡ DiskFault };

    fn from(_: Failed) -> Self {
        OpenErr::DiskFault
    }
}

impl From<Memory> for OpenErr {
    ghost from_gives = { λ _ e. e ≡ OutOfMemory };

    fn from(_: Memory) -> Self {
        OpenErr::Memory
    }
}
