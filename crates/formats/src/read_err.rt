ghost use Rattle.std.specs.Prelude.{◌≡◌};
ghost use Rattle.formats.specs.declared.read_err.ReadErr.TheVariants.{DiskFault, Memory as OutOfMemory};

use disk_model::{Failed, FileNo};
use std::alloc::{AllocError, AllocFailed};
use thiserror::Error;

/// Why what stands in the files was not read.
#[derive(Clone, Copy, Debug, PartialEq, Eq, Error)]
pub enum ReadErr {
    /// A call to the device failed.
    #[error("the disk failed")]
    DiskFault,
    /// A file breaks its format at this place.
    #[error("{file:?} is damaged at {place}")]
    Damaged { file: FileNo, place: u64 },
    /// There is no memory left.
    #[error("out of memory")]
    Memory,
}

impl From<Failed> for ReadErr {
    ghost from_gives = { λ _ e. e ≡ DiskFault };

    fn from(_: Failed) -> Self {
        ReadErr::DiskFault
    }
}

impl From<AllocError> for ReadErr {
    ghost from_gives = { λ _ e. e ≡ OutOfMemory };

    fn from(_: AllocError) -> Self {
        ReadErr::Memory
    }
}

impl<T: Drop> From<AllocFailed<T>> for ReadErr {
    ghost from_gives = { λ _ e. e ≡ OutOfMemory };

    fn from(_: AllocFailed<T>) -> Self {
        ReadErr::Memory
    }
}

impl From<oper_core::Memory> for ReadErr {
    ghost from_gives = { λ _ e. e ≡ OutOfMemory };

    fn from(_: oper_core::Memory) -> Self {
        ReadErr::Memory
    }
}
