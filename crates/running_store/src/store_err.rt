ghost use Rattle.std.specs.Prelude.{◌≡◌};
ghost use Rattle.running_store.specs.Calls.Faults.{read_from_store};
ghost use Rattle.running_store.specs.declared.store_err.StoreErr.TheVariants.{DiskFault, Memory as OutOfMemory};

use disk_model::Failed;
use formats::ReadErr;
use oper_core::Memory;
use thiserror::Error;

/// Why a call on a store fails that reads no file.
#[derive(Clone, Copy, Debug, PartialEq, Eq, Error)]
pub enum StoreErr {
    /// A call to the device failed, and the store is not used again.
    #[error("the disk failed")]
    DiskFault,
    /// There is no memory left.
    #[error("out of memory")]
    Memory,
}

impl From<Failed> for StoreErr {
    ghost from_gives = { λ _ e. e ≡ DiskFault };

    fn from(_: Failed) -> Self {
        StoreErr::DiskFault
    }
}

impl From<Memory> for StoreErr {
    ghost from_gives = { λ _ e. e ≡ OutOfMemory };

    fn from(_: Memory) -> Self {
        StoreErr::Memory
    }
}

impl From<StoreErr> for ReadErr {
    ghost from_gives = { λ cause e. e ≡ read_from_store cause };

    fn from(cause: StoreErr) -> Self {
        match cause {
            StoreErr::DiskFault => ReadErr::DiskFault,
            StoreErr::Memory => ReadErr::Memory,
        }
    }
}
