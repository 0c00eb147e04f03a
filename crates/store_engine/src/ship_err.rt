ghost use Rattle.std.specs.Prelude.{◌≡◌};
ghost use Rattle.store_engine.specs.Shipping.{ship_from_read};
ghost use Rattle.store_engine.specs.declared.ship_err.ShipErr.TheVariants.{Memory as OutOfMemory};

use disk_model::FileNo;
use formats::ReadErr;
use thiserror::Error;

/// Why the log was not shipped.
#[derive(Debug, Drop, Error)]
pub enum ShipErr {
    /// The log begins with this LSN, which is above the one that was asked for.
    #[error("the log begins with {base}")]
    Gone { base: u64 },
    /// The disk failed, and the engine is not used again.
    #[error("the disk failed")]
    DiskFault,
    /// A record of the log breaks its format, in this file at this place.
    #[error("{file:?} is damaged at {place}")]
    Damaged { file: FileNo, place: u64 },
    /// Out of memory.
    #[error("out of memory")]
    Memory,
}

impl From<ReadErr> for ShipErr {
    ghost from_gives = { λ cause e. e ≡ ship_from_read cause };

    fn from(cause: ReadErr) -> Self {
        match cause {
            ReadErr::DiskFault => ShipErr::DiskFault,
            ReadErr::Damaged { file, place } => ShipErr::Damaged { file, place },
            ReadErr::Memory => ShipErr::Memory,
        }
    }
}

impl From<oper_core::Memory> for ShipErr {
    ghost from_gives = { λ _ e. e ≡ OutOfMemory };

    fn from(_: oper_core::Memory) -> Self {
        ShipErr::Memory
    }
}
