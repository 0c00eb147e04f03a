ghost use Rattle.std.specs.Prelude.{◌≡◌};
ghost use Rattle.standby_node.specs.declared.compare_err.CompareErr.TheVariants.{Memory as OutOfMemory};

use thiserror::Error;

/// Why a record of a stream is not passed over.
#[derive(Debug, Drop, Error)]
pub enum CompareErr {
    /// The store has another record with this LSN.
    #[error("the record {lsn} differs")]
    Differs { lsn: u64 },
    /// The store's log begins behind this record.
    #[error("the record {lsn} is no longer in the log")]
    Unknown { lsn: u64 },
    /// Out of memory.
    #[error("out of memory")]
    Memory,
}

impl From<oper_core::Memory> for CompareErr {
    ghost from_gives = { λ _ e. e ≡ OutOfMemory };

    fn from(_: oper_core::Memory) -> Self {
        CompareErr::Memory
    }
}
