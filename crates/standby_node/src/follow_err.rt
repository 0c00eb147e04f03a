ghost use Rattle.std.specs.Prelude.{◌≡◌};
ghost use Rattle.standby_node.specs.Failures.{follow_from_record, follow_from_store};
ghost use Rattle.standby_node.specs.declared.follow_err.FollowErr.TheVariants.{Memory as OutOfMemory};

use disk_model::FileNo;
use store_engine::{RecordErr, StoreErr};
use thiserror::Error;

/// Why a piece of a stream was not followed. Places count the stream's bytes from 0.
#[derive(Debug, Drop, Error)]
pub enum FollowErr {
    /// The length of a frame, or a record in one, which begins here, is not in the grammar.
    #[error("the stream is no stream of frames at {place}")]
    BadFrame { place: u64 },
    /// A record's LSN is above the next one.
    #[error("the next record has the number {expected}, and this one {got}")]
    Gap { expected: u64, got: u64 },
    /// A record has the next LSN, and is not what may come next here.
    #[error("the record {lsn} differs")]
    Differs { lsn: u64 },
    /// The log has no room for a record.
    #[error("the log is full: {used} bytes are used, {need} more are needed, the limit is {limit}")]
    LogFull { used: u64, need: u64, limit: u64 },
    /// The disk failed, and the standby is not used again.
    #[error("the disk failed")]
    DiskFault,
    /// The slot that was read breaks its format, in this file at this place.
    #[error("{file:?} is damaged at {place}")]
    Damaged { file: FileNo, place: u64 },
    /// Out of memory. `taken` tells whether the piece is kept: then the next one, which may be empty, goes on; else this one has to
    /// come again.
    #[error("out of memory")]
    Memory,
    /// An earlier piece was refused, in the frame that begins here.
    #[error("the stream was refused in the frame at {place}")]
    Stopped { place: u64 },
}

impl From<RecordErr> for FollowErr {
    ghost from_gives = { λ cause e. e ≡ follow_from_record cause };

    fn from(cause: RecordErr) -> Self {
        match cause {
            RecordErr::Gap { expected, got } => FollowErr::Gap { expected, got },
            RecordErr::Differs { lsn } => FollowErr::Differs { lsn },
            RecordErr::LogFull { used, need, limit } => FollowErr::LogFull { used, need, limit },
            RecordErr::DiskFault => FollowErr::DiskFault,
            RecordErr::Damaged { file, place } => FollowErr::Damaged { file, place },
            RecordErr::Memory => FollowErr::Memory,
        }
    }
}

impl From<StoreErr> for FollowErr {
    ghost from_gives = { λ cause e. e ≡ follow_from_store cause };

    fn from(cause: StoreErr) -> Self {
        match cause {
            StoreErr::DiskFault => FollowErr::DiskFault,
            StoreErr::Memory => FollowErr::Memory,
        }
    }
}

impl From<oper_core::Memory> for FollowErr {
    ghost from_gives = { λ _ e. e ≡ OutOfMemory };

    fn from(_: oper_core::Memory) -> Self {
        FollowErr::Memory
    }
}
