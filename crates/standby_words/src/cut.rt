ghost use Rattle.std.specs.Prelude.{◌≡◌};
ghost use Rattle.script_lines.specs.declared.read_error.ReadError.TheVariants.{Memory as OutOfMemory};
ghost use Rattle.standby_words.specs.Comparing.{cut_of_compare};
ghost use Rattle.standby_words.specs.declared.cut.Cut.TheVariants.{Unread as IsUnread, Refused as IsRefused};

use oper_core::Memory;
use script_lines::ReadError;
use standby_node::{CompareErr, FollowErr};
use thiserror::Error;

/// Why the following of a stream ends before all of it is followed.
#[derive(Debug, Drop, Error)]
pub enum Cut {
    /// The input is not read to its end.
    #[error("{0}")]
    Unread(ReadError),
    /// The standby refuses it, or fails.
    #[error("{0}")]
    Refused(FollowErr),
    /// It ends within the frame that begins at this place.
    #[error("the stream ends within the frame at {place}")]
    Short { place: u64 },
    /// The store has another record with this number.
    #[error("the record {lsn} differs")]
    Unlike { lsn: u64 },
    /// The store's log begins behind the record with this number.
    #[error("the record {lsn} is no longer in the log")]
    Unknown { lsn: u64 },
}

impl From<Memory> for Cut {
    ghost from_gives = { λ _ cut. cut ≡ IsUnread OutOfMemory };

    fn from(_: Memory) -> Self {
        Cut::Unread(ReadError::Memory)
    }
}

impl From<ReadError> for Cut {
    ghost from_gives = { λ error cut. cut ≡ IsUnread error };

    fn from(error: ReadError) -> Self {
        Cut::Unread(error)
    }
}

impl From<FollowErr> for Cut {
    ghost from_gives = { λ cause cut. cut ≡ IsRefused cause };

    fn from(cause: FollowErr) -> Self {
        Cut::Refused(cause)
    }
}

impl From<CompareErr> for Cut {
    ghost from_gives = { λ cause cut. cut ≡ cut_of_compare cause };

    fn from(cause: CompareErr) -> Self {
        match cause {
            CompareErr::Differs { lsn } => Cut::Unlike { lsn },
            CompareErr::Unknown { lsn } => Cut::Unknown { lsn },
            CompareErr::Memory => Cut::Unread(ReadError::Memory),
        }
    }
}
