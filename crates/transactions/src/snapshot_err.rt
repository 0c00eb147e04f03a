use store_engine::ExecErr;
use thiserror::Error;

/// Why a value was not read from a snapshot.
#[derive(Debug, Drop, Error)]
pub enum SnapshotErr {
    /// A value that it had could not be kept, for want of memory or because its slot could not be read.
    #[error("the snapshot was given up")]
    GivenUp,
    /// The value was not read from the store.
    #[error("{0}")]
    Read(ExecErr),
}
