use store_engine::ExecErr;
use thiserror::Error;

/// Why the commands of a transaction were not added.
#[derive(Debug, Drop, Error)]
pub enum CommitErr {
    /// The log has no room for their records. None was added, and no group is open.
    #[error("the log has no room for the transaction")]
    LogFull,
    /// The disk failed, and the engine is not used again.
    #[error("the disk failed")]
    DiskFault,
    /// It ended within: some first ones of them are in a group that is open, which is to be rolled back.
    #[error("cut off: {0}")]
    Cut(ExecErr),
}
