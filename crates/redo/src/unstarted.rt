use std::io;
use thiserror::Error;

/// Why nothing was done, and no file of the store was opened.
#[derive(Debug, Drop, Error)]
pub enum Unstarted {
    /// Another program has the lock of the folder.
    #[error("another redo uses the store in this folder")]
    InUse,
    /// The folder that the words name is not there, or may not be entered.
    #[error("cannot enter the folder {folder}: {error}")]
    NoFolder { folder: String, error: io::Error },
    /// The folder cannot be opened, or its file system has no locks.
    #[error("cannot lock this folder: {0}")]
    NoLock(io::Error),
}

impl Unstarted {
    /// The number that the process ends with, which is that of no status.
    pub fn number(&self) -> u8 {
        match self {
            Unstarted::InUse => 71,
            Unstarted::NoFolder { .. } | Unstarted::NoLock(_) => 72,
        }
    }
}
