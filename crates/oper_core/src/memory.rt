use std::alloc::{AllocError, AllocFailed};
use thiserror::Error;

/// Out of memory: what was asked for is not done, and nothing is changed.
#[derive(Clone, Copy, Debug, Drop, Error)]
#[error("out of memory")]
pub struct Memory;

impl From<AllocError> for Memory {
    fn from(_: AllocError) -> Self {
        Memory
    }
}

impl<T: Drop> From<AllocFailed<T>> for Memory {
    fn from(_: AllocFailed<T>) -> Self {
        Memory
    }
}
