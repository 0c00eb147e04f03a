use oper_core::Memory;
use std::alloc::{AllocError, AllocFailed};
use thiserror::Error;

/// Why a server stops. What it has not answered may be done or not.
#[derive(Clone, Copy, Debug, PartialEq, Eq, Error)]
pub enum Stop {
    /// Out of memory.
    #[error("out of memory")]
    Memory,
    /// The store, or the machine that it is on, failed; it tells how.
    #[error("the store failed")]
    Store,
    /// The input is no frames of clients that there may be.
    #[error("the input is no frames of clients")]
    Input,
}

impl From<Memory> for Stop {
    fn from(_: Memory) -> Self {
        Stop::Memory
    }
}

impl From<AllocError> for Stop {
    fn from(_: AllocError) -> Self {
        Stop::Memory
    }
}

impl<T: Drop> From<AllocFailed<T>> for Stop {
    fn from(_: AllocFailed<T>) -> Self {
        Stop::Memory
    }
}
