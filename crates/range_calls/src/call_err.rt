ghost use Rattle.std.specs.Prelude.{◌≡◌};
ghost use Rattle.execution.specs.Failures.{exec_from_read};
ghost use Rattle.range_calls.specs.declared.call_err.CallErr.TheVariants.{Refused, Exec, Memory as OutOfMemory};

use formats::ReadErr;
use std::alloc::{AllocError, AllocFailed};
use store_engine::ExecErr;

/// Why a call on a range of objects was not done. `R` says why the range itself refuses a call.
#[derive(Drop)]
pub enum CallErr<R> {
    /// The range refuses the call.
    Refused(R),
    /// What the store answered to a fetch or to a command. It refuses none but for `TooLarge`.
    Exec(ExecErr),
    /// Out of memory.
    Memory,
}

impl<R> From<ExecErr> for CallErr<R> {
    ghost from_gives = { λ cause e. e ≡ Exec cause };

    fn from(cause: ExecErr) -> Self {
        CallErr::Exec(cause)
    }
}

impl<R> From<ReadErr> for CallErr<R> {
    ghost from_gives = { λ cause e. e ≡ Exec (exec_from_read cause) };

    fn from(cause: ReadErr) -> Self {
        CallErr::Exec(cause.into())
    }
}

impl<R, T: Drop> From<AllocFailed<T>> for CallErr<R> {
    ghost from_gives = { λ _ e. e ≡ OutOfMemory };

    fn from(_: AllocFailed<T>) -> Self {
        CallErr::Memory
    }
}

impl<R> From<AllocError> for CallErr<R> {
    ghost from_gives = { λ _ e. e ≡ OutOfMemory };

    fn from(_: AllocError) -> Self {
        CallErr::Memory
    }
}
