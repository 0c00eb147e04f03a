// What went wrong at a file.
ghost use Rattle.std.specs.Prelude.{◌≡◌, ◌↔◌, IsOk, IsErr, IsSomeAnd};

use crate::{Failed, FileNo};
use std::io;
use thiserror::Error;

/// What is done with a file.
#[derive(Clone, Copy, Debug, PartialEq, Eq, Error)]
pub enum FileCall {
    #[error("find the length of")]
    Size,
    #[error("read")]
    Read,
    #[error("write")]
    Write,
    #[error("sync")]
    Sync,
}

/// A call on a file that failed, and the system's reason.
#[derive(Debug, Drop)]
pub struct FileFault {
    pub file: FileNo,
    pub call: FileCall,
    pub reason: io::Error,
}

/// An answer of a file. Its error is kept where it is the first.
pub fn noted<T: Drop>(
    first: &mut Option<FileFault>,
    file: FileNo,
    call: FileCall,
    answer: io::Result<T>,
) -> Result<T, Failed>
    ensures value { (value : T) → result ≡ Ok value → answer ≡ Ok value }
    ensures fails { IsErr result ↔ IsErr answer }
    ensures kept { (f : FileFault) → first.old ≡ Some f → first.new ≡ Some f }
    ensures fresh { first.old ≡ None → IsOk answer → first.new ≡ None }
    ensures named { first.old ≡ None → IsErr answer → IsSomeAnd first.new (λ fault. (fault.file ≡ file) × (fault.call ≡ call)) }
{
    match answer {
        Ok(value) => Ok(value),
        Err(reason) => {
            if first.is_none() {
                *first = Some(FileFault { file, call, reason });
            }
            Err(Failed)
        }
    }
}
