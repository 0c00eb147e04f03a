// Whether a call failed with the disk.
ghost use Rattle.std.specs.Prelude.{◌≡◌, ◌||◌, Bool, true};
ghost use Rattle.running_store.specs.Calls.Faults.{has_failed, is_copy_fault, is_read_fault, is_rewrite_fault};

use disk_model::Failed;
use formats::ReadErr;
use log_records::{CopyErr, RewriteErr};

/// Why a call fails. One of the causes is a fault of the disk.
pub(crate) trait Fault: Drop {
    /// Whether it is that one.
    ghost is_fault: { Self → Bool };

    /// The same.
    fn is_disk_fault(&self) -> bool
        ensures { result ≡ is_fault self.now };
}

impl Fault for Failed {
    ghost is_fault = { λ _. true };

    fn is_disk_fault(&self) -> bool {
        true
    }
}

impl Fault for ReadErr {
    ghost is_fault = { is_read_fault };

    fn is_disk_fault(&self) -> bool {
        match self {
            ReadErr::DiskFault => true,
            ReadErr::Damaged { .. } | ReadErr::Memory => false,
        }
    }
}

impl Fault for RewriteErr {
    ghost is_fault = { is_rewrite_fault };

    fn is_disk_fault(&self) -> bool {
        match self {
            RewriteErr::DiskFault => true,
            RewriteErr::LogFull { .. }
            | RewriteErr::Exhausted { .. }
            | RewriteErr::Damaged { .. }
            | RewriteErr::Memory => false,
        }
    }
}

impl Fault for CopyErr {
    ghost is_fault = { is_copy_fault };

    fn is_disk_fault(&self) -> bool {
        match self {
            CopyErr::DiskFault => true,
            CopyErr::LogFull { .. }
            | CopyErr::TargetFault
            | CopyErr::Damaged { .. }
            | CopyErr::Memory => false,
        }
    }
}

/// Notes in the flag whether the answer is that the disk failed. It is the one place where the flag is set.
pub(crate) fn note<T, E: Fault>(broken: &mut bool, answer: &Result<T, E>)
    ensures { broken.new ≡ (broken.old || has_failed E.is_fault answer.now) }
{
    if let Err(e) = answer {
        *broken |= e.is_disk_fault();
    }
}
