ghost use Rattle.std.specs.Prelude.{◌≡◌};
ghost use Rattle.log_records.specs.Copying.{read_from_put};
ghost use Rattle.log_records.specs.declared.put_err.PutErr.TheVariants as put_err;

use disk_model::Failed;
use formats::ReadErr;

// Why a record was not put into a new log.
#[derive(Clone, Copy)]
pub enum PutErr {
    // A call to the device failed.
    DiskFault,
    // There is no memory left.
    Memory,
}

impl From<Failed> for PutErr {
    ghost from_gives = { λ _ e. e ≡ put_err.DiskFault };

    fn from(_: Failed) -> Self {
        PutErr::DiskFault
    }
}

impl From<oper_core::Memory> for PutErr {
    ghost from_gives = { λ _ e. e ≡ put_err.Memory };

    fn from(_: oper_core::Memory) -> Self {
        PutErr::Memory
    }
}

impl From<PutErr> for ReadErr {
    ghost from_gives = { λ cause e. e ≡ read_from_put cause };

    fn from(cause: PutErr) -> Self {
        match cause {
            PutErr::DiskFault => ReadErr::DiskFault,
            PutErr::Memory => ReadErr::Memory,
        }
    }
}
