ghost use Rattle.std.specs.Prelude.{◌≡◌};
ghost use Rattle.store_engine.specs.declared.init_err.InitErr.TheVariants.{DiskFault};

use disk_model::Failed;
use thiserror::Error;

/// Why no store was laid out.
#[derive(Debug, Drop, Error)]
pub enum InitErr {
    /// There is a store already, and it is left as it is.
    #[error("already a store")]
    AlreadyStore,
    /// The disk failed.
    #[error("the disk failed")]
    DiskFault,
}

impl From<Failed> for InitErr {
    ghost from_gives = { λ _ e. e ≡ DiskFault };

    fn from(_: Failed) -> Self {
        InitErr::DiskFault
    }
}
