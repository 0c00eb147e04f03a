ghost use Rattle.std.specs.Prelude.{◌≡◌};
ghost use Rattle.store_engine.specs.Engine.{params_of};

use disk_model::Machine;
use formats::Params;
use op_codec::AllOps;
use store_engine::Engine;

/// A store in use, with the machine that its files are on.
///
/// One fault of the disk ends its use: each call then answers `DiskFault` and does nothing. Dropping it forces nothing.
#[derive(Drop)]
pub struct Store<M: Machine + Drop> {
    pub(crate) engine: Engine<AllOps>,
    pub(crate) machine: M,
}

impl<M: Machine + Drop> Store<M> {
    /// How many objects the store has, how many bytes each may hold, and how long the log may be.
    pub fn params(&self) -> Params
        ensures { result ≡ params_of self.now.engine }
    {
        self.engine.params()
    }

    /// How many objects are copied, while a backup is being made.
    pub fn copied(&self) -> Option<u32>
        ensures { result ≡ self.now.engine.copied }
    {
        self.engine.copied()
    }

    /// Whether a call was answered that the disk failed.
    pub fn is_broken(&self) -> bool
        ensures { result ≡ self.now.engine.broken }
    {
        self.engine.is_broken()
    }

    /// The machine.
    pub fn machine(&self) -> &M
        ensures { result.now ≡ self.now.machine }
    {
        &self.machine
    }
}
