// What may be done between two frames.
ghost use Rattle.std.specs.Prelude.{◌≡◌, ◌⊎◌, Result, IsErrOf};
ghost use Rattle.log_records.specs.declared.rewrite_err.RewriteErr.{RewriteErr as RewriteFailure};
ghost use Rattle.checkpointing.specs.declared.checkpoint_err.CheckpointErr.{CheckpointErr as CheckpointFailure};
ghost use Rattle.store_engine.specs.Calls.{IsTakingCheckpoint, IsTrimming, work_of_checkpoint, work_of_trim};
ghost use Rattle.standby_node.specs.Standby.{MayBeKeptUp, StillFollows};
ghost use Rattle.standby_node.specs.Upkeep.{HasForcedAndTended};

use crate::Standby;
use disk_model::Machine;
use oper_core::Oper;
use store_engine::{StoreErr, WorkErr};

impl<O: Oper> Standby<O> {
    /// Forces what waits, and takes a turn for which nothing is logged, of so many nodes at most, as
    /// [`store_engine::Engine::tend_thin`] does. It answers how many nodes were installed.
    pub fn tend_thin<M: Machine>(&mut self, machine: &mut M, most: usize) -> Result<u64, StoreErr>
        requires ready { MayBeKeptUp self.old }
        ensures tended { HasForcedAndTended O.meaning M.disk machine.old machine.new self.old.engine self.new.engine most result }
        ensures rest { self.new ≡ record self.old { engine = self.new.engine } }
        ensures kept { StillFollows O.meaning (M.disk machine.old) (M.disk machine.new) self.old self.new (IsErrOf result StoreErr.DiskFault) }
    {
        if self.engine.force(machine).is_err() {
            return Err(StoreErr::DiskFault);
        }
        self.engine.tend_thin(machine, most)
    }

    /// Takes a checkpoint of where a redo begins now, and forces it, as [`store_engine::Engine::checkpoint`] does. After `Memory` the
    /// checkpoint may wait for a force, so nothing is said of what is followed then: a new standby is to be attached.
    pub fn checkpoint<M: Machine>(&mut self, machine: &mut M) -> Result<(), WorkErr>
        requires ready { MayBeKeptUp self.old }
        ensures checkpointed { (answer : Result _ CheckpointFailure) × (result ≡ work_of_checkpoint answer) × IsTakingCheckpoint O.meaning (M.disk machine.old) (M.disk machine.new) self.old.engine self.new.engine answer }
        ensures rest { self.new ≡ record self.old { engine = self.new.engine } }
        ensures kept { StillFollows O.meaning (M.disk machine.old) (M.disk machine.new) self.old self.new (IsErrOf result WorkErr.DiskFault ⊎ IsErrOf result WorkErr.Memory) }
    {
        self.engine.checkpoint(machine)
    }

    /// Puts a log in the place of this one that begins with the least LSN in the write graph, as [`store_engine::Engine::trim`]
    /// does. It is how the log stays short: no store's limit stops what is followed.
    pub fn trim<M: Machine>(&mut self, machine: &mut M) -> Result<(), WorkErr>
        requires ready { MayBeKeptUp self.old }
        ensures trimmed { (answer : Result _ RewriteFailure) × (result ≡ work_of_trim answer) × IsTrimming O.meaning (M.disk machine.old) (M.disk machine.new) self.old.engine self.new.engine answer }
        ensures rest { self.new ≡ record self.old { engine = self.new.engine } }
        ensures kept { StillFollows O.meaning (M.disk machine.old) (M.disk machine.new) self.old self.new (IsErrOf result WorkErr.DiskFault) }
    {
        self.engine.trim(machine)
    }
}
