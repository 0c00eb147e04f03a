// Groups, forces, installs, checkpoints, trims and upkeep.
ghost use Rattle.std.specs.Prelude.{◌≡◌, true, false, ℕ, None, Some, Ok, IfSome, Result, max};
ghost use Rattle.disk_model.specs.Disk.{Passes};
ghost use Rattle.disk_model.specs.declared.machine.Failed.{Failed as ForceFailure};
ghost use Rattle.log_records.specs.declared.rewrite_err.RewriteErr.{RewriteErr as RewriteFailure};
ghost use Rattle.cache_manager.specs.declared.install.Install.{Install as Installs};
ghost use Rattle.cache_manager.specs.declared.install_err.InstallErr.{InstallErr as InstallFailure};
ghost use Rattle.checkpointing.specs.declared.checkpoint_err.CheckpointErr.{CheckpointErr as CheckpointFailure};
ghost use Rattle.op_codec.specs.AllOps.{all_meaning};
ghost use Rattle.store_engine.specs.Calls.{IsBeginning, IsTakingCheckpoint, IsDraining, IsForcing, IsInstalling, IsRefused, IsRefusedBeside, IsTending, IsTrimming, work_of_checkpoint, work_of_force, work_of_install, work_of_trim};
ghost use Rattle.store_engine.specs.Engine.{group_size};
ghost use Rattle.store_engine.specs.Upkept.{IsKeptUp, IsLeftAlone};
ghost use Rattle.embed.specs.Embedded.{IsStillBroken, Reports};

use crate::Store;
use disk_model::Machine;
use store_engine::{Install, Pace, ReadErr, Stat, UpkeepReport, WorkErr};

impl<M: Machine + Drop> Store<M> {
    /// Makes all commands durable. It answers how many there are; in a group `InGroup`.
    pub fn force(&mut self) -> Result<u64, WorkErr>
        ensures time { Passes (M.disk self.old.machine) (M.disk self.new.machine) }
        ensures in_group { self.old.engine.broken ≡ false → IfSome (group_size self.old.engine) (λ size. IsRefused size self.old.machine self.new.machine self.old.engine self.new.engine result) }
        ensures alone { self.old.engine.broken ≡ false → self.old.engine.group ≡ None → (answer : Result ℕ ForceFailure) × (result ≡ work_of_force answer) × IsForcing all_meaning (M.disk self.old.machine) (M.disk self.new.machine) self.old.engine self.new.engine answer }
        ensures broken { self.old.engine.broken ≡ true → IsStillBroken WorkErr.DiskFault self.old self.new result }
    {
        if self.is_broken() {
            return Err(WorkErr::DiskFault);
        }
        self.engine.force(&mut self.machine)
    }

    /// Makes all commands durable, and opens a group: of the commands from here to its end a crash leaves all or none.
    pub fn begin(&mut self) -> Result<(), WorkErr>
        ensures time { Passes (M.disk self.old.machine) (M.disk self.new.machine) }
        ensures in_group { self.old.engine.broken ≡ false → IfSome (group_size self.old.engine) (λ size. IsRefused size self.old.machine self.new.machine self.old.engine self.new.engine result) }
        ensures alone { self.old.engine.broken ≡ false → self.old.engine.group ≡ None → (answer : Result _ ForceFailure) × (result ≡ work_of_force answer) × IsBeginning all_meaning (M.disk self.old.machine) (M.disk self.new.machine) self.old.engine self.new.engine answer }
        ensures broken { self.old.engine.broken ≡ true → IsStillBroken WorkErr.DiskFault self.old self.new result }
    {
        if self.is_broken() {
            return Err(WorkErr::DiskFault);
        }
        self.engine.begin(&mut self.machine)
    }

    /// Closes the open group. It answers how many commands the group has; none where none is open.
    pub fn end(&mut self) -> Result<Option<u64>, WorkErr>
        ensures time { Passes (M.disk self.old.machine) (M.disk self.new.machine) }
        ensures none { self.old.engine.broken ≡ false → self.old.engine.group ≡ None → (result ≡ Ok None) × (self.new ≡ self.old) }
        ensures some { self.old.engine.broken ≡ false → IfSome (group_size self.old.engine) (λ size. (result ≡ Ok (Some size)) × (self.new ≡ record self.old { engine = record self.old.engine { group = None } })) }
        ensures broken { self.old.engine.broken ≡ true → IsStillBroken WorkErr.DiskFault self.old self.new result }
    {
        if self.is_broken() {
            return Err(WorkErr::DiskFault);
        }
        match self.engine.end() {
            Ok(commands) => Ok(Some(commands)),
            Err(_) => Ok(None),
        }
    }

    /// Installs the minimal node of the least name of the write graph, as the engine's `install_one`.
    pub fn install(&mut self) -> Result<Install, WorkErr>
        ensures time { Passes (M.disk self.old.machine) (M.disk self.new.machine) }
        ensures in_group { self.old.engine.broken ≡ false → IfSome (group_size self.old.engine) (λ size. IsRefused size self.old.machine self.new.machine self.old.engine self.new.engine result) }
        ensures alone { self.old.engine.broken ≡ false → self.old.engine.group ≡ None → (answer : Result Installs InstallFailure) × (result ≡ work_of_install answer) × IsInstalling all_meaning (M.disk self.old.machine) (M.disk self.new.machine) self.old.engine self.new.engine answer }
        ensures broken { self.old.engine.broken ≡ true → IsStillBroken WorkErr.DiskFault self.old self.new result }
    {
        if self.is_broken() {
            return Err(WorkErr::DiskFault);
        }
        self.engine.install_one(&mut self.machine)
    }

    /// Installs all nodes of the write graph. It answers how many.
    pub fn drain(&mut self) -> Result<u64, WorkErr>
        ensures time { Passes (M.disk self.old.machine) (M.disk self.new.machine) }
        ensures in_group { self.old.engine.broken ≡ false → IfSome (group_size self.old.engine) (λ size. IsRefused size self.old.machine self.new.machine self.old.engine self.new.engine result) }
        ensures alone { self.old.engine.broken ≡ false → self.old.engine.group ≡ None → (answer : Result ℕ InstallFailure) × (result ≡ work_of_install answer) × IsDraining all_meaning (M.disk self.old.machine) (M.disk self.new.machine) self.old.engine self.new.engine answer }
        ensures broken { self.old.engine.broken ≡ true → IsStillBroken WorkErr.DiskFault self.old self.new result }
    {
        if self.is_broken() {
            return Err(WorkErr::DiskFault);
        }
        self.engine.drain(&mut self.machine)
    }

    /// One turn of upkeep, as the engine's `tend`: nodes that have several objects to flush are made ready by identity writes, all that
    /// waits is forced, and so many nodes together at most (of 0 it is one) are installed with three syncs at most, or one is, and then
    /// those that have no object to flush. It answers how many: none exactly where none was left.
    pub fn tend(&mut self, most: usize) -> Result<u64, WorkErr>
        ensures time { Passes (M.disk self.old.machine) (M.disk self.new.machine) }
        ensures in_group { self.old.engine.broken ≡ false → IfSome (group_size self.old.engine) (λ size. IsRefused size self.old.machine self.new.machine self.old.engine self.new.engine result) }
        ensures alone { self.old.engine.broken ≡ false → self.old.engine.group ≡ None → (answer : Result ℕ InstallFailure) × (result ≡ work_of_install answer) × IsTending all_meaning (M.disk self.old.machine) (M.disk self.new.machine) self.old.engine self.new.engine (max 1 most) answer }
        ensures broken { self.old.engine.broken ≡ true → IsStillBroken WorkErr.DiskFault self.old self.new result }
    {
        if self.is_broken() {
            return Err(WorkErr::DiskFault);
        }
        self.engine.tend(&mut self.machine, most)
    }

    /// Upkeep at a pace, for a program that makes this call after each of its others: at most one turn and at most one short trim, as
    /// the engine's `keep_up`. In a group nothing is done.
    pub fn keep_up(&mut self, pace: &mut Pace) -> Result<UpkeepReport, ReadErr>
        ensures time { Passes (M.disk self.old.machine) (M.disk self.new.machine) }
        ensures in_group { self.old.engine.broken ≡ false → IfSome (group_size self.old.engine) (λ size. IsLeftAlone self.old.machine self.new.machine self.old.engine self.new.engine pace.old pace.new result) }
        ensures alone { self.old.engine.broken ≡ false → self.old.engine.group ≡ None → IsKeptUp all_meaning (M.disk self.old.machine) (M.disk self.new.machine) self.old.engine self.new.engine pace.old pace.new result }
        ensures broken { self.old.engine.broken ≡ true → IsStillBroken ReadErr.DiskFault self.old self.new result }
    {
        if self.is_broken() {
            return Err(ReadErr::DiskFault);
        }
        self.engine.keep_up(&mut self.machine, pace)
    }

    /// Logs a checkpoint of where a redo begins, and makes it durable.
    pub fn checkpoint(&mut self) -> Result<(), WorkErr>
        ensures time { Passes (M.disk self.old.machine) (M.disk self.new.machine) }
        ensures in_group { self.old.engine.broken ≡ false → IfSome (group_size self.old.engine) (λ size. IsRefused size self.old.machine self.new.machine self.old.engine self.new.engine result) }
        ensures alone { self.old.engine.broken ≡ false → self.old.engine.group ≡ None → (answer : Result _ CheckpointFailure) × (result ≡ work_of_checkpoint answer) × IsTakingCheckpoint all_meaning (M.disk self.old.machine) (M.disk self.new.machine) self.old.engine self.new.engine answer }
        ensures broken { self.old.engine.broken ≡ true → IsStillBroken WorkErr.DiskFault self.old self.new result }
    {
        if self.is_broken() {
            return Err(WorkErr::DiskFault);
        }
        self.engine.checkpoint(&mut self.machine)
    }

    /// Rewrites the log without the records that no redo needs.
    pub fn trim(&mut self) -> Result<(), WorkErr>
        ensures time { Passes (M.disk self.old.machine) (M.disk self.new.machine) }
        ensures in_group { self.old.engine.broken ≡ false → IfSome (group_size self.old.engine) (λ size. IsRefused size self.old.machine self.new.machine self.old.engine self.new.engine result) }
        ensures in_backup { self.old.engine.broken ≡ false → self.old.engine.group ≡ None → IfSome self.old.engine.copied (λ copied. IsRefusedBeside copied self.old.machine self.new.machine self.old.engine self.new.engine result) }
        ensures alone { self.old.engine.broken ≡ false → self.old.engine.group ≡ None → self.old.engine.copied ≡ None → (answer : Result _ RewriteFailure) × (result ≡ work_of_trim answer) × IsTrimming all_meaning (M.disk self.old.machine) (M.disk self.new.machine) self.old.engine self.new.engine answer }
        ensures broken { self.old.engine.broken ≡ true → IsStillBroken WorkErr.DiskFault self.old self.new result }
    {
        if self.is_broken() {
            return Err(WorkErr::DiskFault);
        }
        self.engine.trim(&mut self.machine)
    }

    /// What the store reports of itself.
    pub fn stat(&self) -> Stat
        ensures { Reports self.now.engine (M.disk self.now.machine) result }
    {
        self.engine.stat()
    }
}
