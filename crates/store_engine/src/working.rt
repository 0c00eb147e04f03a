// The calls that no group allows.
ghost use Rattle.std.specs.Prelude.{◌≡◌, ℕ, false, max, min, None, IfSome, Result};
ghost use Rattle.disk_model.specs.declared.machine.Failed.{Failed as ForceFailure};
ghost use Rattle.formats.specs.Limits.{log_limit};
ghost use Rattle.log_records.specs.declared.rewrite_err.RewriteErr.{RewriteErr as RewriteFailure};
ghost use Rattle.cache_manager.specs.declared.install.Install.{Install as Installs};
ghost use Rattle.cache_manager.specs.declared.install_err.InstallErr.{InstallErr as InstallFailure};
ghost use Rattle.checkpointing.specs.declared.checkpoint_err.CheckpointErr.{CheckpointErr as CheckpointFailure};
ghost use Rattle.store_engine.specs.Calls.{IsBeginning, IsTakingCheckpoint, IsDraining, IsForcing, IsInstalling, IsRefused, IsRefusedBeside, IsTending, IsTrimming, IsTrimmingWithin, refused_beside, refused_in, work_of_checkpoint, work_of_force, work_of_install, work_of_trim};
ghost use Rattle.store_engine.specs.Engine.{group_size, so_far};

use crate::Engine;
use crate::work_err::WorkErr;
use cache_manager::Install;
use disk_model::Machine;
use formats::MAX_LOG;
use oper_core::Oper;

impl<O: Oper> Engine<O> {
    // Refuses a call while a group is open, with the number of its commands.
    fn alone(&self) -> Result<(), WorkErr>
        requires unbroken { self.now.broken ≡ false }
        ensures { result ≡ refused_in (group_size self.now) }
    {
        match self.group() {
            Some(commands) => Err(WorkErr::InGroup { commands }),
            None => Ok(()),
        }
    }

    // Refuses a trim while the slots are copied, with the number of the objects that are.
    fn uncopied(&self) -> Result<(), WorkErr>
        ensures { result ≡ refused_beside self.now.copied }
    {
        match self.copied {
            Some(copied) => Err(WorkErr::InBackup { copied }),
            None => Ok(()),
        }
    }

    // How many objects are copied: none while nothing is.
    pub(crate) fn copied_so_far(&self) -> u32
        ensures { result ≡ so_far self.now.copied }
    {
        match self.copied {
            Some(copied) => copied,
            None => 0,
        }
    }

    /// Forces the log, and opens a group: of the commands from here to its end a crash leaves all or none. In a group it
    /// answers `InGroup`.
    pub fn begin<M: Machine>(&mut self, machine: &mut M) -> Result<(), WorkErr>
        requires unbroken { self.old.broken ≡ false }
        ensures in_group { IfSome (group_size self.old) (λ size. IsRefused size machine.old machine.new self.old self.new result) }
        ensures alone { self.old.group ≡ None → (answer : Result _ ForceFailure) × (result ≡ work_of_force answer) × IsBeginning O.meaning (M.disk machine.old) (M.disk machine.new) self.old self.new answer }
    {
        explain_core::every_run_keeps::<O>();
        explain_core::begin_keeps::<O>();
        standing::image_stands::<O>();
        cache_manager::force_may_be_taken::<O>();
        self.alone()?;
        self.store.force(machine)?;
        self.group = Some(self.store.log().next());
        Ok(())
    }

    /// Forces the log. It answers how many commands are stable now; in a group `InGroup`.
    pub fn force<M: Machine>(&mut self, machine: &mut M) -> Result<u64, WorkErr>
        requires unbroken { self.old.broken ≡ false }
        ensures in_group { IfSome (group_size self.old) (λ size. IsRefused size machine.old machine.new self.old self.new result) }
        ensures alone { self.old.group ≡ None → (answer : Result ℕ ForceFailure) × (result ≡ work_of_force answer) × IsForcing O.meaning (M.disk machine.old) (M.disk machine.new) self.old self.new answer }
    {
        explain_core::every_run_keeps::<O>();
        standing::image_stands::<O>();
        cache_manager::force_may_be_taken::<O>();
        self.alone()?;
        self.store.force(machine)?;
        Ok(self.store.log().forced())
    }

    /// Installs the minimal node of the least name. While it has two objects or more to flush, identity writes of all but
    /// the longest are logged; then all that waits is forced, the one object, if there is one, is flushed, and the node
    /// leaves the graph. While the slots are copied, the longest is kept of those that are not copied yet, and a copied object
    /// is flushed by the node of an identity write of it alone, which is logged before.
    ///
    /// It answers `InGroup` in a group, and `LogFull` and `LsnEnd` where an identity write has no place; all that waited is
    /// forced then.
    pub fn install_one<M: Machine>(&mut self, machine: &mut M) -> Result<Install, WorkErr>
        requires unbroken { self.old.broken ≡ false }
        ensures in_group { IfSome (group_size self.old) (λ size. IsRefused size machine.old machine.new self.old self.new result) }
        ensures alone { self.old.group ≡ None → (answer : Result Installs InstallFailure) × (result ≡ work_of_install answer) × IsInstalling O.meaning (M.disk machine.old) (M.disk machine.new) self.old self.new answer }
    {
        explain_core::every_run_keeps::<O>();
        standing::image_stands::<O>();
        cache_manager::install_may_be_taken::<O>();
        self.alone()?;
        let copied = self.copied_so_far();
        Ok(cache_manager::install_one(&mut self.store, machine, copied)?)
    }

    /// Installs nodes until none is left, those that wait for no other in rounds. It answers how many were installed; in a group
    /// `InGroup`.
    pub fn drain<M: Machine>(&mut self, machine: &mut M) -> Result<u64, WorkErr>
        requires unbroken { self.old.broken ≡ false }
        ensures in_group { IfSome (group_size self.old) (λ size. IsRefused size machine.old machine.new self.old self.new result) }
        ensures alone { self.old.group ≡ None → (answer : Result ℕ InstallFailure) × (result ≡ work_of_install answer) × IsDraining O.meaning (M.disk machine.old) (M.disk machine.new) self.old self.new answer }
    {
        explain_core::every_run_keeps::<O>();
        standing::image_stands::<O>();
        cache_manager::drain_may_be_taken::<O>();
        cache_manager::drain_is_bounded::<O>();
        self.alone()?;
        let copied = self.copied_so_far();
        Ok(cache_manager::drain(&mut self.store, machine, copied)?)
    }

    /// One turn of upkeep: where the minimal node of the least name may not be finished yet, the identity writes of it and of others
    /// like it, so many at most (of 0 it is one), are logged together. Where that node has one object to flush then, it and others
    /// like it are installed together, so many at most: all that waits is forced, so that a force behind the turn has nothing to do,
    /// and three syncs at most serve all of them. Else it is installed as by [`install_one`](Self::install_one). Behind them go, for
    /// which nothing is synced, those that have no object to flush while the minimal node of the least name is such a one, so many
    /// together at most. It answers how many nodes were installed: none exactly where none was left, and then nothing was done. In a
    /// group it answers `InGroup`.
    pub fn tend<M: Machine>(&mut self, machine: &mut M, most: usize) -> Result<u64, WorkErr>
        requires unbroken { self.old.broken ≡ false }
        ensures in_group { IfSome (group_size self.old) (λ size. IsRefused size machine.old machine.new self.old self.new result) }
        ensures alone { self.old.group ≡ None → (answer : Result ℕ InstallFailure) × (result ≡ work_of_install answer) × IsTending O.meaning (M.disk machine.old) (M.disk machine.new) self.old self.new (max 1 most) answer }
    {
        explain_core::every_run_keeps::<O>();
        standing::image_stands::<O>();
        cache_manager::turn_may_be_taken::<O>();
        self.alone()?;
        let copied = self.copied_so_far();
        Ok(cache_manager::tend(&mut self.store, machine, copied, most)?)
    }

    /// Takes a checkpoint of where a redo begins now, and forces it. Where the log has no room for it, what waits is forced, and
    /// `LogFull` is answered. A checkpoint has no LSN, so `LsnEnd` is not. In a group it answers `InGroup`.
    pub fn checkpoint<M: Machine>(&mut self, machine: &mut M) -> Result<(), WorkErr>
        requires unbroken { self.old.broken ≡ false }
        ensures in_group { IfSome (group_size self.old) (λ size. IsRefused size machine.old machine.new self.old self.new result) }
        ensures alone { self.old.group ≡ None → (answer : Result _ CheckpointFailure) × (result ≡ work_of_checkpoint answer) × IsTakingCheckpoint O.meaning (M.disk machine.old) (M.disk machine.new) self.old self.new answer }
    {
        explain_core::every_run_keeps::<O>();
        standing::image_stands::<O>();
        checkpointing::checkpoint_may_be_taken::<O>();
        self.alone()?;
        Ok(checkpointing::checkpoint(&mut self.store, machine)?)
    }

    /// Forces the log and puts another in its place: the commands and identity writes from the least LSN in the write
    /// graph on, or none where the graph is empty, and after them a checkpoint taken now.
    ///
    /// The first that applies is answered: `InGroup`; `InBackup`, while the slots are copied; `Exhausted`, where no greater epoch is left; after the force `Damaged`,
    /// where the log that is read breaks its format, at the first place where it does, `LogFull` and `Memory`. A log that is
    /// as the engine left it is never `Damaged`.
    pub fn trim<M: Machine>(&mut self, machine: &mut M) -> Result<(), WorkErr>
        requires unbroken { self.old.broken ≡ false }
        ensures in_group { IfSome (group_size self.old) (λ size. IsRefused size machine.old machine.new self.old self.new result) }
        ensures in_backup { self.old.group ≡ None → IfSome self.old.copied (λ copied. IsRefusedBeside copied machine.old machine.new self.old self.new result) }
        ensures alone { self.old.group ≡ None → self.old.copied ≡ None → (answer : Result _ RewriteFailure) × (result ≡ work_of_trim answer) × IsTrimming O.meaning (M.disk machine.old) (M.disk machine.new) self.old self.new answer }
    {
        self.trim_within(machine, MAX_LOG)
    }

    /// A trim that leaves a log file of at most `room` bytes, or none: where the file of the new log would be longer, `LogFull` says
    /// how long it would be, and only the force was made. All else is as of [`trim`](Self::trim).
    pub fn trim_within<M: Machine>(&mut self, machine: &mut M, room: u64) -> Result<(), WorkErr>
        requires unbroken { self.old.broken ≡ false }
        ensures in_group { IfSome (group_size self.old) (λ size. IsRefused size machine.old machine.new self.old self.new result) }
        ensures in_backup { self.old.group ≡ None → IfSome self.old.copied (λ copied. IsRefusedBeside copied machine.old machine.new self.old self.new result) }
        ensures alone { self.old.group ≡ None → self.old.copied ≡ None → (answer : Result _ RewriteFailure) × (result ≡ work_of_trim answer) × IsTrimmingWithin O.meaning (M.disk machine.old) (M.disk machine.new) self.old self.new (min room log_limit) answer }
    {
        explain_core::every_run_keeps::<O>();
        standing::image_stands::<O>();
        checkpointing::trim_may_be_taken::<O>();
        self.alone()?;
        self.uncopied()?;
        let most = room.min(MAX_LOG);
        Ok(checkpointing::trim(&mut self.store, machine, most)?)
    }
}
