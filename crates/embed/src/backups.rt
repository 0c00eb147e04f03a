// A backup is started, gone on with and ended.
ghost use Rattle.std.specs.Prelude.{◌≡◌, ◌⊎◌, ◌+◌, ℕ, true, false, length, min, None, Some, Ok, Err, IfErr, IfOk, IsErrOf, OnErr, OnOk};
ghost use Rattle.disk_model.specs.Disk.{In, LeavesOnly, Rises, Runs, Same, Stays};
ghost use Rattle.disk_model.specs.declared.machine.FileNo.{FileNo};
ghost use Rattle.disk_model.specs.declared.machine.FileNo.TheVariants.{Objects};
ghost use Rattle.formats.specs.Objects.{BeginsStore};
ghost use Rattle.formats.specs.declared.params.Params.{Params};
ghost use Rattle.op_codec.specs.AllOps.{AllOps as Command, all_meaning};
ghost use Rattle.explain_core.specs.History.{commands_of};
ghost use Rattle.explain_core.specs.World.{World, run};
ghost use Rattle.log_records.specs.Loading.{IsTailFault};
ghost use Rattle.running_store.specs.Courses.{force_steps};
ghost use Rattle.stable_objects.specs.Making.{KeepsGate};
ghost use Rattle.restart.specs.Starts.{OrAtStart};
ghost use Rattle.store_engine.specs.Engine.{InEachImage, IsAttached, IsEngineRead, ShowsIn, params_of};
ghost use Rattle.store_engine.specs.Store.{meaning_in};
ghost use Rattle.backup_copy.specs.Calls.{BeginsNone, CopiesUpTo, CopyFailsBy, FinishFailsBy, ForcesFirst, HasLength, HasStartCause, IsFault, IsQuiet, IsShutOrWhole, IsUntouched, LooksFirst, NoneIn, but_copied, copied_by_finish, copied_by_start};
ghost use Rattle.backup_copy.specs.Copies.{Copies};
ghost use Rattle.backup_copy.specs.Length.{backup_length};
ghost use Rattle.backup_copy.specs.Refusals.{IsRefusedSo, judge_copy, judge_finish, judge_start};
ghost use Rattle.embed.specs.Embedded.{AreSaved, IsStillBroken};

use crate::Store;
use backup_copy::BackupErr;
use disk_model::Machine;

impl<M: Machine + Drop> Store<M> {
    /// Starts a backup: forces the log, and lays out a store with the same numbers on a second machine, the target, whose objects
    /// gate stays closed. Commands, installs and checkpoints go on meanwhile. It fails as `backup_copy::start`.
    pub fn start_backup<T: Machine>(&mut self, target: &mut T) -> Result<(), BackupErr>
        ensures refused { self.old.engine.broken ≡ false → IfErr (judge_start self.old.engine) (λ why. IsRefusedSo why self.old.machine self.new.machine target.old target.new self.old.engine self.new.engine result) }
        ensures forces { self.old.engine.broken ≡ false → IfOk (judge_start self.old.engine) (λ done. LooksFirst all_meaning (M.disk self.old.machine) (M.disk self.new.machine) self.old.engine self.new.engine
            (IsUntouched self.old.machine self.new.machine self.old.engine self.new.engine) result) }
        ensures copied { self.old.engine.broken ≡ false → self.new.engine.copied ≡ copied_by_start self.old.engine.copied result }
        ensures begun { self.old.engine.broken ≡ false → (p : Params) (w : World Command) → ShowsIn all_meaning p (M.disk self.old.machine) self.old.engine w →
            OnOk result (Copies all_meaning p (M.disk self.new.machine) self.new.engine (run (meaning_in all_meaning p) w (force_steps (meaning_in all_meaning p) w)) (T.disk target.new)) }
        ensures kept { self.old.engine.broken ≡ false → (T.disk target.old).tells_files → BeginsStore ((T.disk target.old).reads Objects) → Stays (T.disk target.old) (T.disk target.new) }
        ensures moments { self.old.engine.broken ≡ false → (T.disk target.old).tells_moments → BeginsNone (T.disk target.old).reads →
            LeavesOnly (T.disk target.old) (T.disk target.new) (OrAtStart (T.disk target.old) (NoneIn (T.disk target.old))) }
        ensures quiet { self.old.engine.broken ≡ false → IsQuiet (T.disk target.old) (T.disk target.new) }
        ensures cause { self.old.engine.broken ≡ false → IfOk (judge_start self.old.engine) (λ done. HasStartCause ((T.disk target.old).tells_files → BeginsStore ((T.disk target.old).reads Objects))
            ((T.disk target.old).tells_files → BeginsNone (T.disk target.old).reads) (Rises (M.disk self.old.machine).disk_faults (M.disk self.new.machine).disk_faults)
            (Rises (T.disk target.old).disk_faults (T.disk target.new).disk_faults) result) }
        ensures broken { self.old.engine.broken ≡ true → IsStillBroken BackupErr.DiskFault self.old self.new result × (target.new ≡ target.old) }
    {
        if self.is_broken() {
            return Err(BackupErr::DiskFault);
        }
        backup_copy::start(&mut self.engine, &mut self.machine, target)
    }

    /// Copies the next `count` objects to the target, fewer at the end. It answers how many objects are copied, and fails as
    /// `backup_copy::copy`.
    pub fn copy_backup<T: Machine>(&mut self, target: &mut T, count: u32) -> Result<u32, BackupErr>
        ensures refused { self.old.engine.broken ≡ false → IfErr (judge_copy self.old.engine) (λ why. IsRefusedSo why self.old.machine self.new.machine target.old target.new self.old.engine self.new.engine result) }
        ensures read { self.old.engine.broken ≡ false → IsEngineRead all_meaning (M.disk self.old.machine) (M.disk self.new.machine) self.old.engine (but_copied self.old.engine self.new.engine) (IsErrOf result BackupErr.DiskFault) }
        ensures attached { self.old.engine.broken ≡ false → IsAttached all_meaning (M.disk self.old.machine) self.old.engine → IsAttached all_meaning (M.disk self.new.machine) self.new.engine }
        ensures runs { self.old.engine.broken ≡ false → Runs (In Objects KeepsGate) Same (T.disk target.old) (T.disk target.new) }
        ensures count { self.old.engine.broken ≡ false → IfOk (judge_copy self.old.engine) (λ copied. CopiesUpTo copied (min (copied + count) (params_of self.old.engine).objects) self.new.engine.copied result) }
        ensures told { self.old.engine.broken ≡ false → IfOk result (λ n. self.new.engine.copied ≡ Some n) }
        ensures goes_on { self.old.engine.broken ≡ false → (p : Params) (w : World Command) → Copies all_meaning p (M.disk self.old.machine) self.old.engine w (T.disk target.old) →
            IsFault result ⊎ Copies all_meaning p (M.disk self.new.machine) self.new.engine w (T.disk target.new) }
        ensures undamaged { self.old.engine.broken ≡ false → (M.disk self.old.machine).tells_files → IsAttached all_meaning (M.disk self.old.machine) self.old.engine →
            (file : FileNo) (place : ℕ) → IsErrOf result (BackupErr.Damaged file place) → ⊥ }
        ensures cause { self.old.engine.broken ≡ false → IfOk (judge_copy self.old.engine) (λ copied. IfErr result (CopyFailsBy (M.disk self.new.machine) self.old.engine self.new.engine.copied
            (Rises (M.disk self.old.machine).disk_faults (M.disk self.new.machine).disk_faults) (Rises (T.disk target.old).disk_faults (T.disk target.new).disk_faults))) }
        ensures broken { self.old.engine.broken ≡ true → IsStillBroken BackupErr.DiskFault self.old self.new result × (target.new ≡ target.old) }
    {
        if self.is_broken() {
            return Err(BackupErr::DiskFault);
        }
        backup_copy::copy(&mut self.engine, &mut self.machine, target, count)
    }

    /// Finishes a backup whose objects are all copied: forces the log, puts its records into the target's log, and opens the
    /// target's objects gate. From then on the target is a store, and stands for the commands that were accepted here. It answers
    /// how many these are, and fails as `backup_copy::finish`.
    pub fn finish_backup<T: Machine>(&mut self, target: &mut T) -> Result<u64, BackupErr>
        ensures refused { self.old.engine.broken ≡ false → IfErr (judge_finish self.old.engine) (λ why. IsRefusedSo why self.old.machine self.new.machine target.old target.new self.old.engine self.new.engine result) }
        ensures forces { self.old.engine.broken ≡ false → IfOk (judge_finish self.old.engine) (λ done. ForcesFirst all_meaning (M.disk self.old.machine) (M.disk self.new.machine) self.old.engine self.new.engine result)
            × (self.new.engine.copied ≡ copied_by_finish self.old.engine.copied result) }

        // The target stands for the commands that the store stands for, with the history of the store, and so does whatever a crash
        // leaves of it.
        ensures saved { self.old.engine.broken ≡ false → (p : Params) (w : World Command) → Copies all_meaning p (M.disk self.old.machine) self.old.engine w (T.disk target.old) →
            IfOk result (λ n. (n ≡ length (commands_of w.history)) × ((T.disk target.old).tells_files → InEachImage (T.disk target.new) (AreSaved p w.history))) }

        // Until it does its gate is closed.
        ensures moments { self.old.engine.broken ≡ false → (T.disk target.old).tells_moments → (p : Params) (w : World Command) → Copies all_meaning p (M.disk self.old.machine) self.old.engine w (T.disk target.old) →
            LeavesOnly (T.disk target.old) (T.disk target.new) (IsShutOrWhole all_meaning p (commands_of w.history) (T.disk target.old)) }

        ensures again { self.old.engine.broken ≡ false → (p : Params) (w : World Command) → Copies all_meaning p (M.disk self.old.machine) self.old.engine w (T.disk target.old) →
            IfOk (judge_finish self.old.engine) (λ done. OnErr result
            (IsFault result ⊎ Copies all_meaning p (M.disk self.new.machine) self.new.engine (run (meaning_in all_meaning p) w (force_steps (meaning_in all_meaning p) w)) (T.disk target.new))) }
        ensures quiet { self.old.engine.broken ≡ false → IsQuiet (T.disk target.old) (T.disk target.new) }
        ensures undamaged { self.old.engine.broken ≡ false → (M.disk self.old.machine).tells_files → IsAttached all_meaning (M.disk self.old.machine) self.old.engine →
            (file : FileNo) (place : ℕ) → IsErrOf result (BackupErr.Damaged file place) → ⊥ }
        ensures cause { self.old.engine.broken ≡ false → IfOk (judge_finish self.old.engine) (λ done. IfErr result (FinishFailsBy (Rises (M.disk self.old.machine).disk_faults (M.disk self.new.machine).disk_faults)
            (Rises (T.disk target.old).disk_faults (T.disk target.new).disk_faults) (IsTailFault (all_meaning self.new.engine.parts.log.bounds) (M.disk self.new.machine) self.new.engine.parts.log.log) self.new.engine)) }
        ensures long { self.old.engine.broken ≡ false → (p : Params) (w : World Command) → ShowsIn all_meaning p (M.disk self.old.machine) self.old.engine w →
            HasLength (backup_length (meaning_in all_meaning p) (run (meaning_in all_meaning p) w (force_steps (meaning_in all_meaning p) w))) result }
        ensures broken { self.old.engine.broken ≡ true → IsStillBroken BackupErr.DiskFault self.old self.new result × (target.new ≡ target.old) }
    {
        if self.is_broken() {
            return Err(BackupErr::DiskFault);
        }
        backup_copy::finish(&mut self.engine, &mut self.machine, target)
    }

    /// Gives up the backup that is being made: the target, whose objects gate is closed, is no store.
    pub fn give_up_backup(&mut self) -> Result<(), BackupErr>
        ensures refused { self.old.engine.broken ≡ false → IfErr (judge_copy self.old.engine) (λ why. (result ≡ Err why) × (self.new ≡ self.old)) }
        ensures given_up { self.old.engine.broken ≡ false → IfOk (judge_copy self.old.engine) (λ copied. (result ≡ Ok tt) × (self.new ≡ record self.old { engine = record self.old.engine { copied = None } })) }
        ensures broken { self.old.engine.broken ≡ true → IsStillBroken BackupErr.DiskFault self.old self.new result }
    {
        if self.is_broken() {
            return Err(BackupErr::DiskFault);
        }
        backup_copy::give_up(&mut self.engine)
    }
}
