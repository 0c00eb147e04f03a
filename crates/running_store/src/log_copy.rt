// The log of a store is copied to another machine.
ghost use Rattle.std.specs.Prelude.{◌≡◌, ◌≢◌, ◌<◌, ◌^◌, false, List, IfErr, OnOk};
ghost use Rattle.disk_model.specs.Disk.{Any, In, IsSettledIn, Rises, Runs, Same};
ghost use Rattle.disk_model.specs.declared.machine.FileNo.TheVariants.{LogB};
ghost use Rattle.formats.specs.declared.record.Record.{Record};
ghost use Rattle.log_blocks.specs.Creating.{IsNewLog};
ghost use Rattle.log_records.specs.Loading.{IsTailFault};
ghost use Rattle.log_records.specs.LogCopy.{copied_length, CopyFails, CopyFindsDamage, HoldsCopy, IsCopyLength, IsCopyWithin, IsTooLong};
ghost use Rattle.log_records.specs.RecordLog.{Keeps};
ghost use Rattle.log_records.specs.declared.copy_err.CopyErr.TheVariants as of_copy;
ghost use Rattle.running_store.specs.Calls.Faults.{has_failed, is_copy_fault};
ghost use Rattle.running_store.specs.Calls.LogReads.{IsLogRead};

use crate::fault::note;
use crate::store::Store;
use disk_model::Machine;
use log_records::CopyErr;
use oper_core::Oper;

impl<O: Oper> Store<O> {
    /// Puts a copy of the log into another machine, as [`log_records::RecordLog::copy_to`] does.
    pub fn copy_log<M: Machine, T: Machine>(
        &mut self,
        machine: &mut M,
        target: &mut T,
    ) -> Result<(), CopyErr>
        requires unbroken { self.old.broken ≡ false }
        ensures kept { IsLogRead (M.disk machine.old) (M.disk machine.new) self.old self.new (has_failed is_copy_fault result) }
        ensures runs { Runs (In LogB Any) Same (T.disk target.old) (T.disk target.new) }
        ensures copied { (M.disk machine.old).tells_files → (T.disk target.old).tells_files → IsNewLog (T.disk target.old).reads → (stable pending : List (Record O)) → Keeps (O.meaning self.old.parts.log.bounds) (M.disk machine.old) self.old.parts.log stable pending
            → OnOk result (HoldsCopy (O.meaning self.old.parts.log.bounds) self.old.parts.log.log stable (T.disk target.new).reads) }
        ensures settled { OnOk result (IsSettledIn LogB (T.disk target.new)) }
        ensures refused { (T.disk target.old).tells_files → IsNewLog (T.disk target.old).reads → IfErr result (λ e. e ≢ of_copy.TargetFault → IsNewLog (T.disk target.new).reads) }
        ensures within { OnOk result (IsCopyWithin (O.meaning self.old.parts.log.bounds) (M.disk machine.old) self.old.parts.log) }
        ensures long { (M.disk machine.old).tells_files → (stable pending : List (Record O)) → Keeps (O.meaning self.old.parts.log.bounds) (M.disk machine.old) self.old.parts.log stable pending
            → 2 ^ 48 < copied_length (O.meaning self.old.parts.log.bounds) self.old.parts.log.log stable → target.new ≡ target.old }
        ensures undamaged { (M.disk machine.old).tells_files → (stable pending : List (Record O)) → Keeps (O.meaning self.old.parts.log.bounds) (M.disk machine.old) self.old.parts.log stable pending
            → IfErr result (λ e. CopyFindsDamage e → ⊥) }
        ensures cause { IfErr result (CopyFails (Rises (M.disk machine.old).disk_faults (M.disk machine.new).disk_faults) (Rises (T.disk target.old).disk_faults (T.disk target.new).disk_faults)
            (IsTailFault (O.meaning self.old.parts.log.bounds) (M.disk machine.new) self.old.parts.log.log) (IsTooLong self.old.parts.log.log (IsCopyLength (O.meaning self.old.parts.log.bounds) (M.disk machine.old) self.old.parts.log))) }
    {
        let answer = self.log.copy_to(machine, target);
        note(&mut self.broken, &answer);
        answer
    }
}
