// What is asked of a store whose slots are copied while it serves.
ghost use Rattle.std.specs.Prelude.{◌≡◌, ◌≢◌, ◌<◌, ◌≤◌, ◌^◌, ℕ, false, List, length, IfErr, IfOk, IfSome, IsErrOf, OnOk};
ghost use Rattle.disk_model.specs.Disk.{Any, In, IsSettledIn, Rises, Runs, Same};
ghost use Rattle.disk_model.specs.declared.machine.FileNo.{FileNo};
ghost use Rattle.disk_model.specs.declared.machine.FileNo.TheVariants.{LogB};
ghost use Rattle.formats.specs.declared.params.Params.{Params};
ghost use Rattle.formats.specs.declared.record.Record.{Record};
ghost use Rattle.log_blocks.specs.Creating.{IsNewLog};
ghost use Rattle.log_records.specs.Loading.{IsTailFault};
ghost use Rattle.log_records.specs.LogCopy.{copied_length, CopyFails, CopyFindsDamage, HoldsCopy, IsCopyLength, IsCopyWithin, IsTooLong};
ghost use Rattle.log_records.specs.RecordLog.{Keeps};
ghost use Rattle.explain_core.specs.World.{World};
ghost use Rattle.store_engine.specs.Engine.{IsAttached, IsEngineRead, ShowsIn, params_of};
ghost use Rattle.store_engine.specs.Failures.{IsFetchFailure};

use crate::Engine;
use disk_model::Machine;
use formats::ReadErr;
use log_records::CopyErr;
use oper_core::Oper;

impl<O: Oper> Engine<O> {
    /// How many objects are copied; none while the slots are not copied.
    pub fn copied(&self) -> Option<u32>
        ensures is { result ≡ self.now.copied }
        ensures within { IfSome result (λ copied. copied ≤ (params_of self.now).objects) }
    {
        self.copied
    }

    /// Notes that so many objects are copied, those of the least numbers; or that the slots are not copied. It is the caller
    /// that copies them.
    pub fn set_copied(&mut self, copied: Option<u32>)
        requires { IfSome copied (λ n. n ≤ (params_of self.old).objects) }
        ensures { self.new ≡ record self.old { copied = copied } }
    {
        self.copied = copied;
    }

    /// Reads the pair that an object's slots hold, in place of what was in the vector, and answers its LSN: 0, and no
    /// bytes, where the object was never installed. What is cached of it is left out of account.
    ///
    /// It fails with `DiskFault`, with `Damaged` where the slot breaks its format, and with `Memory`; then the vector may
    /// have lost what it had.
    pub fn held<M: Machine>(
        &mut self,
        machine: &mut M,
        object: u32,
        into: &mut Vec<u8>,
    ) -> Result<u64, ReadErr>
        requires unbroken { self.old.broken ≡ false }
        requires below { object < (params_of self.old).objects }
        ensures read { IsEngineRead O.meaning (M.disk machine.old) (M.disk machine.new) self.old self.new (IsErrOf result ReadErr.DiskFault) }
        ensures pair { (p : Params) (w : World O) → ShowsIn O.meaning p (M.disk machine.old) self.old w →
            IfOk result (λ lsn. w.slots object ≡ record { lsn = lsn; value = into.new.items }) }
        ensures short { OnOk result (length into.new.items ≤ (params_of self.old).cap) }
        ensures cause { IfErr result (IsFetchFailure (M.disk machine.old) (M.disk machine.new) self.old object) }
        ensures undamaged { (M.disk machine.old).tells_files → IsAttached O.meaning (M.disk machine.old) self.old →
            (file : FileNo) (place : ℕ) → IsErrOf result (ReadErr.Damaged file place) → ⊥ }
    {
        self.store.read_slot(machine, object, into)
    }

    /// Puts a copy of the stable log into the target, whose log files are those of a new store: log B becomes the second log of
    /// that store, with this one's base and as many commands before it, all commands and identity writes that are stable, and
    /// no checkpoint, or, where there are none of these, one checkpoint without redo starts. What waits for a force is left out.
    ///
    /// It answers `LogFull` where the target's log would be longer than a log may be, `DiskFault` and `TargetFault` where a
    /// machine fails, `Damaged` where the log that is read breaks its format, and `Memory`. After any but the two faults the
    /// call may be made again.
    pub fn copy_log<M: Machine, T: Machine>(
        &mut self,
        machine: &mut M,
        target: &mut T,
    ) -> Result<(), CopyErr>
        requires unbroken { self.old.broken ≡ false }
        ensures read { IsEngineRead O.meaning (M.disk machine.old) (M.disk machine.new) self.old self.new (IsErrOf result CopyErr.DiskFault) }
        ensures runs { Runs (In LogB Any) Same (T.disk target.old) (T.disk target.new) }
        ensures copied { (M.disk machine.old).tells_files → (T.disk target.old).tells_files → IsNewLog (T.disk target.old).reads → (stable pending : List (Record O)) → Keeps (O.meaning self.old.parts.log.bounds) (M.disk machine.old) self.old.parts.log stable pending
            → OnOk result (HoldsCopy (O.meaning self.old.parts.log.bounds) self.old.parts.log.log stable (T.disk target.new).reads) }
        ensures settled { OnOk result (IsSettledIn LogB (T.disk target.new)) }
        ensures refused { (T.disk target.old).tells_files → IsNewLog (T.disk target.old).reads → IfErr result (λ e. e ≢ CopyErr.TargetFault → IsNewLog (T.disk target.new).reads) }
        ensures within { OnOk result (IsCopyWithin (O.meaning self.old.parts.log.bounds) (M.disk machine.old) self.old.parts.log) }
        ensures long { (M.disk machine.old).tells_files → (stable pending : List (Record O)) → Keeps (O.meaning self.old.parts.log.bounds) (M.disk machine.old) self.old.parts.log stable pending
            → 2 ^ 48 < copied_length (O.meaning self.old.parts.log.bounds) self.old.parts.log.log stable → target.new ≡ target.old }
        ensures undamaged { (M.disk machine.old).tells_files → IsAttached O.meaning (M.disk machine.old) self.old → IfErr result (λ e. CopyFindsDamage e → ⊥) }
        ensures cause { IfErr result (CopyFails (Rises (M.disk machine.old).disk_faults (M.disk machine.new).disk_faults) (Rises (T.disk target.old).disk_faults (T.disk target.new).disk_faults)
            (IsTailFault (O.meaning self.old.parts.log.bounds) (M.disk machine.new) self.old.parts.log.log) (IsTooLong self.old.parts.log.log (IsCopyLength (O.meaning self.old.parts.log.bounds) (M.disk machine.old) self.old.parts.log))) }
    {
        self.store.copy_log(machine, target)
    }
}
