// Puts a copy of a log into another machine's files, which are those of a new store.
ghost use Rattle.std.specs.Prelude.{◌≡◌, ◌≢◌, ◌<◌, ◌≤◌, ◌+◌, ◌^◌, [], List, IfErr, IfOk, OnOk, option_copied};
ghost use Rattle.disk_model.specs.Disk.{Any, In, IsSettledIn, Rises, Runs, Same, Stays};
ghost use Rattle.disk_model.specs.declared.machine.FileNo.TheVariants.{LogB};
ghost use Rattle.formats.specs.Reading.{FailsBy, TellsDamage};
ghost use Rattle.formats.specs.Records.{IsRecordLog, records_of};
ghost use Rattle.formats.specs.declared.record.Record.{Record};
ghost use Rattle.log_blocks.specs.Creating.{IsNewLog};
ghost use Rattle.log_records.specs.Laying.{room_of};
ghost use Rattle.log_records.specs.Loading.{IsTailFault};
ghost use Rattle.log_records.specs.LogCopy.{copied_length, CopyFails, CopyFindsDamage, HasLast, HoldsCopy, IsCopyLength, IsCopyPlanned, IsCopyWithin, IsTooLong};
ghost use Rattle.log_records.specs.Measured.{IsMeasured};
ghost use Rattle.log_records.specs.RecordLog.{Keeps};
ghost use Rattle.log_records.specs.declared.copy_err.CopyErr.TheVariants as of_copy;

use crate::RecordLog;
use crate::copy_err::CopyErr;
use crate::measured::Measured;
use crate::measuring::{checkpoint_length, measure};
use crate::new_log::NewLog;
use crate::planning::{MAX_BLOCKS, file_length};
use dirty_page_table::{DirtyPageTable, Starts};
use disk_model::{FileNo, Machine};
use formats::{MAX_LOG, ReadErr, Record};
use log_blocks::LogWriter;
use oper_core::{Bounds, Oper};
use std::alloc::Global;

// The checkpoint that a copy has where it has nothing else, counted into its block: one without redo starts.
fn count_last<O: Oper>(alloc: Global, base: u64, so_far: &mut Measured) -> Option<Record<O>>
    ensures { (b : Bounds) (records : List (Record O)) → IsMeasured (O.meaning b) base records so_far.old → HasLast (O.meaning b) base records so_far.new result }
{
    if so_far.filled > 0 {
        return None;
    }
    let table = DirtyPageTable {
        next: base,
        starts: Starts::new(Vec::new(alloc)),
    };
    so_far.filled = checkpoint_length(&table);
    Some(Record::Checkpoint(table))
}

impl<O: Oper> RecordLog<O> {
    // What the copy of this log will be, and the checkpoint that comes last in it, if one does.
    fn measure_copy<M: Machine>(&self, m: &mut M) -> Result<(NewLog, Option<Record<O>>), ReadErr>
        ensures kept { Stays (M.disk m.old) (M.disk m.new) }
        ensures planned { IfOk result (λ it. IsCopyPlanned (O.meaning self.now.bounds) (M.disk m.new) self.now.log it.0 it.1) }
        ensures fits { IfOk result (λ it. 34 + room_of it.0.lengths.items < 2 ^ 63) }
        ensures undamaged { (M.disk m.old).tells_files → (stable pending : List (Record O)) → Keeps (O.meaning self.now.bounds) (M.disk m.old) self.now stable pending
            → IfErr result (λ e. TellsDamage e → ⊥) }
        ensures cause { IfErr result (FailsBy (Rises (M.disk m.old).disk_faults (M.disk m.new).disk_faults)
            (IsTailFault (O.meaning self.now.bounds) (M.disk m.new) self.now.log)) }
    {
        let base = self.log.base();
        let mut it = measure::<O, M>(self.alloc, m, self.bounds, &self.log, base)?;
        let last = count_last(self.alloc, base, &mut it);
        it.full.push(it.filled)?;
        if it.full.len() > MAX_BLOCKS {
            return Err(ReadErr::Memory);
        }
        let new = NewLog {
            commands: self.log.commands(),
            lengths: it.full,
        };
        Ok((new, last))
    }

    // The same, where a file has room for it.
    fn plan_copy<M: Machine>(&self, m: &mut M) -> Result<(NewLog, Option<Record<O>>), CopyErr>
        ensures kept { Stays (M.disk m.old) (M.disk m.new) }
        ensures planned { IfOk result (λ it. IsCopyPlanned (O.meaning self.now.bounds) (M.disk m.new) self.now.log it.0 it.1) }
        ensures fits { IfOk result (λ it. 34 + room_of it.0.lengths.items ≤ 2 ^ 48) }
        ensures within { OnOk result (IsCopyWithin (O.meaning self.now.bounds) (M.disk m.old) self.now) }
        ensures undamaged { (M.disk m.old).tells_files → (stable pending : List (Record O)) → Keeps (O.meaning self.now.bounds) (M.disk m.old) self.now stable pending
            → IfErr result (λ e. CopyFindsDamage e → ⊥) }
        ensures cause { IfErr result (CopyFails (Rises (M.disk m.old).disk_faults (M.disk m.new).disk_faults) ⊥ (IsTailFault (O.meaning self.now.bounds) (M.disk m.new) self.now.log)
            (IsTooLong self.now.log (IsCopyLength (O.meaning self.now.bounds) (M.disk m.old) self.now))) }
    {
        let (new, last) = self.measure_copy(m)?;
        let need = file_length(&new.lengths);
        if need > MAX_LOG {
            return Err(CopyErr::LogFull {
                used: self.log.used(),
                need,
                limit: MAX_LOG,
            });
        }
        Ok((new, last))
    }

    // Puts the copy that was planned into the target's log B.
    fn put_copy<M: Machine, T: Machine>(
        &self,
        m: &mut M,
        target: &mut T,
        new: NewLog,
        last: Option<&Record<O>>,
        out: &mut LogWriter,
    ) -> Result<(), CopyErr>
        requires planned { IsCopyPlanned (O.meaning self.now.bounds) (M.disk m.old) self.now.log new (option_copied last) }
        requires fits { 34 + room_of new.lengths.items ≤ 2 ^ 48 }
        requires out { out.old ≡ record { file = LogB; place = 1; bytes = [] } }
        ensures kept { Stays (M.disk m.old) (M.disk m.new) }
        ensures runs { Runs (In LogB Any) Same (T.disk target.old) (T.disk target.new) }
        ensures copied { (M.disk m.old).tells_files → (T.disk target.old).tells_files → IsNewLog (T.disk target.old).reads → (groups : List (List (Record O))) → IsRecordLog (O.meaning self.now.bounds) self.now.log.header groups ((M.disk m.old).reads self.now.log.active)
            → OnOk result (HoldsCopy (O.meaning self.now.bounds) self.now.log (records_of groups) (T.disk target.new).reads) }
        ensures settled { OnOk result (IsSettledIn LogB (T.disk target.new)) }
        ensures refused { (T.disk target.old).tells_files → IsNewLog (T.disk target.old).reads → IfErr result (λ e. e ≢ of_copy.TargetFault → IsNewLog (T.disk target.new).reads) }
        ensures cause { IfErr result (CopyFails (Rises (M.disk m.old).disk_faults (M.disk m.new).disk_faults) (Rises (T.disk target.old).disk_faults (T.disk target.new).disk_faults)
            (IsTailFault (O.meaning self.now.bounds) (M.disk m.new) self.now.log) (λ u n l. ⊥)) }
    {
        out.close_header(target)?;
        out.begin_second(target, self.log.base(), self.log.commands())?;
        self.copy_into(m, target, last, new, out)?;
        out.finish(target)?;
        out.open_header(target)?;
        Ok(())
    }

    /// Puts a copy of this log into another machine, whose log files are those of a new store: log B becomes the second log
    /// of that store, with this log's base and as many commands before it. It has all stable commands and identity writes,
    /// in blocks each as full as whole records allow, and no checkpoint; where there are none it has one checkpoint, without redo
    /// starts. The copy counts once it is whole. Nothing changes on this log's machine, where the log is read twice. No more
    /// than one record and 64 KiB of the copy are in memory at a time. After any error but `TargetFault` the call may be
    /// made again.
    pub fn copy_to<M: Machine, T: Machine>(&self, m: &mut M, target: &mut T) -> Result<(), CopyErr>
        ensures kept { Stays (M.disk m.old) (M.disk m.new) }
        ensures runs { Runs (In LogB Any) Same (T.disk target.old) (T.disk target.new) }
        ensures copied { (M.disk m.old).tells_files → (T.disk target.old).tells_files → IsNewLog (T.disk target.old).reads → (stable pending : List (Record O)) → Keeps (O.meaning self.now.bounds) (M.disk m.old) self.now stable pending
            → OnOk result (HoldsCopy (O.meaning self.now.bounds) self.now.log stable (T.disk target.new).reads) }

        // A crash after it leaves the copy.
        ensures settled { OnOk result (IsSettledIn LogB (T.disk target.new)) }

        ensures refused { (T.disk target.old).tells_files → IsNewLog (T.disk target.old).reads → IfErr result (λ e. e ≢ of_copy.TargetFault → IsNewLog (T.disk target.new).reads) }
        ensures within { OnOk result (IsCopyWithin (O.meaning self.now.bounds) (M.disk m.old) self.now) }

        // Where the copy would be too long the target is not touched.
        ensures long { (M.disk m.old).tells_files → (stable pending : List (Record O)) → Keeps (O.meaning self.now.bounds) (M.disk m.old) self.now stable pending
            → 2 ^ 48 < copied_length (O.meaning self.now.bounds) self.now.log stable → target.new ≡ target.old }

        ensures undamaged { (M.disk m.old).tells_files → (stable pending : List (Record O)) → Keeps (O.meaning self.now.bounds) (M.disk m.old) self.now stable pending
            → IfErr result (λ e. CopyFindsDamage e → ⊥) }
        ensures cause { IfErr result (CopyFails (Rises (M.disk m.old).disk_faults (M.disk m.new).disk_faults) (Rises (T.disk target.old).disk_faults (T.disk target.new).disk_faults)
            (IsTailFault (O.meaning self.now.bounds) (M.disk m.new) self.now.log) (IsTooLong self.now.log (IsCopyLength (O.meaning self.now.bounds) (M.disk m.old) self.now))) }
    {
        let (new, last) = self.plan_copy(m)?;
        let mut out = LogWriter::new(self.alloc, FileNo::LogB)?;
        self.put_copy(m, target, new, last.as_ref(), &mut out)?;
        Ok(())
    }
}
