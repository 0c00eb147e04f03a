// Puts a log of the records with an LSN from a base on, and of a checkpoint, in the place of the log in force.
ghost use Rattle.std.specs.Prelude.{◌≡◌, ◌≢◌, ◌<◌, ◌≤◌, ◌+◌, ◌^◌, ◌∷◌, ◌++◌, [], List, ℕ, IfErr, IfOk, OnErr, OnOk, map};
ghost use Rattle.disk_model.specs.Disk.{Rises, Runs, LeavesOnly, In, Any, IsSettled, IsSettledIn, Same};
ghost use Rattle.formats.specs.InForce.{other_of};
ghost use Rattle.formats.specs.Log.{IsClosedLog};
ghost use Rattle.formats.specs.Reading.{FailsBy, TellsDamage};
ghost use Rattle.formats.specs.Records.{IsRecord, IsRecordLog, payload_of, records_of};
ghost use Rattle.formats.specs.declared.read_err.ReadErr.TheVariants as of_read;
ghost use Rattle.formats.specs.declared.record.Record.{Record};
ghost use Rattle.log_blocks.specs.Rewriting.{IsPrepared, KeepsClosed, next_header, rewritten};
ghost use Rattle.log_records.specs.Copying.{IsPlanned, MayReplace};
ghost use Rattle.log_records.specs.Laying.{room_of};
ghost use Rattle.log_records.specs.Loading.{IsTailFault};
ghost use Rattle.log_records.specs.RecordLog.{Keeps};
ghost use Rattle.log_records.specs.Rewriting.{is_from_lsn, from_lsn, in_full_blocks, rewritten_records, rewritten_log, FindsDamage, IsRefused, IsRewritable, IsRewrittenPartly, IsNewLength, IsRewriteEnd, RewriteFails};

use crate::new_log::NewLog;
use crate::{RecordLog, RewriteErr};
use dirty_page_table::DirtyPageTable;
use disk_model::Machine;
use formats::{ReadErr, Record};
use log_blocks::LogWriter;
use oper_core::Oper;

// Whether a record has an LSN, from this one on.
pub fn is_from_lsn<O: Oper>(it: &Record<O>, from: u64) -> bool
    ensures { result ≡ is_from_lsn from it.now }
{
    match it.lsn() {
        Some(lsn) => from <= lsn,
        None => false,
    }
}

impl<O: Oper> RecordLog<O> {
    // Writes a new log but for its header gate, which is closed, and answers where it ends.
    fn put_log<M: Machine>(
        &self,
        m: &mut M,
        base: u64,
        checkpoint: &Record<O>,
        new: NewLog,
        out: &mut LogWriter,
    ) -> Result<u64, ReadErr>
        requires apart { self.now.log.active ≢ out.old.file }
        requires new { out.old ≡ record { file = out.old.file; place = 1; bytes = [] } }
        requires epoch { self.now.log.header.epoch < 2 ^ 62 }
        requires planned { IsPlanned (O.meaning self.now.bounds) (M.disk m.old) self.now.log base (checkpoint.now ∷ []) new }
        requires grammar { IsRecord (O.meaning self.now.bounds) checkpoint.now }
        requires fits { 34 + room_of new.lengths.items ≤ 2 ^ 48 }
        ensures runs { Runs (In out.old.file KeepsClosed) Same (M.disk m.old) (M.disk m.new) }
        ensures prepared { (M.disk m.old).tells_files → IsClosedLog ((M.disk m.old).reads out.old.file) → (groups : List (List (Record O))) → IsRecordLog (O.meaning self.now.bounds) self.now.log.header groups ((M.disk m.old).reads self.now.log.active)
            → OnOk result (IsPrepared (next_header self.now.log base new.commands) (map (payload_of (O.meaning self.now.bounds)) (in_full_blocks (O.meaning self.now.bounds) (from_lsn base (records_of groups) ++ checkpoint.now ∷ []))) ((M.disk m.new).reads out.old.file)) }
        ensures settled { OnOk result (IsSettledIn out.old.file (M.disk m.new)) }
        ensures file { out.new.file ≡ out.old.file }
        ensures end { IfOk result (λ end. end ≡ 33 + room_of new.lengths.items) }
        ensures cause { IfErr result (FailsBy (Rises (M.disk m.old).disk_faults (M.disk m.new).disk_faults) (IsTailFault (O.meaning self.now.bounds) (M.disk m.new) self.now.log)) }
    {
        self.log.begin_log(m, out, base, new.commands)?;
        self.copy(m, base, checkpoint, new, out)?;
        let end = out.end();
        out.finish(m)?;
        Ok(end)
    }

    // The same; where it fails, what was written is on the disk all the same.
    fn write_log<M: Machine>(
        &self,
        m: &mut M,
        base: u64,
        checkpoint: &Record<O>,
        new: NewLog,
        out: &mut LogWriter,
    ) -> Result<u64, ReadErr>
        requires apart { self.now.log.active ≢ out.old.file }
        requires new { out.old ≡ record { file = out.old.file; place = 1; bytes = [] } }
        requires epoch { self.now.log.header.epoch < 2 ^ 62 }
        requires planned { IsPlanned (O.meaning self.now.bounds) (M.disk m.old) self.now.log base (checkpoint.now ∷ []) new }
        requires grammar { IsRecord (O.meaning self.now.bounds) checkpoint.now }
        requires fits { 34 + room_of new.lengths.items ≤ 2 ^ 48 }
        ensures runs { Runs (In out.old.file KeepsClosed) Same (M.disk m.old) (M.disk m.new) }
        ensures prepared { (M.disk m.old).tells_files → IsClosedLog ((M.disk m.old).reads out.old.file) → (groups : List (List (Record O))) → IsRecordLog (O.meaning self.now.bounds) self.now.log.header groups ((M.disk m.old).reads self.now.log.active)
            → OnOk result (IsPrepared (next_header self.now.log base new.commands) (map (payload_of (O.meaning self.now.bounds)) (in_full_blocks (O.meaning self.now.bounds) (from_lsn base (records_of groups) ++ checkpoint.now ∷ []))) ((M.disk m.new).reads out.old.file)) }
        ensures settled { OnOk result (IsSettledIn out.old.file (M.disk m.new)) }
        ensures refused { IfErr result (λ e. e ≢ of_read.DiskFault → IsSettledIn out.old.file (M.disk m.new)) }
        ensures end { IfOk result (λ end. end ≡ 33 + room_of new.lengths.items) }
        ensures cause { IfErr result (FailsBy (Rises (M.disk m.old).disk_faults (M.disk m.new).disk_faults) (IsTailFault (O.meaning self.now.bounds) (M.disk m.new) self.now.log)) }
    {
        match self.put_log(m, base, checkpoint, new, out) {
            Ok(end) => Ok(end),
            Err(e) => {
                m.sync(out.file())?;
                Err(e)
            }
        }
    }

    // Puts a log that was planned in the place of this one.
    fn replace<M: Machine>(
        &mut self,
        m: &mut M,
        base: u64,
        table: DirtyPageTable,
        new: NewLog,
        out: LogWriter,
    ) -> Result<(), ReadErr>
        requires { MayReplace (O.meaning self.old.bounds) (M.disk m.old) self.old base table new out }
        ensures runs { Runs (In (other_of self.old.log.active) Any) Same (M.disk m.old) (M.disk m.new) }
        ensures any_moment { (M.disk m.old).tells_moments → (stable : List (Record O)) → Keeps (O.meaning self.old.bounds) (M.disk m.old) self.old stable []
            → LeavesOnly (M.disk m.old) (M.disk m.new) (IsRewrittenPartly (O.meaning self.old.bounds) (M.disk m.old) self.old.log base table stable) }
        ensures acknowledged { (M.disk m.old).tells_files → (stable : List (Record O)) → Keeps (O.meaning self.old.bounds) (M.disk m.old) self.old stable []
            → OnOk result (Keeps (O.meaning self.old.bounds) (M.disk m.new) self.new (rewritten_records base table stable) []
            × (self.new ≡ record self.old { log = rewritten_log (O.meaning self.old.bounds) self.old.log base table stable })) }
        ensures settled { IsSettled (M.disk m.old) → OnOk result (IsSettled (M.disk m.new)) }
        ensures rewritten { OnOk result ((payloads : List (List ℕ)) × (commands : ℕ) × (self.new ≡ record self.old { log = rewritten self.old.log base commands payloads })) }
        ensures kept { OnErr result (self.new ≡ self.old) }
        ensures refused { IfErr result (λ e. e ≢ of_read.DiskFault → IsRefused (O.meaning self.old.bounds) (M.disk m.old) (M.disk m.new) self.old) }
        ensures undamaged { (M.disk m.old).tells_files → (stable : List (Record O)) → Keeps (O.meaning self.old.bounds) (M.disk m.old) self.old stable []
            → IfErr result (λ e. TellsDamage e → ⊥) }
        ensures cause { IfErr result (FailsBy (Rises (M.disk m.old).disk_faults (M.disk m.new).disk_faults) (IsTailFault (O.meaning self.old.bounds) (M.disk m.new) self.old.log)) }
    {
        let commands = new.commands;
        let checkpoint = Record::Checkpoint(table);
        let mut out = out;
        self.log.begin_rewrite(m)?;
        let end = self.write_log(m, base, &checkpoint, new, &mut out)?;
        self.log.end_rewrite(m, base, commands, end)?;
        Ok(())
    }

    /// Puts a new log in the place of this one: the commands and identity writes from a base on, and after them a checkpoint.
    /// They stand in blocks of whole records, each as full as these allow. Where its file would have more than `most` bytes
    /// `LogFull` is answered. The new log is in force once it is whole, so at any moment it is that one or the old one. No more than one record and 64 KiB of the new log are in memory at a
    /// time. At `DiskFault` of a write, load the log again.
    pub fn rewrite<M: Machine>(
        &mut self,
        m: &mut M,
        base: u64,
        table: DirtyPageTable,
        most: u64,
    ) -> Result<(), RewriteErr>
        requires rewritable { IsRewritable (O.meaning self.old.bounds) self.old base table }
        requires most { most ≤ 2 ^ 48 }
        ensures runs { Runs (In (other_of self.old.log.active) Any) Same (M.disk m.old) (M.disk m.new) }

        // A crash at any moment of the call leaves the old log in force, or the new one, whole.
        ensures any_moment { (M.disk m.old).tells_moments → (stable : List (Record O)) → Keeps (O.meaning self.old.bounds) (M.disk m.old) self.old stable []
            → LeavesOnly (M.disk m.old) (M.disk m.new) (IsRewrittenPartly (O.meaning self.old.bounds) (M.disk m.old) self.old.log base table stable) }

        ensures acknowledged { (M.disk m.old).tells_files → (stable : List (Record O)) → Keeps (O.meaning self.old.bounds) (M.disk m.old) self.old stable []
            → OnOk result (Keeps (O.meaning self.old.bounds) (M.disk m.new) self.new (rewritten_records base table stable) []
            × (self.new ≡ record self.old { log = rewritten_log (O.meaning self.old.bounds) self.old.log base table stable })) }

        ensures settled { IsSettled (M.disk m.old) → OnOk result (IsSettled (M.disk m.new)) }
        ensures rewritten { OnOk result ((payloads : List (List ℕ)) × (commands : ℕ) × (self.new ≡ record self.old { log = rewritten self.old.log base commands payloads })) }
        ensures ends { IsRewriteEnd (O.meaning self.old.bounds) (M.disk m.old) (M.disk m.new) self.old self.new base table most result }

        // At the last epoch no call is made.
        ensures idle { self.old.log.header.epoch ≡ 2 ^ 62 → m.new ≡ m.old }
        ensures undamaged { (M.disk m.old).tells_files → (stable : List (Record O)) → Keeps (O.meaning self.old.bounds) (M.disk m.old) self.old stable []
            → IfErr result (λ e. FindsDamage e → ⊥) }
        ensures cause { IfErr result (RewriteFails (Rises (M.disk m.old).disk_faults (M.disk m.new).disk_faults)
            (IsTailFault (O.meaning self.old.bounds) (M.disk m.new) self.old.log) (IsNewLength (O.meaning self.old.bounds) (M.disk m.old) self.old base table) self.old.log most) }
    {
        let (new, out) = self.plan(m, base, &table, most)?;
        self.replace(m, base, table, new, out)?;
        Ok(())
    }
}
