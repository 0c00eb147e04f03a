// What a new log will be, before anything of it is written.
ghost use Rattle.std.specs.Prelude.{◌≡◌, ◌<◌, ◌≤◌, ◌+◌, ◌^◌, ◌∷◌, [], List, IfErr, IfOk};
ghost use Rattle.disk_model.specs.Disk.{Rises, Stays};
ghost use Rattle.formats.specs.Reading.{FailsBy, TellsDamage};
ghost use Rattle.formats.specs.declared.record.Record.{Record};
ghost use Rattle.formats.specs.declared.record.Record.TheVariants.{Checkpoint};
ghost use Rattle.log_records.specs.Copying.{IsPlanned, MayReplace};
ghost use Rattle.log_records.specs.Laying.{room_of};
ghost use Rattle.log_records.specs.Loading.{IsTailFault};
ghost use Rattle.log_records.specs.RecordLog.{Keeps};
ghost use Rattle.log_records.specs.Rewriting.{FindsDamage, IsNewLength, IsRewritable, IsWithinLength, RewriteFails};

use crate::measuring::{checkpoint_length, count_record, measure};
use crate::new_log::NewLog;
use crate::{RecordLog, RewriteErr};
use dirty_page_table::DirtyPageTable;
use disk_model::Machine;
use formats::{BLOCK_HEAD, LSN_END, ReadErr};
use log_blocks::LogWriter;
use oper_core::Oper;

// No memory holds the lengths of so many blocks.
pub const MAX_BLOCKS: usize = 1 << 32;

// A header, and the closed gate after the last block.
const NO_BLOCKS: u64 = 34;

// The length of a log file whose blocks have these lengths.
pub fn file_length(lengths: &[u32]) -> u64
    requires fits { 34 + room_of lengths.now < 2 ^ 63 }
    ensures { result ≡ 34 + room_of lengths.now }
{
    let mut need = NO_BLOCKS;
    for len in lengths {
        need += BLOCK_HEAD as u64 + *len as u64;
    }
    need
}

impl<O: Oper> RecordLog<O> {
    // What a log from this base on, with a checkpoint of this table at its end, will be.
    fn measure_new<M: Machine>(
        &self,
        m: &mut M,
        base: u64,
        table: &DirtyPageTable,
    ) -> Result<NewLog, ReadErr>
        requires { IsRewritable (O.meaning self.now.bounds) self.now base table.now }
        ensures kept { Stays (M.disk m.old) (M.disk m.new) }
        ensures planned { IfOk result (λ it. IsPlanned (O.meaning self.now.bounds) (M.disk m.new) self.now.log base (Checkpoint table.now ∷ []) it) }
        ensures fits { IfOk result (λ it. 34 + room_of it.lengths.items < 2 ^ 63) }
        ensures undamaged { (M.disk m.old).tells_files → (stable : List (Record O)) → Keeps (O.meaning self.now.bounds) (M.disk m.old) self.now stable []
            → IfErr result (λ e. TellsDamage e → ⊥) }
        ensures cause { IfErr result (FailsBy (Rises (M.disk m.old).disk_faults (M.disk m.new).disk_faults)
            (IsTailFault (O.meaning self.now.bounds) (M.disk m.new) self.now.log)) }
    {
        let mut it = measure::<O, M>(self.alloc, m, self.bounds, &self.log, base)?;
        count_record(checkpoint_length(table), &mut it.filled, &mut it.full)?;
        it.full.push(it.filled)?;
        if it.full.len() > MAX_BLOCKS {
            return Err(ReadErr::Memory);
        }
        Ok(NewLog {
            commands: self.log.commands() + it.commands,
            lengths: it.full,
        })
    }

    // The same, where its file has at most so many bytes, and a writer for the other file.
    pub(crate) fn plan<M: Machine>(
        &self,
        m: &mut M,
        base: u64,
        table: &DirtyPageTable,
        most: u64,
    ) -> Result<(NewLog, LogWriter), RewriteErr>
        requires rewritable { IsRewritable (O.meaning self.now.bounds) self.now base table.now }
        requires most { most ≤ 2 ^ 48 }
        ensures kept { Stays (M.disk m.old) (M.disk m.new) }
        ensures may { IfOk result (λ it. MayReplace (O.meaning self.now.bounds) (M.disk m.new) self.now base table.now it.0 it.1) }
        ensures within { IfOk result (λ _. IsWithinLength (O.meaning self.now.bounds) (M.disk m.old) self.now base table.now most) }
        ensures idle { self.now.log.header.epoch ≡ 2 ^ 62 → m.new ≡ m.old }
        ensures undamaged { (M.disk m.old).tells_files → (stable : List (Record O)) → Keeps (O.meaning self.now.bounds) (M.disk m.old) self.now stable []
            → IfErr result (λ e. FindsDamage e → ⊥) }
        ensures cause { IfErr result (RewriteFails (Rises (M.disk m.old).disk_faults (M.disk m.new).disk_faults)
            (IsTailFault (O.meaning self.now.bounds) (M.disk m.new) self.now.log) (IsNewLength (O.meaning self.now.bounds) (M.disk m.old) self.now base table.now) self.now.log most) }
    {
        let epoch = self.log.epoch();
        if epoch >= LSN_END {
            return Err(RewriteErr::Exhausted { epoch });
        }
        let new = self.measure_new(m, base, table)?;
        let need = file_length(&new.lengths);
        if need > most {
            return Err(RewriteErr::LogFull {
                used: self.log.used(),
                need,
                limit: most,
            });
        }
        let out = self.log.writer(self.alloc)?;
        Ok((new, out))
    }
}
