// The stable records once more.
ghost use Rattle.std.specs.Prelude.{◌≡◌, All, List, IfOk, IfErr};
ghost use Rattle.disk_model.specs.Disk.{Rises, Stays};
ghost use Rattle.formats.specs.Reading.{FailsBy, TellsDamage};
ghost use Rattle.formats.specs.Records.{IsRecord, AreRecords};
ghost use Rattle.formats.specs.declared.record.Record.{Record};
ghost use Rattle.log_records.specs.Codec.{AreShort};
ghost use Rattle.log_records.specs.Loading.{IsTailFault};
ghost use Rattle.log_records.specs.RecordLog.{Keeps};
ghost use Rattle.log_records.specs.RecordReader.{AreAll};

use crate::RecordLog;
use crate::record_reader::RecordReader;
use disk_model::Machine;
use formats::{ReadErr, Record};
use log_blocks::LogFile;
use oper_core::{Bounds, Oper};
use std::alloc::Global;

// The records that are in the blocks of a log.
fn stable_records<O: Oper, M: Machine>(
    alloc: Global,
    m: &mut M,
    b: Bounds,
    log: &LogFile,
) -> Result<Vec<Record<O>>, ReadErr>
    ensures kept { Stays (M.disk m.old) (M.disk m.new) }
    ensures all { IfOk result (λ found. AreAll (O.meaning b) (M.disk m.new) log.now found.items) }
    ensures cause { IfErr result (FailsBy (Rises (M.disk m.old).disk_faults (M.disk m.new).disk_faults)
        (IsTailFault (O.meaning b) (M.disk m.new) log.now)) }
{
    let mut reader = RecordReader::<O>::new(alloc, m, b, log)?;
    let mut found = Vec::new(alloc);
    while let Some(record) = reader.next(m)? {
        found.push(record)?;
    }
    Ok(found)
}

impl<O: Oper> RecordLog<O> {
    /// The stable records, in the log's order.
    pub fn stable<M: Machine>(&self, m: &mut M) -> Result<Vec<Record<O>>, ReadErr>
        ensures kept { Stays (M.disk m.old) (M.disk m.new) }
        ensures records { (M.disk m.old).tells_files → (stable pending : List (Record O)) → Keeps (O.meaning self.now.bounds) (M.disk m.old) self.now stable pending
            → IfOk result (λ found. found.items ≡ stable) }
        ensures grammar { IfOk result (λ found. All (IsRecord (O.meaning self.now.bounds)) found.items) }
        ensures placed { IfOk result (λ found. AreRecords (O.meaning self.now.bounds) self.now.log.header.base self.now.log.header.base found.items) }
        ensures short { IfOk result (λ found. AreShort (O.meaning self.now.bounds) found.items) }
        ensures undamaged { (M.disk m.old).tells_files → (stable pending : List (Record O)) → Keeps (O.meaning self.now.bounds) (M.disk m.old) self.now stable pending
            → IfErr result (λ e. TellsDamage e → ⊥) }
        ensures cause { IfErr result (FailsBy (Rises (M.disk m.old).disk_faults (M.disk m.new).disk_faults)
            (IsTailFault (O.meaning self.now.bounds) (M.disk m.new) self.now.log)) }
    {
        let records = stable_records(self.alloc, m, self.bounds, &self.log)?;
        Ok(records)
    }
}
