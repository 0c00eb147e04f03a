// Loads a log of records.
ghost use Rattle.std.specs.Prelude.{◌≡◌, ◌≤◌, ◌+◌, ◌^◌, ◌∷◌, [], List, IfOk, IfErr};
ghost use Rattle.std.specs.Option.{option_or};
ghost use Rattle.disk_model.specs.Disk.{Files, Rises, Stays};
ghost use Rattle.disk_model.specs.declared.machine.FileNo.{FileNo};
ghost use Rattle.formats.specs.Log.{Header};
ghost use Rattle.formats.specs.Reading.{FailsBy, TellsDamage};
ghost use Rattle.formats.specs.Records.{next_after, last_checkpoint, records_of, HoldsRecordLog};
ghost use Rattle.formats.specs.declared.record.Record.{Record};
ghost use Rattle.log_records.specs.Loading.{IsLoadFault, IsTailFault, IsCountOf};
ghost use Rattle.log_records.specs.RecordLog.{IsHeldIn, IsLoaded};
ghost use Rattle.log_records.specs.RecordReader.{AreAll};

use crate::RecordLog;
use crate::counted::Counted;
use crate::placing::commands_in;
use crate::record_reader::RecordReader;
use dirty_page_table::DirtyPageTable;
use disk_model::Machine;
use formats::{ReadErr, Record};
use log_blocks::LogFile;
use oper_core::{Bounds, Oper};
use std::alloc::Global;
use std::marker::PhantomData;

// The table of a record that is a checkpoint, and else the one before it.
fn last_table<O: Oper>(record: Record<O>, before: Option<DirtyPageTable>) -> Option<DirtyPageTable>
    ensures { result ≡ option_or (last_checkpoint («record» ∷ [])) before }
{
    match record {
        Record::Checkpoint(table) => Some(table),
        Record::Command(_, _) | Record::Identity(_, _, _) => before,
    }
}

// Counts the records of a log, of which it keeps the last checkpoint's table.
fn count_records<O: Oper, M: Machine>(
    alloc: Global,
    m: &mut M,
    b: Bounds,
    log: &LogFile,
) -> Result<Counted, ReadErr>
    requires { log.now.header.base ≤ 2 ^ 62 }
    ensures kept { Stays (M.disk m.old) (M.disk m.new) }
    ensures counted { IfOk result (λ it. (records : List (Record O)) × AreAll (O.meaning b) (M.disk m.new) log.now records × IsCountOf log.now.header.base records it) }
    ensures cause { IfErr result (FailsBy (Rises (M.disk m.old).disk_faults (M.disk m.new).disk_faults)
        (IsTailFault (O.meaning b) (M.disk m.new) log.now)) }
{
    let mut reader = RecordReader::<O>::new(alloc, m, b, log)?;
    let mut commands = 0;
    let mut last = None;
    while let Some(record) = reader.next(m)? {
        commands += commands_in(&record);
        last = last_table(record, last);
    }
    Ok(Counted {
        next: reader.next_lsn(),
        commands,
        last,
    })
}

impl<O: Oper> RecordLog<O> {
    /// The log in force, whose records are of the grammar for these bounds and right in their places, and the table of the
    /// last checkpoint among them. No record is kept in memory.
    pub fn load_checked<M: Machine>(
        alloc: Global,
        m: &mut M,
        b: Bounds,
    ) -> Result<(RecordLog<O>, Option<DirtyPageTable>), ReadErr>
        ensures kept { Stays (M.disk m.old) (M.disk m.new) }
        ensures read { (M.disk m.old).tells_files → IfOk result (λ found. (it : IsLoaded (O.meaning b) b (M.disk m.old) (M.disk m.new) found.0)
            × (found.1 ≡ last_checkpoint (records_of it.groups))) }
        ensures held { (files : Files) → (M.disk m.new).agrees files → IfOk result (λ found. IsHeldIn (O.meaning b) files found.0) }
        ensures counted { IfOk result (λ found. (records : List (Record O)) × AreAll (O.meaning b) (M.disk m.new) found.0.log records
            × (found.0.next ≡ next_after found.0.log.header.base records) × (found.1 ≡ last_checkpoint records)) }
        ensures bounds { IfOk result (λ found. found.0.bounds ≡ b) }
        ensures next { IfOk result (λ found. (1 ≤ found.0.next) × (found.0.next ≤ 2 ^ 62)) }
        ensures cause { IfErr result (FailsBy (Rises (M.disk m.old).disk_faults (M.disk m.new).disk_faults)
            (λ file place. (files : Files) → (M.disk m.new).agrees files → IsLoadFault (O.meaning b) files file place)) }
        ensures whole { (M.disk m.old).tells_files → (active : FileNo) (header : Header) (groups : List (List (Record O)))
            → HoldsRecordLog (O.meaning b) active header groups (M.disk m.old).reads → IfErr result (λ e. TellsDamage e → ⊥) }
    {
        let log = LogFile::load(alloc, m)?;
        let counted = count_records::<O, M>(alloc, m, b, &log)?;
        let accepted = log.commands().saturating_add(counted.commands);
        let log = RecordLog {
            alloc,
            bounds: b,
            next: counted.next,
            accepted,
            forced: accepted,
            log,
            code: Vec::new(alloc),
            of: PhantomData,
        };
        Ok((log, counted.last))
    }
}
