// Reads the commands and identity writes of a log, one after the other.
ghost use Rattle.std.specs.Prelude.{◌≡◌, ◌≢◌, ◌<◌, ◌≤◌, ◌^◌, [], List, IfErr, IfOk, IfSome};
ghost use Rattle.disk_model.specs.Disk.{Rises, Stays};
ghost use Rattle.disk_model.specs.declared.machine.FileNo.TheVariants.{Objects};
ghost use Rattle.formats.specs.Reading.{FailsBy};
ghost use Rattle.formats.specs.declared.record.Record.{Record};
ghost use Rattle.log_blocks.specs.LogView.{LogView};
ghost use Rattle.log_blocks.specs.Payloads.{ahead};
ghost use Rattle.log_records.specs.Loading.{IsTailFault};
ghost use Rattle.log_records.specs.LsnReader.{IsReadingFromLsn, HasGiven, HasSearched, left_of};
ghost use Rattle.log_records.specs.RecordLog.{RecordLogView};
ghost use Rattle.log_records.specs.RecordReader.{IsReading};
ghost use Rattle.log_records.specs.Rewriting.{is_between};

use crate::RecordLog;
use crate::record_reader::RecordReader;
use disk_model::Machine;
use formats::{ReadErr, Record};
use oper_core::Oper;
use std::marker::Model;

/// Stands in the records of a log, and gives the commands and identity writes from an LSN on, in the log's order. One
/// record is in memory, and one piece of the block that it stands in.
#[derive(Drop)]
pub struct LsnReader<O: Oper> {
    records: RecordReader<O>,
    from: u64,
    end: u64,
}

impl<O: Oper> Model for LsnReader<O> {
    ghost use Rattle.log_records.specs.LsnReader.{LsnReaderView};

    ghost Value = { LsnReaderView };

    ghost view = { λ r. record { records = r.records; from = r.from; end = r.end } };
}

// Whether a record has an LSN, from this one on and below that one.
fn is_between<O: Oper>(it: &Record<O>, from: u64, end: u64) -> bool
    ensures { result ≡ is_between from end it.now }
{
    match it.lsn() {
        Some(lsn) => from <= lsn && lsn < end,
        None => false,
    }
}

// The next record that has an LSN, from this one on and below that one.
fn next_between<O: Oper, M: Machine>(
    m: &mut M,
    records: &mut RecordReader<O>,
    from: u64,
    end: u64,
) -> Result<Option<Record<O>>, ReadErr>
    ensures kept { Stays (M.disk m.old) (M.disk m.new) }
    ensures bounds { records.new.bounds ≡ records.old.bounds }
    ensures less { IfOk result (λ found. IfSome found (λ _. ahead records.new.payloads < ahead records.old.payloads)) }
    ensures read { IfOk result (HasSearched (O.meaning records.old.bounds) (M.disk m.old) (M.disk m.new) from end records.old records.new) }
    ensures cause { (log : LogView) (all : List (Record O)) → IsReading (O.meaning records.old.bounds) (M.disk m.old) log records.old all
        → IfErr result (FailsBy (Rises (M.disk m.old).disk_faults (M.disk m.new).disk_faults) (IsTailFault (O.meaning records.old.bounds) (M.disk m.new) log)) }
{
    while let Some(record) = records.next(m)? {
        if is_between(&record, from, end) {
            return Ok(Some(record));
        }
    }
    Ok(None)
}

impl<O: Oper> LsnReader<O> {
    /// The next command or identity write; none after the last one. Between two calls the objects file may change.
    pub fn next<M: Machine>(&mut self, m: &mut M) -> Result<Option<Record<O>>, ReadErr>
        ensures kept { Stays (M.disk m.old) (M.disk m.new) }
        ensures same { self.new ≡ record self.old { records = self.new.records } }
        ensures bounds { self.new.records.bounds ≡ self.old.records.bounds }
        ensures less { IfOk result (λ found. IfSome found (λ _. left_of self.new < left_of self.old)) }
        ensures read { (log : RecordLogView) (given : List (Record O)) → IsReadingFromLsn (O.meaning self.old.records.bounds) (M.disk m.old) log self.old given
            → IfOk result (HasGiven (O.meaning self.old.records.bounds) (M.disk m.new) log self.new given) }
        ensures cause { (log : RecordLogView) (given : List (Record O)) → IsReadingFromLsn (O.meaning self.old.records.bounds) (M.disk m.old) log self.old given
            → IfErr result (FailsBy (Rises (M.disk m.old).disk_faults (M.disk m.new).disk_faults)
            (λ file place. log.log.active ≢ Objects → IsTailFault (O.meaning self.old.records.bounds) (M.disk m.new) log.log file place)) }
    {
        let found = next_between(m, &mut self.records, self.from, self.end)?;
        Ok(found)
    }
}

impl<O: Oper> RecordLog<O> {
    /// A reader of the stable commands and identity writes from an LSN on, that has given none. Those before it, and the
    /// checkpoints, it passes over. On every machine the LSNs that it gives rise, and are below the log's next one.
    pub fn lsn_reader<M: Machine>(&self, m: &mut M, from: u64) -> Result<LsnReader<O>, ReadErr>
        ensures kept { Stays (M.disk m.old) (M.disk m.new) }
        ensures from { IfOk result (λ it. it.from ≡ from) }
        ensures bounds { IfOk result (λ it. it.records.bounds ≡ self.now.bounds) }
        ensures reading { IfOk result (λ it. IsReadingFromLsn (O.meaning self.now.bounds) (M.disk m.new) self.now it []) }
        ensures last { self.now.next ≤ 2 ^ 62 }
        ensures cause { IfErr result (FailsBy (Rises (M.disk m.old).disk_faults (M.disk m.new).disk_faults) (λ f p. ⊥)) }
    {
        Ok(LsnReader {
            records: RecordReader::new(self.alloc, m, self.bounds, &self.log)?,
            from,
            end: self.next,
        })
    }
}
