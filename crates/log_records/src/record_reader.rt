// Reads the records of a log, one after the other.
ghost use Rattle.std.specs.Prelude.{◌≡◌, ◌<◌, ◌≤◌, ◌^◌, ◌↔◌, [], List, ℕ, IsFalse, IsTrue, IfErr, IfNone, IfOk, IfSome, OnOk, length};
ghost use Rattle.disk_model.specs.Disk.{Files, Rises, Stays};
ghost use Rattle.formats.specs.Log.{IsWholeLog};
ghost use Rattle.formats.specs.Reading.{FailsBy};
ghost use Rattle.formats.specs.Records.{record_code, IsPlaced, IsRecord};
ghost use Rattle.formats.specs.declared.record.Record.{Record};
ghost use Rattle.log_blocks.specs.LogView.{LogView};
ghost use Rattle.log_blocks.specs.Payloads.{remaining, ahead, IsInLog};
ghost use Rattle.log_records.specs.BlockReader.{GoesOn, TakesRecord};
ghost use Rattle.log_records.specs.Codec.{StartsWithRecord};
ghost use Rattle.log_records.specs.Loading.{IsTailFault};
ghost use Rattle.log_records.specs.RecordReader.{IsReading, HasFound, HasGoneOn, StartsWithNone};

use crate::codec::decode;
use crate::placing::{is_placed, next_behind};
use disk_model::Machine;
use formats::{ReadErr, Record};
use log_blocks::{LogFile, PayloadReader};
use oper_core::{Bounds, Memory, Oper};
use std::alloc::Global;
use std::marker::{Model, PhantomData};

/// Stands in the records of a log, with one piece of one payload in memory. Where a record goes on after it, further pieces
/// are added, each as long as what is in memory then, until the record is whole.
#[derive(Drop)]
pub struct RecordReader<O: Oper> {
    alloc: Global,
    bounds: Bounds,
    base: u64,
    next: u64,
    payloads: PayloadReader,
    of: PhantomData<O>,
}

impl<O: Oper> Model for RecordReader<O> {
    ghost use Rattle.log_records.specs.RecordReader.{RecordReaderView};

    ghost Value = { RecordReaderView };

    ghost view = { λ r. record { bounds = r.bounds; base = r.base; next = r.next; payloads = r.payloads } };
}

// The record that the bytes begin with, right in its place, and the length of its code.
fn next_record<O: Oper>(
    alloc: Global,
    b: Bounds,
    base: u64,
    bytes: &[u8],
    next: u64,
) -> Result<Option<(Record<O>, usize)>, Memory>
    ensures some { IfOk result (λ found. IfSome found (λ pair.
        StartsWithRecord (O.meaning b) bytes.now pair.0 × IsPlaced (O.meaning b) base next pair.0 × (pair.1 ≡ length (record_code (O.meaning b) pair.0)))) }
    ensures none { IfOk result (λ found. IfNone found ((other : Record O) → StartsWithRecord (O.meaning b) bytes.now other → IsPlaced (O.meaning b) base next other → ⊥)) }
{
    match decode::<O>(alloc, b, bytes)? {
        Some((found, length)) => {
            if is_placed(&found, b, base, next) {
                return Ok(Some((found, length)));
            }
            Ok(None)
        }
        None => Ok(None),
    }
}

// Brings bytes of the payload in hand into memory until they begin with a record that is right in its place, and answers
// the length of its code beside it; none where the whole payload's do not.
fn find_record<O: Oper, M: Machine>(
    alloc: Global,
    m: &mut M,
    b: Bounds,
    base: u64,
    payloads: &mut PayloadReader,
    next: u64,
) -> Result<Option<(Record<O>, usize)>, ReadErr>
    ensures kept { Stays (M.disk m.old) (M.disk m.new) }
    ensures file { payloads.new.file ≡ payloads.old.file }
    ensures all { OnOk result ((remaining payloads.new ≡ remaining payloads.old) × (ahead payloads.new ≡ ahead payloads.old)) }
    ensures read { (files : Files) → (M.disk m.new).agrees files → (all passed : List (List ℕ)) (taken : List ℕ) (later : List (List ℕ)) → IsInLog (files payloads.old.file) payloads.old all passed taken later
        → OnOk result (IsInLog (files payloads.new.file) payloads.new all passed taken later) }
    ensures some { IfOk result (λ found. IfSome found (λ pair. StartsWithRecord (O.meaning b) payloads.new.bytes pair.0
        × IsPlaced (O.meaning b) base next pair.0 × (pair.1 ≡ length (record_code (O.meaning b) pair.0)) × (pair.1 ≤ 2 ^ 30))) }
    ensures none { IfOk result (λ found. IfNone found ((payloads.new.left ≡ 0) × StartsWithNone (O.meaning b) base next payloads.new.bytes)) }
    ensures cause { IfErr result (FailsBy (Rises (M.disk m.old).disk_faults (M.disk m.new).disk_faults) (λ f p. ⊥)) }
{
    loop {
        if let Some(found) = next_record(alloc, b, base, payloads.bytes(), next)? {
            return Ok(Some(found));
        }
        if !payloads.read_more(m)? {
            return Ok(None);
        }
    }
}

impl<O: Oper> RecordReader<O> {
    /// A reader of this log that has read none of its records.
    pub fn new<M: Machine>(
        alloc: Global,
        m: &mut M,
        b: Bounds,
        log: &LogFile,
    ) -> Result<RecordReader<O>, ReadErr>
        ensures kept { Stays (M.disk m.old) (M.disk m.new) }
        ensures bounds { IfOk result (λ it. it.bounds ≡ b) }
        ensures reading { IfOk result (λ it. IsReading (O.meaning b) (M.disk m.new) log.now it []) }
        ensures starts { (files : Files) → (M.disk m.new).agrees files → (payloads : List (List ℕ)) → IsWholeLog log.now.header payloads (files log.now.active)
            → IfOk result (λ it. IsInLog (files log.now.active) it.payloads payloads [] [] payloads) }
        ensures cause { IfErr result (FailsBy (Rises (M.disk m.old).disk_faults (M.disk m.new).disk_faults) (λ f p. ⊥)) }
    {
        Ok(RecordReader {
            alloc,
            bounds: b,
            base: log.base(),
            next: log.base(),
            payloads: log.reader(alloc, m)?,
            of: PhantomData,
        })
    }

    /// Whether nothing is left of the block in hand.
    pub fn is_between_blocks(&self) -> bool
        ensures { IsTrue result ↔ (remaining self.now.payloads ≡ 0) }
    {
        self.payloads.remaining() == 0
    }

    /// The LSN after the records that were read.
    pub fn next_lsn(&self) -> u64
        ensures { result ≡ self.now.next }
    {
        self.next
    }

    // Goes on to the next payload where nothing is left of the one in hand; false where none comes.
    fn go_on<M: Machine>(&mut self, m: &mut M) -> Result<bool, ReadErr>
        ensures kept { Stays (M.disk m.old) (M.disk m.new) }
        ensures same { self.new ≡ record self.old { payloads = self.new.payloads } }
        ensures some { IfOk result (λ more. IsTrue more → (0 < remaining self.new.payloads) × (ahead self.new.payloads ≤ ahead self.old.payloads)) }
        ensures read { (log : LogView) (records : List (Record O)) → IsReading (O.meaning self.old.bounds) (M.disk m.old) log self.old records
            → IfOk result (HasGoneOn (O.meaning self.old.bounds) (M.disk m.new) log self.new records) }
        ensures goes_on { (files : Files) → (M.disk m.new).agrees files → (payloads passed : List (List ℕ)) (taken : List ℕ) (later : List (List ℕ))
            → (remaining self.old.payloads ≡ 0 → taken ≡ []) → IsInLog (files self.old.payloads.file) self.old.payloads payloads passed taken later
            → IfOk result (GoesOn (files self.new.payloads.file) self.new.payloads payloads passed taken) }
        ensures through { IfOk result (λ more. IsFalse more → remaining self.old.payloads ≡ 0) }
        ensures cause { (log : LogView) (records : List (Record O)) → IsReading (O.meaning self.old.bounds) (M.disk m.old) log self.old records
            → IfErr result (FailsBy (Rises (M.disk m.old).disk_faults (M.disk m.new).disk_faults) (IsTailFault (O.meaning self.old.bounds) (M.disk m.new) log)) }
    {
        if self.payloads.remaining() == 0 {
            let more = self.payloads.next_payload(m)?;
            return Ok(more);
        }
        Ok(true)
    }

    /// The next record of the log; none after the last one.
    pub fn next<M: Machine>(&mut self, m: &mut M) -> Result<Option<Record<O>>, ReadErr>
        ensures kept { Stays (M.disk m.old) (M.disk m.new) }
        ensures bounds { self.new.bounds ≡ self.old.bounds }
        ensures less { IfOk result (λ found. IfSome found (λ _. ahead self.new.payloads < ahead self.old.payloads)) }
        ensures grammar { IfOk result (λ found. IfSome found (IsRecord (O.meaning self.old.bounds))) }
        ensures read { (log : LogView) (records : List (Record O)) → IsReading (O.meaning self.old.bounds) (M.disk m.old) log self.old records
            → IfOk result (HasFound (O.meaning self.old.bounds) (M.disk m.new) log self.new records) }

        // It stays in the block in hand, and begins the next one where nothing is left of that.
        ensures takes { (files : Files) → (M.disk m.new).agrees files → (payloads passed : List (List ℕ)) (taken : List ℕ) (later : List (List ℕ))
            → (remaining self.old.payloads ≡ 0 → taken ≡ []) → IsInLog (files self.old.payloads.file) self.old.payloads payloads passed taken later
            → IfOk result (TakesRecord (O.meaning self.old.bounds) (files self.new.payloads.file) self.new.payloads payloads passed taken) }
        ensures through { IfOk result (λ found. IfNone found (remaining self.old.payloads ≡ 0)) }
        ensures cause { (log : LogView) (records : List (Record O)) → IsReading (O.meaning self.old.bounds) (M.disk m.old) log self.old records
            → IfErr result (FailsBy (Rises (M.disk m.old).disk_faults (M.disk m.new).disk_faults) (IsTailFault (O.meaning self.old.bounds) (M.disk m.new) log)) }
    {
        if !self.go_on(m)? {
            return Ok(None);
        }
        let found = find_record(
            self.alloc,
            m,
            self.bounds,
            self.base,
            &mut self.payloads,
            self.next,
        )?;
        let Some((record, length)) = found else {
            return Err(ReadErr::Damaged {
                file: self.payloads.file(),
                place: self.payloads.place(),
            });
        };
        self.payloads.take(length);
        self.next = next_behind(&record, self.next);
        Ok(Some(record))
    }
}
