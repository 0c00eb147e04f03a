// Puts the records of a log into a new one, in blocks whose lengths are known.
ghost use Rattle.std.specs.Prelude.{◌≡◌, ◌≢◌, ◌<◌, ◌≤◌, ◌+◌, ◌^◌, ◌↔◌, ◌++◌, ◌∷◌, [], List, ℕ, IsTrue, IfErr, IfOk, IfSome, IsErr, OnOk, length, option_copied};
ghost use Rattle.std.specs.Option.{option_to_list};
ghost use Rattle.disk_model.specs.Disk.{In, Rises, Runs, Same, Stays};
ghost use Rattle.oper_core.specs.Meaning.{IsSmall};
ghost use Rattle.formats.specs.Reading.{FailsBy};
ghost use Rattle.formats.specs.Records.{record_code, IsRecord};
ghost use Rattle.formats.specs.declared.read_err.ReadErr.TheVariants.{Damaged};
ghost use Rattle.formats.specs.declared.record.Record.{Record};
ghost use Rattle.log_blocks.specs.Rewriting.{KeepsClosed};
ghost use Rattle.log_blocks.specs.Writing.{put_of};
ghost use Rattle.log_records.specs.Codec.{IsEncodable};
ghost use Rattle.log_records.specs.Copying.{HasCopied, HasFilled, HasLaid, IsLaid, IsPlanned, PutFails, later_of, room_left};
ghost use Rattle.log_records.specs.Laying.{Fits, codes_of, room_of};
ghost use Rattle.log_records.specs.Loading.{IsTailFault};
ghost use Rattle.log_records.specs.LogCopy.{CopyFails, IsCopyPlanned};
ghost use Rattle.log_records.specs.RecordReader.{AreAll};
ghost use Rattle.log_records.specs.Rewriting.{from_lsn};

use crate::RecordLog;
use crate::blocks_left::BlocksLeft;
use crate::codec::encode;
use crate::copy_err::CopyErr;
use crate::new_log::NewLog;
use crate::put_err::PutErr;
use crate::record_reader::RecordReader;
use crate::rewriting::is_from_lsn;
use disk_model::{Failed, Machine};
use formats::{ReadErr, Record};
use log_blocks::{LogFile, LogWriter};
use oper_core::{Bounds, Oper};
use std::alloc::Global;

// Puts a code into the block in hand; false where it has no room there.
fn put_behind<M: Machine>(
    m: &mut M,
    code: &[u8],
    blocks: &mut BlocksLeft,
    out: &mut LogWriter,
) -> Result<bool, Failed>
    requires some { 0 < blocks.old.left }
    requires fits { put_of out.old + room_left blocks.old < 2 ^ 63 }
    ensures runs { Runs (In out.old.file KeepsClosed) Same (M.disk m.old) (M.disk m.new) }
    ensures file { out.new.file ≡ out.old.file }
    ensures laid { IfOk result (HasLaid (M.disk m.old) (M.disk m.new) out.old out.new blocks.old blocks.new (code.now ∷ [])) }
    ensures cause { IsErr result → Rises (M.disk m.old).disk_faults (M.disk m.new).disk_faults }
{
    if code.len() > blocks.left as usize {
        return Ok(false);
    }
    out.put(m, code)?;
    blocks.left -= code.len() as u32;
    Ok(true)
}

// Begins the next block with a code; false where there is none, or no room in it.
fn put_first<M: Machine>(
    m: &mut M,
    code: &[u8],
    blocks: &mut BlocksLeft,
    out: &mut LogWriter,
) -> Result<bool, Failed>
    requires full { blocks.old.left ≡ 0 }
    requires fits { put_of out.old + room_left blocks.old < 2 ^ 63 }
    ensures runs { Runs (In out.old.file KeepsClosed) Same (M.disk m.old) (M.disk m.new) }
    ensures file { out.new.file ≡ out.old.file }
    ensures laid { IfOk result (HasLaid (M.disk m.old) (M.disk m.new) out.old out.new blocks.old blocks.new (code.now ∷ [])) }
    ensures cause { IsErr result → Rises (M.disk m.old).disk_faults (M.disk m.new).disk_faults }
{
    if blocks.next >= blocks.lengths.len() {
        return Ok(false);
    }
    let len = blocks.lengths[blocks.next];
    if code.len() > len as usize {
        return Ok(false);
    }
    out.begin_block(m, len)?;
    out.put(m, code)?;
    blocks.left = len - code.len() as u32;
    blocks.next += 1;
    Ok(true)
}

// Puts a code into the block in hand, or, where that is full, into the next; false where it has no room there.
fn put_code<M: Machine>(
    m: &mut M,
    code: &[u8],
    blocks: &mut BlocksLeft,
    out: &mut LogWriter,
) -> Result<bool, Failed>
    requires fits { put_of out.old + room_left blocks.old < 2 ^ 63 }
    ensures runs { Runs (In out.old.file KeepsClosed) Same (M.disk m.old) (M.disk m.new) }
    ensures file { out.new.file ≡ out.old.file }
    ensures laid { IfOk result (HasLaid (M.disk m.old) (M.disk m.new) out.old out.new blocks.old blocks.new (code.now ∷ [])) }
    ensures cause { IsErr result → Rises (M.disk m.old).disk_faults (M.disk m.new).disk_faults }
{
    if blocks.left == 0 {
        let laid = put_first(m, code, blocks, out)?;
        return Ok(laid);
    }
    let laid = put_behind(m, code, blocks, out)?;
    Ok(laid)
}

// Puts a record; false where it has no room in its block.
fn put_record<O: Oper, M: Machine>(
    m: &mut M,
    it: &Record<O>,
    code: &mut Vec<u8>,
    blocks: &mut BlocksLeft,
    out: &mut LogWriter,
) -> Result<bool, PutErr>
    requires code { IsEncodable O.meaning it.now }
    requires fits { put_of out.old + room_left blocks.old < 2 ^ 63 }
    ensures runs { Runs (In out.old.file KeepsClosed) Same (M.disk m.old) (M.disk m.new) }
    ensures file { out.new.file ≡ out.old.file }
    ensures laid { (b : Bounds) → IfOk result (HasLaid (M.disk m.old) (M.disk m.new) out.old out.new blocks.old blocks.new (record_code (O.meaning b) it.now ∷ [])) }
    ensures cause { IfErr result (PutFails (Rises (M.disk m.old).disk_faults (M.disk m.new).disk_faults)) }
{
    code.clear();
    encode(it, code)?;
    let laid = put_code(m, code, blocks, out)?;
    Ok(laid)
}

// Puts a record if it is numbered, from the base on; false where it has no room in its block.
fn copy_record<O: Oper, M: Machine>(
    m: &mut M,
    it: &Record<O>,
    base: u64,
    code: &mut Vec<u8>,
    blocks: &mut BlocksLeft,
    out: &mut LogWriter,
) -> Result<bool, PutErr>
    requires code { IsEncodable O.meaning it.now }
    requires fits { put_of out.old + room_left blocks.old < 2 ^ 63 }
    ensures runs { Runs (In out.old.file KeepsClosed) Same (M.disk m.old) (M.disk m.new) }
    ensures file { out.new.file ≡ out.old.file }
    ensures laid { (b : Bounds) → IfOk result (HasLaid (M.disk m.old) (M.disk m.new) out.old out.new blocks.old blocks.new (codes_of (O.meaning b) (from_lsn base (it.now ∷ [])))) }
    ensures cause { IfErr result (PutFails (Rises (M.disk m.old).disk_faults (M.disk m.new).disk_faults)) }
{
    if !is_from_lsn(it, base) {
        return Ok(true);
    }
    let laid = put_record(m, it, code, blocks, out)?;
    Ok(laid)
}

// Whether no block gets any more.
fn are_full(blocks: &BlocksLeft) -> bool
    ensures { IsTrue result ↔ ((blocks.now.left ≡ 0) × (length blocks.now.lengths.items ≤ blocks.now.next)) }
{
    blocks.left == 0 && blocks.lengths.len() <= blocks.next
}

// Puts a last record, if there is one; false where it has no room, or does not fill the blocks.
fn put_last<O: Oper, M: Machine>(
    alloc: Global,
    m: &mut M,
    last: Option<&Record<O>>,
    blocks: &mut BlocksLeft,
    out: &mut LogWriter,
) -> Result<bool, PutErr>
    requires code { IfSome last (λ r. IsEncodable O.meaning r.now) }
    requires fits { put_of out.old + room_left blocks.old < 2 ^ 63 }
    ensures runs { Runs (In out.old.file KeepsClosed) Same (M.disk m.old) (M.disk m.new) }
    ensures file { out.new.file ≡ out.old.file }
    ensures filled { (b : Bounds) → IfOk result (HasFilled (M.disk m.old) (M.disk m.new) out.old out.new blocks.old (codes_of (O.meaning b) (option_to_list (option_copied last.entry)))) }
    ensures cause { IfErr result (PutFails (Rises (M.disk m.old).disk_faults (M.disk m.new).disk_faults)) }
{
    let Some(it) = last else {
        return Ok(are_full(blocks));
    };
    let mut code = Vec::new(alloc);
    if !put_record(m, it, &mut code, blocks, out)? {
        return Ok(false);
    }
    Ok(are_full(blocks))
}

// The log reads otherwise than when it was measured.
fn changed(log: &LogFile) -> ReadErr
    ensures { result ≡ Damaged log.now.active 0 }
{
    ReadErr::Damaged {
        file: log.active(),
        place: 0,
    }
}

// Puts the records with an LSN of a log from a base on: one at a time is in memory.
fn copy_from_lsn<O: Oper, M: Machine>(
    alloc: Global,
    m: &mut M,
    b: Bounds,
    log: &LogFile,
    base: u64,
    blocks: &mut BlocksLeft,
    out: &mut LogWriter,
) -> Result<(), ReadErr>
    requires small { IsSmall b }
    requires apart { log.now.active ≢ out.old.file }
    requires fits { put_of out.old + room_left blocks.old < 2 ^ 63 }
    ensures runs { Runs (In out.old.file KeepsClosed) Same (M.disk m.old) (M.disk m.new) }
    ensures file { out.new.file ≡ out.old.file }
    ensures copied { OnOk result ((records : List (Record O)) × AreAll (O.meaning b) (M.disk m.new) log.now records
        × IsLaid (M.disk m.old) (M.disk m.new) out.old out.new blocks.old blocks.new (codes_of (O.meaning b) (from_lsn base records))) }

    // They have room, where all records of the log had.
    ensures cause { (all : List (Record O)) (last : List (List ℕ)) → AreAll (O.meaning b) (M.disk m.old) log.now all
        → Fits blocks.old.left (later_of blocks.old) (codes_of (O.meaning b) (from_lsn base all) ++ last)
        → IfErr result (FailsBy (Rises (M.disk m.old).disk_faults (M.disk m.new).disk_faults) (IsTailFault (O.meaning b) (M.disk m.new) log.now)) }
{
    let mut reader = RecordReader::<O>::new(alloc, m, b, log)?;
    let mut code = Vec::new(alloc);
    while let Some(record) = reader.next(m)? {
        if !copy_record(m, &record, base, &mut code, blocks, out)? {
            return Err(changed(log));
        }
    }
    Ok(())
}

// The same, from the log's own base on, into a log of another machine. One function cannot do both, as no machine can be
// lent out twice at a time.
fn copy_all<O: Oper, M: Machine, T: Machine>(
    alloc: Global,
    m: &mut M,
    target: &mut T,
    b: Bounds,
    log: &LogFile,
    blocks: &mut BlocksLeft,
    out: &mut LogWriter,
) -> Result<(), CopyErr>
    requires small { IsSmall b }
    requires fits { put_of out.old + room_left blocks.old < 2 ^ 63 }
    ensures kept { Stays (M.disk m.old) (M.disk m.new) }
    ensures runs { Runs (In out.old.file KeepsClosed) Same (T.disk target.old) (T.disk target.new) }
    ensures file { out.new.file ≡ out.old.file }
    ensures copied { OnOk result ((records : List (Record O)) × AreAll (O.meaning b) (M.disk m.new) log.now records
        × IsLaid (T.disk target.old) (T.disk target.new) out.old out.new blocks.old blocks.new (codes_of (O.meaning b) (from_lsn log.now.header.base records))) }

    // They have room, where all records of the log had.
    ensures cause { (all : List (Record O)) (last : List (List ℕ)) → AreAll (O.meaning b) (M.disk m.old) log.now all
        → Fits blocks.old.left (later_of blocks.old) (codes_of (O.meaning b) (from_lsn log.now.header.base all) ++ last)
        → IfErr result (CopyFails (Rises (M.disk m.old).disk_faults (M.disk m.new).disk_faults) (Rises (T.disk target.old).disk_faults (T.disk target.new).disk_faults)
        (IsTailFault (O.meaning b) (M.disk m.new) log.now) (λ u n l. ⊥)) }
{
    let mut reader = RecordReader::<O>::new(alloc, m, b, log)?;
    let mut code = Vec::new(alloc);
    while let Some(record) = reader.next(m)? {
        if !copy_record(target, &record, log.base(), &mut code, blocks, out)? {
            return Err(CopyErr::from(changed(log)));
        }
    }
    Ok(())
}

impl<O: Oper> RecordLog<O> {
    // Puts the blocks of a new log that was planned: the records with an LSN from the base on, and the checkpoint.
    pub(crate) fn copy<M: Machine>(
        &self,
        m: &mut M,
        base: u64,
        checkpoint: &Record<O>,
        new: NewLog,
        out: &mut LogWriter,
    ) -> Result<(), ReadErr>
        requires apart { self.now.log.active ≢ out.old.file }
        requires planned { IsPlanned (O.meaning self.now.bounds) (M.disk m.old) self.now.log base (checkpoint.now ∷ []) new }
        requires grammar { IsRecord (O.meaning self.now.bounds) checkpoint.now }
        requires fits { put_of out.old + room_of new.lengths.items < 2 ^ 63 }
        ensures runs { Runs (In out.old.file KeepsClosed) Same (M.disk m.old) (M.disk m.new) }
        ensures file { out.new.file ≡ out.old.file }
        ensures copied { OnOk result (HasCopied (O.meaning self.now.bounds) (M.disk m.new) (M.disk m.old) (M.disk m.new) self.now.log base (checkpoint.now ∷ []) new.lengths.items out.old out.new) }
        ensures cause { IfErr result (FailsBy (Rises (M.disk m.old).disk_faults (M.disk m.new).disk_faults) (IsTailFault (O.meaning self.now.bounds) (M.disk m.new) self.now.log)) }
    {
        let mut blocks = BlocksLeft {
            left: 0,
            lengths: new.lengths,
            next: 0,
        };
        copy_from_lsn::<O, M>(
            self.alloc,
            m,
            self.bounds,
            &self.log,
            base,
            &mut blocks,
            out,
        )?;
        if !put_last(self.alloc, m, Some(checkpoint), &mut blocks, out)? {
            return Err(changed(&self.log));
        }
        Ok(())
    }

    // Puts the blocks of the copy that was planned into a log of another machine: the records with an LSN, and the last one, if there is
    // one.
    pub(crate) fn copy_into<M: Machine, T: Machine>(
        &self,
        m: &mut M,
        target: &mut T,
        last: Option<&Record<O>>,
        new: NewLog,
        out: &mut LogWriter,
    ) -> Result<(), CopyErr>
        requires planned { IsCopyPlanned (O.meaning self.now.bounds) (M.disk m.old) self.now.log new (option_copied last) }
        requires fits { put_of out.old + room_of new.lengths.items < 2 ^ 63 }
        ensures kept { Stays (M.disk m.old) (M.disk m.new) }
        ensures runs { Runs (In out.old.file KeepsClosed) Same (T.disk target.old) (T.disk target.new) }
        ensures file { out.new.file ≡ out.old.file }
        ensures copied { OnOk result (HasCopied (O.meaning self.now.bounds) (M.disk m.new) (T.disk target.old) (T.disk target.new) self.now.log self.now.log.header.base (option_to_list (option_copied last.entry)) new.lengths.items out.old out.new) }
        ensures cause { IfErr result (CopyFails (Rises (M.disk m.old).disk_faults (M.disk m.new).disk_faults) (Rises (T.disk target.old).disk_faults (T.disk target.new).disk_faults)
            (IsTailFault (O.meaning self.now.bounds) (M.disk m.new) self.now.log) (λ u n l. ⊥)) }
    {
        let mut blocks = BlocksLeft {
            left: 0,
            lengths: new.lengths,
            next: 0,
        };
        copy_all::<O, M, T>(
            self.alloc,
            m,
            target,
            self.bounds,
            &self.log,
            &mut blocks,
            out,
        )?;
        if !put_last(self.alloc, target, last, &mut blocks, out)? {
            return Err(CopyErr::from(changed(&self.log)));
        }
        Ok(())
    }
}
