// How long the blocks of a new log will be, before anything of it is written.
ghost use Rattle.std.specs.Prelude.{◌≡◌, ◌<◌, ◌≤◌, ◌+◌, ◌*◌, ◌^◌, ◌∷◌, ◌++◌, [], IfErr, IfOk, List, ℕ, OnOk, length};
ghost use Rattle.disk_model.specs.Disk.{Rises, Stays};
ghost use Rattle.formats.specs.Reading.{FailsBy};
ghost use Rattle.formats.specs.Records.{record_code};
ghost use Rattle.formats.specs.declared.record.Record.{Record};
ghost use Rattle.log_records.specs.Loading.{IsTailFault};
ghost use Rattle.log_records.specs.Measuring.{block_lengths};
ghost use Rattle.log_records.specs.Measured.{IsMeasured};
ghost use Rattle.log_records.specs.RecordReader.{AreAll};

use crate::measured::Measured;
use crate::placing::commands_in;
use crate::record_reader::RecordReader;
use crate::rewriting::is_from_lsn;
use dirty_page_table::DirtyPageTable;
use disk_model::Machine;
use formats::{CHECK_HEAD, IDENTITY_HEAD, MAX_PAYLOAD, RECORD_HEAD, ReadErr, Record, START_BYTES};
use log_blocks::LogFile;
use oper_core::{Bounds, Memory, Oper};
use std::alloc::Global;

// How many bytes the code of a record has, which goes into a block.
pub fn code_length<O: Oper>(it: &Record<O>) -> u32
    requires { (b : Bounds) × (length (record_code (O.meaning b) it.now) ≤ 2 ^ 30) }
    ensures { (b : Bounds) → result ≡ length (record_code (O.meaning b) it.now) }
{
    match it {
        Record::Command(_, op) => RECORD_HEAD as u32 + op.code_length() as u32,
        Record::Identity(_, _, value) => (IDENTITY_HEAD + value.as_slice().len()) as u32,
        Record::Checkpoint(table) => checkpoint_length(table),
    }
}

// How many bytes the code of a checkpoint with this table has, which goes into a block.
pub fn checkpoint_length(table: &DirtyPageTable) -> u32
    requires { 13 + 12 * length table.now.starts ≤ 2 ^ 30 }
    ensures { result ≡ 13 + 12 * length table.now.starts }
{
    (CHECK_HEAD + START_BYTES * table.starts.as_slice().len()) as u32
}

// Counts a record, whose code has so many bytes, into the block in hand, or, where it has no room there, into the next. The
// lengths of the full blocks come after those that were found.
pub fn count_record(length: u32, filled: &mut u32, found: &mut Vec<u32>) -> Result<(), Memory>
    requires short { length ≤ 2 ^ 30 }
    requires filled { filled.old ≤ 2 ^ 30 }
    ensures counted { OnOk result ((rest : List ℕ) → found.old.items ++ block_lengths filled.old (length ∷ rest) ≡ found.new.items ++ block_lengths filled.new rest) }
    ensures filled { OnOk result ((length ≤ filled.new) × (filled.new ≤ 2 ^ 30)) }
{
    if *filled + length <= MAX_PAYLOAD {
        *filled += length;
        return Ok(());
    }
    found.push(*filled)?;
    *filled = length;
    Ok(())
}

// Measures a record more: before the base it is a command or none, and from there on it goes into a block.
fn measure_record<O: Oper>(it: &Record<O>, base: u64, so_far: &mut Measured) -> Result<(), Memory>
    requires short { (b : Bounds) × (length (record_code (O.meaning b) it.now) ≤ 2 ^ 30) }
    requires few { so_far.old.commands < 2 ^ 63 }
    requires filled { so_far.old.filled ≤ 2 ^ 30 }
    ensures { (b : Bounds) (records : List (Record O)) → IsMeasured (O.meaning b) base records so_far.old
        → OnOk result (IsMeasured (O.meaning b) base (records ++ it.now ∷ []) so_far.new) }
{
    if is_from_lsn(it, base) {
        count_record(code_length(it), &mut so_far.filled, &mut so_far.full)?;
        return Ok(());
    }
    so_far.commands += commands_in(it);
    Ok(())
}

// What a log from this base on will be, of the records of a log: one record at a time is in memory.
pub fn measure<O: Oper, M: Machine>(
    alloc: Global,
    m: &mut M,
    b: Bounds,
    log: &LogFile,
    base: u64,
) -> Result<Measured, ReadErr>
    requires { log.now.header.base ≤ 2 ^ 62 }
    ensures kept { Stays (M.disk m.old) (M.disk m.new) }
    ensures measured { IfOk result (λ it. (records : List (Record O)) × AreAll (O.meaning b) (M.disk m.new) log.now records × IsMeasured (O.meaning b) base records it) }
    ensures cause { IfErr result (FailsBy (Rises (M.disk m.old).disk_faults (M.disk m.new).disk_faults)
        (IsTailFault (O.meaning b) (M.disk m.new) log.now)) }
{
    let mut reader = RecordReader::<O>::new(alloc, m, b, log)?;
    let full = Vec::new(alloc);
    let mut so_far = Measured {
        commands: 0,
        full,
        filled: 0,
    };
    while let Some(record) = reader.next(m)? {
        measure_record(&record, base, &mut so_far)?;
    }
    Ok(so_far)
}
