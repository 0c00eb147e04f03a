// Finds the next record of a log.
ghost use Rattle.std.specs.Prelude.{◌≡◌, List, ℕ, IfErr, IfNone, IfOk, IfSome, OnOk, length};
ghost use Rattle.disk_model.specs.Disk.{Files, Rises, Stays};
ghost use Rattle.formats.specs.Reading.{FailsBy};
ghost use Rattle.formats.specs.Records.{record_code};
ghost use Rattle.log_blocks.specs.Payloads.{IsInLog, ahead, remaining};
ghost use Rattle.log_records.specs.Codec.{StartsWithRecord};
ghost use Rattle.op_codec.specs.AllOps.{all_meaning};
ghost use Rattle.redo_log.specs.Unreadable.{FindsNone, StartsWithNone};
ghost use Rattle.tool_output.specs.Faults.{StopsBy};

use disk_model::Machine;
use formats::{ReadErr, Record};
use log_blocks::PayloadReader;
use log_records::decode;
use op_codec::AllOps;
use oper_core::{Bounds, Memory};
use std::alloc::Global;
use tool_output::Stop;

/// The record whose code the bytes begin with, and the code's length.
fn decoded(
    alloc: Global,
    b: Bounds,
    bytes: &[u8],
) -> Result<Option<(Record<AllOps>, usize)>, Memory>
    ensures some { IfOk result (λ found. IfSome found (λ pair.
        StartsWithRecord (all_meaning b) bytes.now pair.0 × (pair.1 ≡ length (record_code (all_meaning b) pair.0)))) }
    ensures none { IfOk result (λ found. IfNone found (StartsWithNone (all_meaning b) bytes.now)) }
{
    decode(alloc, b, bytes)
}

/// Brings bytes of the payload in hand into memory until they begin with a record, and answers the length of its code beside
/// it; none where the whole payload's do not.
fn search_record<M: Machine>(
    alloc: Global,
    machine: &mut M,
    b: Bounds,
    payloads: &mut PayloadReader,
) -> Result<Option<(Record<AllOps>, usize)>, ReadErr>
    ensures kept { Stays (M.disk machine.old) (M.disk machine.new) }
    ensures file { payloads.new.file ≡ payloads.old.file }
    ensures all { OnOk result ((remaining payloads.new ≡ remaining payloads.old) × (ahead payloads.new ≡ ahead payloads.old)) }
    ensures read { (files : Files) → (M.disk machine.new).agrees files → (all passed : List (List ℕ)) (taken : List ℕ) (later : List (List ℕ))
        → IsInLog (files payloads.old.file) payloads.old all passed taken later → OnOk result (IsInLog (files payloads.new.file) payloads.new all passed taken later) }
    ensures some { IfOk result (λ found. IfSome found (λ pair. StartsWithRecord (all_meaning b) payloads.new.bytes pair.0 × (pair.1 ≡ length (record_code (all_meaning b) pair.0)))) }
    ensures none { IfOk result (λ found. IfNone found ((payloads.new.left ≡ 0) × StartsWithNone (all_meaning b) payloads.new.bytes)) }
    ensures cause { IfErr result (FailsBy (Rises (M.disk machine.old).disk_faults (M.disk machine.new).disk_faults) (λ file place. ⊥)) }
{
    loop {
        if let Some(found) = decoded(alloc, b, payloads.bytes())? {
            return Ok(Some(found));
        }
        if !payloads.read_more(machine)? {
            return Ok(None);
        }
    }
}

/// The record with which the payload in hand goes on, as much of which comes into memory as it takes, and the length of its
/// code. Fails where the whole payload goes on with none.
pub fn find_record<M: Machine>(
    alloc: Global,
    machine: &mut M,
    b: Bounds,
    payloads: &mut PayloadReader,
) -> Result<(Record<AllOps>, usize), Stop>
    ensures kept { Stays (M.disk machine.old) (M.disk machine.new) }
    ensures file { payloads.new.file ≡ payloads.old.file }
    ensures all { OnOk result ((remaining payloads.new ≡ remaining payloads.old) × (ahead payloads.new ≡ ahead payloads.old)) }
    ensures read { (files : Files) → (M.disk machine.new).agrees files → (all passed : List (List ℕ)) (taken : List ℕ) (later : List (List ℕ))
        → IsInLog (files payloads.old.file) payloads.old all passed taken later → OnOk result (IsInLog (files payloads.new.file) payloads.new all passed taken later) }
    ensures found { IfOk result (λ pair. StartsWithRecord (all_meaning b) payloads.new.bytes pair.0 × (pair.1 ≡ length (record_code (all_meaning b) pair.0))) }
    ensures cause { IfErr result (StopsBy (M.disk machine.old) (M.disk machine.new) (λ file place. FindsNone (all_meaning b) (M.disk machine.new) payloads.old payloads.new)) }
{
    match search_record(alloc, machine, b, payloads)? {
        Some(found) => Ok(found),
        None => Err(Stop::Damaged {
            file: payloads.file(),
            place: payloads.place(),
        }),
    }
}
