// Counts the records that a log holds. It reads as src/saying.rt does, and says nothing.
ghost use Rattle.std.specs.Prelude.{◌≡◌, ◌<◌, ◌≤◌, ◌++◌, [], List, ℕ, IfErr, OnOk};
ghost use Rattle.disk_model.specs.Disk.{Stays};
ghost use Rattle.formats.specs.InForce.{HoldsLog};
ghost use Rattle.log_blocks.specs.Payloads.{IsInLog, ahead, remaining};
ghost use Rattle.op_codec.specs.AllOps.{all_meaning};
ghost use Rattle.redo_log.specs.Fronts.{AreLinesToNone, SaysBlockToNone, SaysNone};
ghost use Rattle.redo_log.specs.Tallying.{CountsBlock, CountsBlocks, CountsLog, CountsRecord, nothing};
ghost use Rattle.redo_log.specs.Unreadable.{AreUnreadable};
ghost use Rattle.tool_output.specs.Faults.{StopsBy};

use crate::choice::Choice;
use crate::finding::find_record;
use crate::tally::count;
use disk_model::Machine;
use log_blocks::{LogFile, PayloadReader};
use oper_core::Bounds;
use std::alloc::Global;
use tool_output::Stop;

/// Takes the next record of the payload in hand, and counts it.
fn count_record<M: Machine>(
    alloc: Global,
    machine: &mut M,
    choice: Choice,
    b: Bounds,
    payloads: &mut PayloadReader,
    tally: &mut Vec<(u64, u64)>,
) -> Result<(), Stop>
    ensures kept { Stays (M.disk machine.old) (M.disk machine.new) }
    ensures file { payloads.new.file ≡ payloads.old.file }
    ensures less { OnOk result ((remaining payloads.new < remaining payloads.old) × (ahead payloads.new ≤ ahead payloads.old)) }
    ensures counted { (M.disk machine.old).tells_files → (all passed : List (List ℕ)) (taken : List ℕ) (later : List (List ℕ))
        → IsInLog ((M.disk machine.old).reads payloads.old.file) payloads.old all passed taken later → 0 < remaining payloads.old
        → OnOk result (CountsRecord choice (all_meaning b) ((M.disk machine.old).reads payloads.old.file) payloads.old payloads.new all passed taken later (M.disk machine.old).said (M.disk machine.new).said tally.old.items tally.new.items) }
    ensures cause { IfErr result (StopsBy (M.disk machine.old) (M.disk machine.new) (λ file place. (M.disk machine.old).tells_files → (all passed : List (List ℕ)) (taken : List ℕ) (later : List (List ℕ))
        → IsInLog ((M.disk machine.old).reads payloads.old.file) payloads.old all passed taken later → 0 < remaining payloads.old
        → SaysNone (all_meaning b) (remaining payloads.old) all passed taken later (M.disk machine.old).said (M.disk machine.new).said)) }
{
    let (it, length) = find_record(alloc, machine, b, payloads)?;
    payloads.take(length);
    count(choice, &it, length as u64, tally);
    Ok(())
}

/// Takes all records of the payload in hand, of which nothing was taken, and counts them.
fn count_block<M: Machine>(
    alloc: Global,
    machine: &mut M,
    choice: Choice,
    b: Bounds,
    payloads: &mut PayloadReader,
    tally: &mut Vec<(u64, u64)>,
) -> Result<(), Stop>
    ensures kept { Stays (M.disk machine.old) (M.disk machine.new) }
    ensures file { payloads.new.file ≡ payloads.old.file }
    ensures less { OnOk result ((remaining payloads.new ≡ 0) × (ahead payloads.new ≤ ahead payloads.old)) }
    ensures counted { (M.disk machine.old).tells_files → (all passed later : List (List ℕ))
        → IsInLog ((M.disk machine.old).reads payloads.old.file) payloads.old all passed [] later → 0 < remaining payloads.old
        → OnOk result (CountsBlock choice (all_meaning b) ((M.disk machine.old).reads payloads.old.file) payloads.old payloads.new all passed later (M.disk machine.old).said (M.disk machine.new).said tally.old.items tally.new.items) }
    ensures cause { IfErr result (StopsBy (M.disk machine.old) (M.disk machine.new) (λ file place. (M.disk machine.old).tells_files → (all passed later : List (List ℕ))
        → IsInLog ((M.disk machine.old).reads payloads.old.file) payloads.old all passed [] later → 0 < remaining payloads.old
        → SaysBlockToNone nothing (all_meaning b) payloads.old.file all passed later (M.disk machine.old).said (M.disk machine.new).said)) }
{
    loop {
        if payloads.remaining() == 0 {
            return Ok(());
        }
        count_record(alloc, machine, choice, b, payloads, tally)?;
    }
}

/// Takes all blocks of a log, of which none was passed, and counts their records.
fn count_blocks<M: Machine>(
    alloc: Global,
    machine: &mut M,
    choice: Choice,
    b: Bounds,
    payloads: &mut PayloadReader,
    tally: &mut Vec<(u64, u64)>,
) -> Result<(), Stop>
    requires { remaining payloads.old ≡ 0 }
    ensures kept { Stays (M.disk machine.old) (M.disk machine.new) }
    ensures counted { (M.disk machine.old).tells_files → (all : List (List ℕ)) → IsInLog ((M.disk machine.old).reads payloads.old.file) payloads.old all [] [] all
        → OnOk result (CountsBlocks choice (all_meaning b) payloads.old all (M.disk machine.old).said (M.disk machine.new).said tally.old.items tally.new.items) }
    ensures cause { IfErr result (StopsBy (M.disk machine.old) (M.disk machine.new) (λ file place. (M.disk machine.old).tells_files → (all : List (List ℕ))
        → IsInLog ((M.disk machine.old).reads payloads.old.file) payloads.old all [] [] all
        → (text : List ℕ) × AreLinesToNone nothing (all_meaning b) payloads.old.file all text × ((M.disk machine.new).said ≡ (M.disk machine.old).said ++ text))) }
{
    loop {
        if !payloads.next_payload(machine)? {
            return Ok(());
        }
        count_block(alloc, machine, choice, b, payloads, tally)?;
    }
}

/// Counts the records of a log.
pub fn count_log<M: Machine>(
    alloc: Global,
    machine: &mut M,
    choice: Choice,
    b: Bounds,
    log: &LogFile,
    tally: &mut Vec<(u64, u64)>,
) -> Result<(), Stop>
    ensures kept { Stays (M.disk machine.old) (M.disk machine.new) }
    ensures counted { (M.disk machine.old).tells_files → (payloads : List (List ℕ)) → HoldsLog log.now.active log.now.header payloads (M.disk machine.old).reads
        → OnOk result (CountsLog choice (all_meaning b) payloads tally.old.items tally.new.items) }
    ensures cause { IfErr result (StopsBy (M.disk machine.old) (M.disk machine.new) (λ file place. (M.disk machine.old).tells_files → (payloads : List (List ℕ))
        → HoldsLog log.now.active log.now.header payloads (M.disk machine.old).reads → AreUnreadable (all_meaning b) payloads)) }
{
    let mut payloads = log.reader(alloc, machine)?;
    count_blocks(alloc, machine, choice, b, &mut payloads, tally)?;
    Ok(())
}
