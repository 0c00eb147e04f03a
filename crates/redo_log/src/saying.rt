// Says what a log holds, record by record.
ghost use Rattle.std.specs.Prelude.{◌≡◌, ◌<◌, ◌≤◌, ◌++◌, [], List, ℕ, IfErr, OnErr, OnOk, codes};
ghost use Rattle.disk_model.specs.Disk.{SaysFront};
ghost use Rattle.log_blocks.specs.Payloads.{IsInLog, ahead, remaining};
ghost use Rattle.formats.specs.Log.{end_of};
ghost use Rattle.op_codec.specs.AllOps.{all_meaning};
ghost use Rattle.tool_output.specs.Faults.{StopsBy};
ghost use Rattle.redo_log.specs.Fronts.{AreFirstLines, AreLinesToNone, SaysBlockToNone, SaysNone, SaysSomeOfBlock, SaysSomeRecords};
ghost use Rattle.redo_log.specs.Lines.{frame_line};
ghost use Rattle.tool_output.specs.Saying.{OnlySays};
ghost use Rattle.redo_log.specs.Reading.{SaysRecord, SaysBlock, SaysBlocks};

use crate::choice::Choice;
use crate::finding::find_record;
use crate::lines::{frame_line, record_line};
use disk_model::Machine;
use formats::BLOCK_HEAD;
use log_blocks::PayloadReader;
use oper_core::Bounds;
use std::alloc::Global;
use tool_output::{Stop, say_text};

/// Says the next record of the payload in hand, and takes it.
fn say_record<M: Machine>(
    alloc: Global,
    machine: &mut M,
    choice: Choice,
    b: Bounds,
    payloads: &mut PayloadReader,
) -> Result<(), Stop>
    ensures runs { OnlySays (M.disk machine.old) (M.disk machine.new) }
    ensures file { payloads.new.file ≡ payloads.old.file }
    ensures less { OnOk result ((remaining payloads.new < remaining payloads.old) × (ahead payloads.new ≤ ahead payloads.old)) }
    ensures said { (M.disk machine.old).tells_files → (all passed : List (List ℕ)) (taken : List ℕ) (later : List (List ℕ))
        → IsInLog ((M.disk machine.old).reads payloads.old.file) payloads.old all passed taken later → 0 < remaining payloads.old
        → OnOk result (SaysRecord choice (all_meaning b) ((M.disk machine.old).reads payloads.old.file) payloads.old payloads.new all passed taken later (M.disk machine.old).said (M.disk machine.new).said) }
    ensures front { (M.disk machine.old).tells_files → (all passed : List (List ℕ)) (taken : List ℕ) (later : List (List ℕ))
        → IsInLog ((M.disk machine.old).reads payloads.old.file) payloads.old all passed taken later → 0 < remaining payloads.old
        → OnErr result (SaysSomeRecords choice (all_meaning b) payloads.old.file (remaining payloads.old) all passed taken later (M.disk machine.old).said (M.disk machine.new).said) }
    ensures cause { IfErr result (StopsBy (M.disk machine.old) (M.disk machine.new) (λ file place. (M.disk machine.old).tells_files → (all passed : List (List ℕ)) (taken : List ℕ) (later : List (List ℕ))
        → IsInLog ((M.disk machine.old).reads payloads.old.file) payloads.old all passed taken later → 0 < remaining payloads.old
        → SaysNone (all_meaning b) (remaining payloads.old) all passed taken later (M.disk machine.old).said (M.disk machine.new).said)) }
{
    let (it, length) = find_record(alloc, machine, b, payloads)?;
    let line = record_line(
        alloc,
        choice,
        payloads.file(),
        payloads.place(),
        length as u64,
        &it,
    )?;
    say_text(machine, line.as_slice())?;
    payloads.take(length);
    Ok(())
}

/// Says the line of the block whose payload is in hand, of which nothing was taken.
fn say_head<M: Machine>(
    alloc: Global,
    machine: &mut M,
    choice: Choice,
    payloads: &PayloadReader,
) -> Result<(), Stop>
    ensures runs { OnlySays (M.disk machine.old) (M.disk machine.new) }
    ensures said { (M.disk machine.old).tells_files → (all passed later : List (List ℕ))
        → IsInLog ((M.disk machine.old).reads payloads.now.file) payloads.now all passed [] later → 0 < remaining payloads.now
        → OnOk result ((M.disk machine.new).said ≡ (M.disk machine.old).said ++ frame_line choice payloads.now.file (end_of passed) (remaining payloads.now) (codes "block")) }
    ensures front { (M.disk machine.old).tells_files → (all passed later : List (List ℕ))
        → IsInLog ((M.disk machine.old).reads payloads.now.file) payloads.now all passed [] later → 0 < remaining payloads.now
        → SaysFront (frame_line choice payloads.now.file (end_of passed) (remaining payloads.now) (codes "block")) (M.disk machine.old).said (M.disk machine.new).said }
    ensures cause { IfErr result (StopsBy (M.disk machine.old) (M.disk machine.new) (λ file place. ⊥)) }
{
    let line = frame_line(
        alloc,
        choice,
        payloads.file(),
        payloads.place().saturating_sub(BLOCK_HEAD as u64),
        payloads.remaining(),
        b"block",
    )?;
    say_text(machine, line.as_slice())?;
    Ok(())
}

/// Says the block of the payload in hand, of which nothing was taken, and its records, and takes them all.
fn say_block<M: Machine>(
    alloc: Global,
    machine: &mut M,
    choice: Choice,
    b: Bounds,
    payloads: &mut PayloadReader,
) -> Result<(), Stop>
    ensures runs { OnlySays (M.disk machine.old) (M.disk machine.new) }
    ensures file { payloads.new.file ≡ payloads.old.file }
    ensures less { OnOk result ((remaining payloads.new ≡ 0) × (ahead payloads.new ≤ ahead payloads.old)) }
    ensures said { (M.disk machine.old).tells_files → (all passed later : List (List ℕ))
        → IsInLog ((M.disk machine.old).reads payloads.old.file) payloads.old all passed [] later → 0 < remaining payloads.old
        → OnOk result (SaysBlock choice (all_meaning b) ((M.disk machine.old).reads payloads.old.file) payloads.old payloads.new all passed later (M.disk machine.old).said (M.disk machine.new).said) }
    ensures front { (M.disk machine.old).tells_files → (all passed later : List (List ℕ))
        → IsInLog ((M.disk machine.old).reads payloads.old.file) payloads.old all passed [] later → 0 < remaining payloads.old
        → OnErr result (SaysSomeOfBlock choice (all_meaning b) payloads.old.file all passed later (M.disk machine.old).said (M.disk machine.new).said) }
    ensures cause { IfErr result (StopsBy (M.disk machine.old) (M.disk machine.new) (λ file place. (M.disk machine.old).tells_files → (all passed later : List (List ℕ))
        → IsInLog ((M.disk machine.old).reads payloads.old.file) payloads.old all passed [] later → 0 < remaining payloads.old
        → SaysBlockToNone choice (all_meaning b) payloads.old.file all passed later (M.disk machine.old).said (M.disk machine.new).said)) }
{
    say_head(alloc, machine, choice, payloads)?;
    loop {
        if payloads.remaining() == 0 {
            return Ok(());
        }
        say_record(alloc, machine, choice, b, payloads)?;
    }
}

/// Says all blocks of a log, of which none was passed.
pub fn say_blocks<M: Machine>(
    alloc: Global,
    machine: &mut M,
    choice: Choice,
    b: Bounds,
    payloads: &mut PayloadReader,
) -> Result<(), Stop>
    requires { remaining payloads.old ≡ 0 }
    ensures runs { OnlySays (M.disk machine.old) (M.disk machine.new) }
    ensures said { (M.disk machine.old).tells_files → (all : List (List ℕ)) → IsInLog ((M.disk machine.old).reads payloads.old.file) payloads.old all [] [] all
        → OnOk result (SaysBlocks choice (all_meaning b) payloads.old all (M.disk machine.old).said (M.disk machine.new).said) }
    ensures front { (M.disk machine.old).tells_files → (all : List (List ℕ)) → IsInLog ((M.disk machine.old).reads payloads.old.file) payloads.old all [] [] all
        → OnErr result ((text : List ℕ) × AreFirstLines choice (all_meaning b) payloads.old.file all text × SaysFront text (M.disk machine.old).said (M.disk machine.new).said) }
    ensures cause { IfErr result (StopsBy (M.disk machine.old) (M.disk machine.new) (λ file place. (M.disk machine.old).tells_files → (all : List (List ℕ))
        → IsInLog ((M.disk machine.old).reads payloads.old.file) payloads.old all [] [] all
        → (text : List ℕ) × AreLinesToNone choice (all_meaning b) payloads.old.file all text × ((M.disk machine.new).said ≡ (M.disk machine.old).said ++ text))) }
{
    loop {
        if !payloads.next_payload(machine)? {
            return Ok(());
        }
        say_block(alloc, machine, choice, b, payloads)?;
    }
}
