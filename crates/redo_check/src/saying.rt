// Says lines.
ghost use Rattle.std.specs.Prelude.{◌≡◌, ◌⊎◌, ◌++◌, ℕ, IfErr, IfOk, List, OnOk};
ghost use Rattle.disk_model.specs.Disk.{Files, Rises, SaysFront, Stays};
ghost use Rattle.formats.specs.Reading.{FailsBy};
ghost use Rattle.oper_core.specs.Meaning.{IsSmall};
ghost use Rattle.redo_check.specs.Checking.{IsRecordsLine, IsRecordsOf, SaysLines};
ghost use Rattle.tool_output.specs.Faults.{StopsBy};
ghost use Rattle.redo_check.specs.Files.{IsLogLine, files_lines};
ghost use Rattle.tool_output.specs.Saying.{OnlySays};

use crate::judging::{log_end, store_records};
use crate::logs::push_log;
use crate::objects::{push_objects, read_bounds};
use crate::text::{found_line, line_of};
use disk_model::{FileNo, Machine};
use formats::ReadErr;
use oper_core::Bounds;
use std::alloc::Global;
use tool_output::{Stop, say_text};

/// The lines of the three files, each by itself.
fn files_text<M: Machine>(alloc: Global, machine: &mut M) -> Result<Vec<u8>, ReadErr>
    ensures kept { Stays (M.disk machine.old) (M.disk machine.new) }
    ensures text { (files : Files) → (M.disk machine.new).agrees files → IfOk result (λ text. text.items ≡ files_lines files) }
    ensures cause { IfErr result (FailsBy (Rises (M.disk machine.old).disk_faults (M.disk machine.new).disk_faults) (λ file place. ⊥)) }
{
    let mut text = Vec::new(alloc);
    push_objects(alloc, machine, &mut text)?;
    push_log(alloc, machine, &mut text, FileNo::LogA)?;
    push_log(alloc, machine, &mut text, FileNo::LogB)?;
    Ok(text)
}

/// The line of the logs' blocks: where the log in force ends, or the first fault of the logs.
fn blocks_text<M: Machine>(alloc: Global, machine: &mut M) -> Result<Vec<u8>, ReadErr>
    ensures kept { Stays (M.disk machine.old) (M.disk machine.new) }
    ensures text { (files : Files) → (M.disk machine.new).agrees files → IfOk result (λ text. IsLogLine files text.items) }
    ensures cause { IfErr result (FailsBy (Rises (M.disk machine.old).disk_faults (M.disk machine.new).disk_faults) (λ file place. ⊥)) }
{
    match log_end(alloc, machine) {
        Ok((file, end)) => Ok(line_of(alloc, file, end, b"end of the log in force", true)?),
        Err(ReadErr::Damaged { file, place }) => Ok(line_of(alloc, file, place, b"logs", false)?),
        Err(ReadErr::DiskFault) => Err(ReadErr::DiskFault),
        Err(ReadErr::Memory) => Err(ReadErr::Memory),
    }
}

/// The line of the records of a store of these bounds: the number after the last one, or the first fault of the logs.
fn records_line<M: Machine>(alloc: Global, machine: &mut M, b: Bounds) -> Result<Vec<u8>, ReadErr>
    ensures kept { Stays (M.disk machine.old) (M.disk machine.new) }
    ensures text { (M.disk machine.old).tells_files → IsSmall b → IfOk result (λ text. IsRecordsOf (M.disk machine.old).reads b text.items) }
    ensures cause { IfErr result (FailsBy (Rises (M.disk machine.old).disk_faults (M.disk machine.new).disk_faults) (λ file place. ⊥)) }
{
    match store_records(alloc, machine, b) {
        Ok(it) => Ok(found_line(alloc, it.file, it.end, b"next number", it.next, true)?),
        Err(ReadErr::Damaged { file, place }) => Ok(line_of(
            alloc, file, place, b"records", false,
        )?),
        Err(ReadErr::DiskFault) => Err(ReadErr::DiskFault),
        Err(ReadErr::Memory) => Err(ReadErr::Memory),
    }
}

/// The same where the objects file says the bounds; nothing where it does not.
fn records_text<M: Machine>(alloc: Global, machine: &mut M) -> Result<Vec<u8>, ReadErr>
    ensures kept { Stays (M.disk machine.old) (M.disk machine.new) }
    ensures text { (M.disk machine.old).tells_files → IfOk result (λ text. IsRecordsLine (M.disk machine.old).reads text.items) }
    ensures cause { IfErr result (FailsBy (Rises (M.disk machine.old).disk_faults (M.disk machine.new).disk_faults) (λ file place. ⊥)) }
{
    let found = read_bounds(machine)?;
    let Some(b) = found else {
        return Ok(Vec::new(alloc));
    };
    let line = records_line(alloc, machine, b)?;
    Ok(line)
}

/// The lines of the three files, that of the blocks, and that of the records.
fn all_text<M: Machine>(alloc: Global, machine: &mut M) -> Result<Vec<u8>, ReadErr>
    ensures kept { Stays (M.disk machine.old) (M.disk machine.new) }
    ensures text { (M.disk machine.old).tells_files → IfOk result (λ text. SaysLines (M.disk machine.old).reads text.items) }
    ensures cause { IfErr result (FailsBy (Rises (M.disk machine.old).disk_faults (M.disk machine.new).disk_faults) (λ file place. ⊥)) }
{
    let mut text = files_text(alloc, machine)?;
    let blocks = blocks_text(alloc, machine)?;
    text.extend_from_slice(blocks.as_slice())?;
    let records = records_text(alloc, machine)?;
    text.extend_from_slice(records.as_slice())?;
    Ok(text)
}

/// Says all of these.
pub fn say_files<M: Machine>(alloc: Global, machine: &mut M) -> Result<(), Stop>
    ensures runs { OnlySays (M.disk machine.old) (M.disk machine.new) }
    ensures said { (M.disk machine.old).tells_files → OnOk result ((text : List ℕ) × SaysLines (M.disk machine.old).reads text × ((M.disk machine.new).said ≡ (M.disk machine.old).said ++ text)) }
    ensures front { (M.disk machine.old).tells_files → ((M.disk machine.new).said ≡ (M.disk machine.old).said)
        ⊎ ((text : List ℕ) × SaysLines (M.disk machine.old).reads text × SaysFront text (M.disk machine.old).said (M.disk machine.new).said) }
    ensures cause { IfErr result (StopsBy (M.disk machine.old) (M.disk machine.new) (λ file place. ⊥)) }
{
    let text = all_text(alloc, machine)?;
    say_text(machine, text.as_slice())?;
    Ok(())
}
