// Lines of a text and numbers, said before the program ends.
ghost use Rattle.std.specs.Prelude.{◌≡◌, ◌⊎◌, ◌++◌, IfOk, OnOk};
ghost use Rattle.disk_model.specs.Disk.{Rises, Runs, Same, SaysFront};
ghost use Rattle.shell_base.specs.Keeps.{SaysOnly};
ghost use Rattle.shell_base.specs.Notices.{with_lsn, spaced};

use crate::say::end_with;
use crate::status::Status;
use disk_model::Machine;
use oper_core::Memory;
use std::alloc::Global;

/// Adds a number behind a space.
fn push_number(alloc: Global, line: &mut Vec<u8>, number: u64) -> Result<(), Memory>
    ensures { OnOk result (line.new.items ≡ line.old.items ++ spaced number) }
{
    line.push(b' ')?;
    let digits = number.to_string(alloc)?;
    line.extend_from_slice(digits.as_bytes())?;
    Ok(())
}

/// A line of a text and numbers after it, each behind a space.
fn numbered_line(alloc: Global, text: &[u8], numbers: &[u64]) -> Result<Vec<u8>, Memory>
    ensures { IfOk result (λ line. line.items ≡ with_lsn text.now numbers.now) }
{
    let mut line = Vec::new(alloc);
    line.extend_from_slice(text)?;
    for number in numbers {
        push_number(alloc, &mut line, *number)?;
    }
    line.push(b'\n')?;
    Ok(line)
}

/// Says such a line, and ends with this status, or out of memory for the line with that, or where the output fails with
/// that.
pub fn end_numbered<M: Machine>(
    alloc: Global,
    machine: &mut M,
    text: &[u8],
    numbers: &[u64],
    status: Status,
) -> Status
    ensures says { SaysOnly (M.disk machine.old) (M.disk machine.new) }
    ensures runs { Runs Same (SaysFront (with_lsn text.now numbers.now)) (M.disk machine.old) (M.disk machine.new) }
    ensures all { (M.disk machine.old).tells_files → (result ≡ Status.Memory) ⊎ ((result ≡ Status.SayFault) ⊎ ((M.disk machine.new).said ≡ (M.disk machine.old).said ++ with_lsn text.now numbers.now)) }
    ensures status { (result ≡ status) ⊎ ((result ≡ Status.Memory) ⊎ (result ≡ Status.SayFault)) }
    ensures silent { result ≡ Status.Memory → (status ≡ Status.Memory) ⊎ (machine.new ≡ machine.old) }
    ensures cause { result ≡ Status.SayFault → (status ≡ Status.SayFault) ⊎ Rises (M.disk machine.old).say_faults (M.disk machine.new).say_faults }
{
    match numbered_line(alloc, text, numbers) {
        Ok(line) => end_with(machine, line.as_slice(), status),
        Err(Memory) => Status::Memory,
    }
}
