// Files that break their format.
ghost use Rattle.std.specs.Prelude.{◌≡◌, ◌⊎◌, ◌++◌, IfOk};
ghost use Rattle.disk_model.specs.Disk.{Rises, Passes, Runs, Same, SaysFront};
ghost use Rattle.shell_base.specs.Keeps.{KeepsFiles, SaysOnly};
ghost use Rattle.shell_base.specs.Notices.{damaged, name_of_file};

use crate::say::end_with;
use crate::status::Status;
use disk_model::{FileNo, Machine};
use oper_core::Memory;
use std::alloc::Global;

/// The name of a file.
fn file_name(file: FileNo) -> &'static [u8]
    ensures { result.now ≡ name_of_file file }
{
    match file {
        FileNo::Objects => b"objects",
        FileNo::LogA => b"log_a",
        FileNo::LogB => b"log_b",
    }
}

/// The line that reports a fault in a file at a place.
fn damage_line(alloc: Global, file: FileNo, place: u64) -> Result<Vec<u8>, Memory>
    ensures { IfOk result (λ line. line.items ≡ damaged file place) }
{
    let mut line = Vec::new(alloc);
    line.extend_from_slice(b"damaged ")?;
    line.extend_from_slice(file_name(file))?;
    line.push(b' ')?;
    let digits = place.to_string(alloc)?;
    line.extend_from_slice(digits.as_bytes())?;
    line.push(b'\n')?;
    Ok(line)
}

/// Says where the files break their format, and ends with that status, or out of memory for the line with that, or
/// where the output fails with that.
pub fn end_damaged<M: Machine>(alloc: Global, machine: &mut M, file: FileNo, place: u64) -> Status
    ensures time { Passes (M.disk machine.old) (M.disk machine.new) }
    ensures keeps { KeepsFiles (M.disk machine.old) (M.disk machine.new) }
    ensures runs { Runs Same (SaysFront (damaged file place)) (M.disk machine.old) (M.disk machine.new) }
    ensures says { SaysOnly (M.disk machine.old) (M.disk machine.new) }
    ensures all { (M.disk machine.old).tells_files → result ≡ Status.Damaged → (M.disk machine.new).said ≡ (M.disk machine.old).said ++ damaged file place }
    ensures status { (result ≡ Status.Damaged) ⊎ ((result ≡ Status.Memory) ⊎ (result ≡ Status.SayFault)) }
    ensures cause { result ≡ Status.SayFault → Rises (M.disk machine.old).say_faults (M.disk machine.new).say_faults }
    ensures silent { result ≡ Status.Memory → machine.new ≡ machine.old }
{
    match damage_line(alloc, file, place) {
        Ok(line) => end_with(machine, line.as_slice(), Status::Damaged),
        Err(Memory) => Status::Memory,
    }
}
