// Says the last line, and ends with its status.
ghost use Rattle.std.specs.Prelude.{◌≡◌, ◌≢◌, ◌⊎◌, ◌++◌, ℕ};
ghost use Rattle.disk_model.specs.Disk.{Runs, Same, SaysFront};
ghost use Rattle.disk_model.specs.declared.machine.FileNo.{FileNo as File};
ghost use Rattle.tool_output.specs.Faults.{EndsBy, HandsOn};
ghost use Rattle.tool_output.specs.Lines.{damaged, not_a_store, stop_line};
ghost use Rattle.tool_output.specs.Saying.{OnlySays};

use crate::status::Status;
use crate::stop::Stop;
use crate::text::damage_line;
use disk_model::{FileNo, Machine};
use oper_core::Memory;
use std::alloc::Global;

/// Says a line, and ends with this status, or where the output fails with that.
pub fn end_with<M: Machine>(machine: &mut M, line: &[u8], status: Status) -> Status
    ensures runs { Runs Same (SaysFront line.now) (M.disk machine.old) (M.disk machine.new) }
    ensures all { (M.disk machine.old).tells_files → result ≢ Status.SayFault → (M.disk machine.new).said ≡ (M.disk machine.old).said ++ line.now }
    ensures status { (result ≡ status) ⊎ (result ≡ Status.SayFault) }
    ensures faults { EndsBy (M.disk machine.old) (M.disk machine.new) status → EndsBy (M.disk machine.old) (M.disk machine.new) result }
{
    match machine.say(line) {
        Ok(()) => status,
        Err(_) => Status::SayFault,
    }
}

/// Says where a file breaks its format, and ends with that status, or out of memory for the line with that, or where the output
/// fails with that.
pub fn end_damaged<M: Machine>(alloc: Global, machine: &mut M, file: FileNo, place: u64) -> Status
    ensures runs { OnlySays (M.disk machine.old) (M.disk machine.new) }
    ensures all { (M.disk machine.old).tells_files → result ≡ Status.Damaged → (M.disk machine.new).said ≡ (M.disk machine.old).said ++ damaged file place }
    ensures front { (M.disk machine.old).tells_files → SaysFront (damaged file place) (M.disk machine.old).said (M.disk machine.new).said }
    ensures status { (result ≡ Status.Damaged) ⊎ ((result ≡ Status.Memory) ⊎ (result ≡ Status.SayFault)) }
    ensures faults { EndsBy (M.disk machine.old) (M.disk machine.new) result }
{
    match damage_line(alloc, file, place) {
        Ok(line) => end_with(machine, line.as_slice(), Status::Damaged),
        Err(Memory) => Status::Memory,
    }
}

/// Ends with the status of what ended the lines early, and says it where it is about the files.
pub fn end_stopped<M: Machine>(alloc: Global, machine: &mut M, stop: Stop) -> Status
    ensures runs { OnlySays (M.disk machine.old) (M.disk machine.new) }
    ensures no_store { (M.disk machine.old).tells_files → result ≡ Status.NotAStore → (stop ≡ Stop.NotAStore) × ((M.disk machine.new).said ≡ (M.disk machine.old).said ++ not_a_store) }
    ensures damaged { (M.disk machine.old).tells_files → result ≡ Status.Damaged → (file : File) × (place : ℕ) × (stop ≡ Stop.Damaged file place)
        × ((M.disk machine.new).said ≡ (M.disk machine.old).said ++ damaged file place) }
    ensures front { (M.disk machine.old).tells_files → SaysFront (stop_line stop) (M.disk machine.old).said (M.disk machine.new).said }
    ensures undone { result ≢ Status.Done }
    ensures faults { HandsOn (M.disk machine.old) (M.disk machine.new) stop result }
{
    match stop {
        Stop::NotAStore => end_with(machine, b"not a store\n", Status::NotAStore),
        Stop::Damaged { file, place } => end_damaged(alloc, machine, file, place),
        Stop::DiskFault => Status::DiskFault,
        Stop::SayFault => Status::SayFault,
        Stop::Memory => Status::Memory,
    }
}
