// Checks a store.
ghost use Rattle.std.specs.Prelude.{◌≡◌, ◌⊎◌, ◌-◌, ◌++◌, List, ℕ, IfOk};
ghost use Rattle.disk_model.specs.Disk.{SaysFront};
ghost use Rattle.redo_check.specs.Checking.{Checks, Ends, HasVerdict, IsLastLine, SaysNoMore, memory, restart_line};
ghost use Rattle.tool_output.specs.Faults.{CountsFaults, EndsBy};
ghost use Rattle.tool_output.specs.Saying.{OnlySays};

use crate::judging::judge;
use crate::restart::Restart;
use crate::saying::say_files;
use disk_model::Machine;
use oper_core::Memory;
use std::alloc::Global;
use tool_output::{Status, Stop, end_stopped, end_with, push_spaced};

/// About how many bytes of memory the restart of a record takes.
const RECORD_MEMORY: u64 = 160;

/// So many bytes of values are reckoned at the most. A restart installs what it can where it has more to write, but values that wait
/// in nodes of several objects stay in memory whatever they take.
const VALUES_MEMORY: u64 = 1 << 26;

/// How many records a restart does again.
fn redone(it: Restart) -> u64
    ensures { result ≡ it.records.next - it.records.start }
{
    it.records.next.saturating_sub(it.records.start)
}

/// The memory of a restart as counts tell it, without a look at the records and the values. It bounds nothing.
fn memory_of(it: Restart) -> u64
    ensures { result ≡ memory it }
{
    let values = u64::from(it.bounds.objects) * u64::from(it.bounds.cap);
    redone(it)
        .saturating_mul(RECORD_MEMORY)
        .saturating_add(values.min(VALUES_MEMORY))
}

/// The line of what a restart does.
fn restart_text(alloc: Global, it: Restart) -> Result<Vec<u8>, Memory>
    ensures { IfOk result (λ made. made.items ≡ restart_line it) }
{
    let mut text = Vec::new(alloc);
    text.extend_from_slice(b"restart from")?;
    push_spaced(alloc, &mut text, it.records.start)?;
    text.extend_from_slice(b" records")?;
    push_spaced(alloc, &mut text, redone(it))?;
    text.extend_from_slice(b" bytes")?;
    push_spaced(alloc, &mut text, it.records.end)?;
    text.extend_from_slice(b" memory")?;
    push_spaced(alloc, &mut text, memory_of(it))?;
    text.push(b'\n')?;
    Ok(text)
}

/// Says what a restart does, and ends with the status of a store without a fault.
fn end_whole<M: Machine>(alloc: Global, machine: &mut M, it: Restart) -> Status
    ensures runs { OnlySays (M.disk machine.old) (M.disk machine.new) }
    ensures all { (M.disk machine.old).tells_files → result ≡ Status.Done → (M.disk machine.new).said ≡ (M.disk machine.old).said ++ restart_line it }
    ensures front { (M.disk machine.old).tells_files → SaysFront (restart_line it) (M.disk machine.old).said (M.disk machine.new).said }
    ensures status { (result ≡ Status.Done) ⊎ ((result ≡ Status.Memory) ⊎ (result ≡ Status.SayFault)) }
    ensures faults { EndsBy (M.disk machine.old) (M.disk machine.new) result }
{
    match restart_text(alloc, it) {
        Ok(line) => end_with(machine, line.as_slice(), Status::Done),
        Err(Memory) => Status::Memory,
    }
}

/// Judges the files, and says it.
fn end_checked<M: Machine>(alloc: Global, machine: &mut M) -> Status
    ensures runs { OnlySays (M.disk machine.old) (M.disk machine.new) }
    ensures ends { (M.disk machine.old).tells_files → Ends (M.disk machine.old).reads (M.disk machine.old).said (M.disk machine.new).said result }
    ensures front { (M.disk machine.old).tells_files → (last : List ℕ) × IsLastLine (M.disk machine.old).reads last × SaysFront last (M.disk machine.old).said (M.disk machine.new).said }
    ensures faults { CountsFaults (M.disk machine.old) (M.disk machine.new) result }
{
    match judge(alloc, machine) {
        Ok(restart) => end_whole(alloc, machine, restart),
        Err(stop) => end_stopped(alloc, machine, stop),
    }
}

/// Says each check of the store's files with what it found, and then what a restart does, or the first fault of the files, in the
/// order of their checks, or that there is no store. It writes no file.
pub fn check_store<M: Machine>(alloc: Global, machine: &mut M) -> Status
    // No file changes, at no moment.
    ensures keeps { OnlySays (M.disk machine.old) (M.disk machine.new) }
    // The lines of the three files are said whatever these hold, and after them what a restart makes of them.
    ensures checks { (M.disk machine.old).tells_files → HasVerdict result → Checks (M.disk machine.old).reads (M.disk machine.old).said (M.disk machine.new).said result }
    // With any status no more is said than a front of these lines and of the last one.
    ensures front { (M.disk machine.old).tells_files → SaysNoMore (M.disk machine.old).reads (M.disk machine.old).said (M.disk machine.new).said }
    // A fault is reported only where the machine counted it: where none was, and memory is not refused, there is a verdict.
    ensures faults { CountsFaults (M.disk machine.old) (M.disk machine.new) result }
{
    match say_files(alloc, machine) {
        Ok(()) => end_checked(alloc, machine),
        Err(Stop::NotAStore) => Status::NotAStore,
        Err(Stop::Damaged { .. }) => Status::Damaged,
        Err(Stop::DiskFault) => Status::DiskFault,
        Err(Stop::SayFault) => Status::SayFault,
        Err(Stop::Memory) => Status::Memory,
    }
}
