// Files that are filled, and calls that are queued.
ghost use Rattle.std.specs.Prelude.{◌≡◌, ◌≤◌, ◌+◌, ◌-◌, ◌^◌, ◌++◌, [], ◌∷◌, min, IfOk, OnOk, OnErr};
ghost use Rattle.disk_model.specs.Call.{Write, Say};
ghost use Rattle.disk_model.specs.Disk.{In, HoldsAt};
ghost use Rattle.disk_model.specs.Growing.{files_of};
ghost use Rattle.disk_model.specs.declared.machine.FileNo.{FileNo as File};
ghost use Rattle.write_queue.specs.Waiting.{waiting};
ghost use Rattle.write_queue.specs.Handed.{handed};

use crate::Queued;
use crate::queue::Queue;
use disk_model::{Failed, FileNo, GrowMem, Machine};
use std::alloc::{AllocError, Global};

/// Files that hold these bytes.
pub fn filled(
    alloc: Global,
    objects: &[u8],
    log_a: &[u8],
    log_b: &[u8],
) -> Result<GrowMem, AllocError>
    ensures { IfOk result (λ files. (file : File) → files_of files file ≡ handed objects.now log_a.now log_b.now file) }
{
    let mut files = GrowMem::new(alloc)?;
    match fill(&mut files, objects, log_a, log_b) {
        Ok(()) => Ok(files),
        Err(Failed) => Err(AllocError),
    }
}

// Fills three files that are empty.
fn fill(files: &mut GrowMem, objects: &[u8], log_a: &[u8], log_b: &[u8]) -> Result<(), Failed>
    requires { (file : File) → files_of files.old file ≡ [] }
    ensures { OnOk result ((file : File) → files_of files.new file ≡ handed objects.now log_a.now log_b.now file) }
{
    files.write_at(FileNo::Objects, 0, objects)?;
    files.write_at(FileNo::LogA, 0, log_a)?;
    files.write_at(FileNo::LogB, 0, log_b)?;
    Ok(())
}

/// Writes, and queues the write. Out of memory, it changes nothing.
pub fn write(
    alloc: Global,
    files: &mut GrowMem,
    queue: &mut Queue,
    file: FileNo,
    at: u64,
    bytes: &[u8],
) -> Result<(), Failed>
    ensures written { OnOk result (In file (HoldsAt at bytes.now) (files_of files.old) (files_of files.new)) }
    ensures queued { OnOk result (waiting queue.new ≡ waiting queue.old ++ Write file at bytes.now ∷ []) }
    ensures files { OnErr result (files_of files.new ≡ files_of files.old) }
    ensures queue { OnErr result (waiting queue.new ≡ waiting queue.old) }
{
    let Ok(copy) = Vec::from_slice(alloc, bytes) else {
        return Err(Failed);
    };
    queue.reserve()?;
    files.write_at(file, at, bytes)?;
    queue.add(Queued::Write {
        file,
        at,
        bytes: copy,
    });
    Ok(())
}

/// Queues what is said. Out of memory, it changes nothing.
pub fn say(alloc: Global, queue: &mut Queue, bytes: &[u8]) -> Result<(), Failed>
    ensures queued { OnOk result (waiting queue.new ≡ waiting queue.old ++ Say bytes.now ∷ []) }
    ensures queue { OnErr result (waiting queue.new ≡ waiting queue.old) }
{
    let Ok(copy) = Vec::from_slice(alloc, bytes) else {
        return Err(Failed);
    };
    queue.reserve()?;
    queue.add(Queued::Say { bytes: copy });
    Ok(())
}

/// Counts one more. A count at its last value stays.
pub fn increment(count: &mut u64)
    ensures value { count.new ≡ min (count.old + 1) (2 ^ 64 - 1) }
    ensures no_lower { count.old ≤ count.new }
{
    *count = count.saturating_add(1);
}
