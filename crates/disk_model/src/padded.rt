// Reads past a file's end.
ghost use Rattle.std.specs.Prelude.{◌≡◌, ◌<◌, ℕ, length, slice_index, OnOk, IsErr};
ghost use Rattle.disk_model.specs.Disk.{Files, Rises, Stays};
ghost use Rattle.disk_model.specs.Padded.{padded};

use crate::{Failed, FileNo, Machine};

/// Fills a buffer with the bytes at an offset. A byte past the file's end counts as 0.
/// It is one call: a read gives fewer bytes only at the file's end.
pub fn read_padded<M: Machine>(
    machine: &mut M,
    file: FileNo,
    at: u64,
    into: &mut [u8],
) -> Result<(), Failed>
    ensures kept { Stays (M.disk machine.old) (M.disk machine.new) }
    ensures bytes { (files : Files) → (M.disk machine.new).agrees files → OnOk result (into.new ≡ padded (files file) at (length into.old)) }
    ensures small { OnOk result ((i : ℕ) → slice_index into.new i < 256) }
    ensures cause { IsErr result → Rises (M.disk machine.old).disk_faults (M.disk machine.new).disk_faults }
{
    let count = machine.read(file, at, into)?;
    into[count..].fill(0);
    Ok(())
}
