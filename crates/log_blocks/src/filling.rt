// A file that grows by small blocks is filled ahead by zeros. Where a sync finds the length of the file unchanged, the file
// system has nothing but the bytes to write.
ghost use Rattle.std.specs.Prelude.{◌<◌, IfSome, OnOk, IsErr};
ghost use Rattle.disk_model.specs.Disk.{Rises, Runs, In, Same, IsSettled};
ghost use Rattle.log_blocks.specs.Filling.{KeepsUpTo};

use disk_model::{Failed, FileNo, Machine};

// After so many forces that let a file grow it is filled ahead: the file of a short run is just as long as its log.
const GROWTHS: u32 = 16;

// How many zeros are written at a time.
const ZEROS: usize = 1 << 16;

// Blocks that are longer are not worth it: their own bytes cost more than what is saved.
const SMALL_BLOCK: u64 = 1 << 12;

// Where zeros are written before a block that stands from a gate to this end: nowhere while the file has bytes up to there.
pub(crate) fn zeros_before(filled: &mut u64, growths: &mut u32, gate: u64, end: u64) -> Option<u64>
    requires { gate < end }
    ensures { IfSome result (λ at. gate < at) }
{
    if end <= *filled {
        return None;
    }
    *growths = growths.saturating_add(1);
    if *growths <= GROWTHS || end - gate > SMALL_BLOCK {
        *filled = end;
        return None;
    }
    let from = (*filled).max(gate + 1);
    *filled = from.saturating_add(ZEROS as u64);
    Some(from)
}

// Writes zeros after a closed gate, from this place on if there is one, and syncs them. A write that fails,
// as on a full disk, is passed over: there may still be room for a block.
pub(crate) fn write_zeros<M: Machine>(
    machine: &mut M,
    file: FileNo,
    gate: u64,
    from: Option<u64>,
) -> Result<(), Failed>
    requires { IfSome from (λ at. gate < at) }
    ensures runs { Runs (In file (KeepsUpTo gate)) Same (M.disk machine.old) (M.disk machine.new) }
    ensures settled { IsSettled (M.disk machine.old) → OnOk result (IsSettled (M.disk machine.new)) }
    ensures cause { IsErr result → Rises (M.disk machine.old).disk_faults (M.disk machine.new).disk_faults }
{
    let Some(at) = from else {
        return Ok(());
    };
    let _ = machine.write_at(file, at, &[0; ZEROS]);
    machine.sync(file)?;
    Ok(())
}
