// How many bytes a file has behind a place.
ghost use Rattle.std.specs.Prelude.{◌≡◌, ◌+◌, ◌-◌, ◌^◌, IfErr, IfOk, drop, if◌then◌else◌, min, nat_eq};
ghost use Rattle.disk_model.specs.Disk.{Files, Rises, Stays};
ghost use Rattle.disk_model.specs.Padded.{padded};
ghost use Rattle.formats.specs.Reading.{FailsBy};
ghost use Rattle.redo_log.specs.Lines.{used};

use disk_model::{FileNo, Machine, read_padded};
use formats::ReadErr;
use std::alloc::Global;

/// How many bytes are read at a time.
const PIECE: usize = 1 << 16;

/// How many bytes there are up to the last one that is not 0, where this many were found of those before a byte.
fn used_after(byte: u8, seen: usize, before: usize) -> usize
    ensures { result ≡ if nat_eq byte 0 then before else seen }
{
    if byte == 0 { before } else { seen }
}

/// How many bytes there are up to the last one that is not 0.
fn used_of(bytes: &[u8]) -> usize
    ensures { result ≡ used bytes.now }
{
    let mut seen = 0;
    let mut count = 0;
    for byte in bytes {
        seen += 1;
        count = used_after(*byte, seen, count);
    }
    count
}

/// The same of a file, where so many bytes are passed, this many were found of them, and of the piece behind them this many.
fn left_after(gone: u64, count: u64, before: u64) -> u64
    ensures { result ≡ if nat_eq count 0 then before else min (gone + count) (2 ^ 64 - 1) }
{
    if count == 0 {
        before
    } else {
        gone.saturating_add(count)
    }
}

/// The same of a piece of a file, of so many bytes.
fn used_in<M: Machine>(
    alloc: Global,
    machine: &mut M,
    file: FileNo,
    place: u64,
    count: usize,
) -> Result<u64, ReadErr>
    ensures kept { Stays (M.disk machine.old) (M.disk machine.new) }
    ensures used { (files : Files) → (M.disk machine.new).agrees files → IfOk result (λ n. n ≡ used (padded (files file) place count)) }
    ensures cause { IfErr result (FailsBy (Rises (M.disk machine.old).disk_faults (M.disk machine.new).disk_faults) (λ file place. ⊥)) }
{
    let mut piece = vec![in alloc; 0; count]?;
    read_padded(machine, file, place, &mut piece)?;
    Ok(used_of(&piece) as u64)
}

/// How many bytes a file has from a place on, up to the last one that is not 0.
pub fn left_behind<M: Machine>(
    alloc: Global,
    machine: &mut M,
    file: FileNo,
    from: u64,
) -> Result<u64, ReadErr>
    ensures kept { Stays (M.disk machine.old) (M.disk machine.new) }
    ensures left { (files : Files) → (M.disk machine.new).agrees files → IfOk result (λ n. n ≡ used (drop from (files file))) }
    ensures cause { IfErr result (FailsBy (Rises (M.disk machine.old).disk_faults (M.disk machine.new).disk_faults) (λ file place. ⊥)) }
{
    let size = machine.size(file)?;
    let all = size.saturating_sub(from);
    let mut gone = 0;
    let mut left = 0;
    while gone < all {
        let count = used_in(alloc, machine, file, from + gone, PIECE)?;
        left = left_after(gone, count, left);
        let step = (all - gone).min(PIECE as u64);
        gone += step;
    }
    Ok(left)
}
