// Reads the blocks of a log file.
ghost use Rattle.std.specs.Prelude.{◌≤◌, ◌≡◌, ◌<◌, ◌+◌, ◌-◌, ◌^◌, length, IfErr, IfOk, IfSome};
ghost use Rattle.disk_model.specs.Disk.{Files, Rises, Stays};
ghost use Rattle.formats.specs.Image.{IsBlockFault};
ghost use Rattle.formats.specs.Reading.{FailsBy};
ghost use Rattle.log_blocks.specs.Reading.{FoundAt, IsBroken, EndsBlocks};

use crate::layout::{FIRST_BLOCK, OPEN};
use byteorder::{ByteOrder, LittleEndian};
use disk_model::{FileNo, Machine, read_padded};
use formats::{BLOCK_HEAD, MAX_PAYLOAD, ReadErr};

/// How many bytes the payload of the block at a gate has, or none where the gate is closed.
pub fn open_block<M: Machine>(
    machine: &mut M,
    file: FileNo,
    size: u64,
    gate: u64,
) -> Result<Option<u32>, ReadErr>
    requires { gate < 2 ^ 64 - 1 }
    ensures kept { Stays (M.disk machine.old) (M.disk machine.new) }
    ensures within { IfOk result (λ found. IfSome found (λ len. gate + 5 + len < size)) }
    ensures whole { IfOk result (λ found. IfSome found (λ len. (0 < len) × (len ≤ 2 ^ 30))) }
    ensures found { (files : Files) → (M.disk machine.new).agrees files → size ≡ length (files file) → IfOk result (FoundAt gate (files file)) }
    ensures cause { IfErr result (FailsBy (Rises (M.disk machine.old).disk_faults (M.disk machine.new).disk_faults)
        (λ f place. (f ≡ file) × (place ≡ gate + 1) × ((files : Files) → (M.disk machine.new).agrees files → size ≡ length (files file) → IsBroken gate (files file)))) }
{
    let mut head = [0; BLOCK_HEAD];
    read_padded(machine, file, gate, &mut head)?;
    if head[0] != OPEN {
        return Ok(None);
    }
    let len = LittleEndian::read_u32(&head[1..]);
    let room = size.saturating_sub(gate);
    if len == 0 || len > MAX_PAYLOAD || room <= BLOCK_HEAD as u64 + len as u64 {
        return Err(ReadErr::Damaged {
            file,
            place: gate + 1,
        });
    }
    Ok(Some(len))
}

/// The place of the first closed gate after the header.
pub fn first_closed<M: Machine>(machine: &mut M, file: FileNo, size: u64) -> Result<u64, ReadErr>
    requires { 33 < size }
    ensures kept { Stays (M.disk machine.old) (M.disk machine.new) }
    ensures end { (files : Files) → (M.disk machine.new).agrees files → size ≡ length (files file) → IfOk result (EndsBlocks (files file)) }
    ensures cause { IfErr result (FailsBy (Rises (M.disk machine.old).disk_faults (M.disk machine.new).disk_faults)
        (λ f place. (f ≡ file) × ((files : Files) → (M.disk machine.new).agrees files → size ≡ length (files file) → IsBlockFault (files file) place))) }
{
    let mut gate = FIRST_BLOCK;
    while let Some(len) = open_block(machine, file, size, gate)? {
        gate += BLOCK_HEAD as u64 + len as u64;
    }
    Ok(gate)
}
