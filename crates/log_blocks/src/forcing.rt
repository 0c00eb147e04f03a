// A block is written after a closed gate, and counts once the gate is open.
ghost use Rattle.std.specs.Prelude.{◌≡◌, ◌<◌, ◌≤◌, ◌+◌, ◌^◌, [], ◌∷◌, List, ℕ, length, drop, vec_capacity, OnOk, OnErr, IfSome, IsErr};
ghost use Rattle.disk_model.specs.Disk.{Rises, Runs, LeavesOnly, In, Any, Same, Torn, HoldsAt, IsSettled};
ghost use Rattle.formats.specs.Log.{Header};
ghost use Rattle.log_blocks.specs.LogView.{used_of};
ghost use Rattle.log_blocks.specs.Forcing.{IsAtRest, IsBeforeOrAfter, IsLogAt, IsOneOf, with_block, block_body};

use crate::LogFile;
use crate::filling::{write_zeros, zeros_before};
use crate::layout::{CLOSED, LENGTH_BYTES, OPEN};
use byteorder::{ByteOrder, LittleEndian};
use disk_model::{Failed, FileNo, Machine, write_through};

// Makes of the buffer what follows a gate: the length, the payload and a closed gate.
fn seal(buffer: &mut Vec<u8>)
    requires reserved { 4 ≤ length buffer.old.items }
    requires room { length buffer.old.items < vec_capacity buffer.old }
    requires short { length buffer.old.items ≤ 2 ^ 30 + 4 }
    ensures sealed { buffer.new.items ≡ block_body (drop 4 buffer.old.items) }
    ensures capacity { vec_capacity buffer.new ≡ vec_capacity buffer.old }
{
    let len = buffer.len() - LENGTH_BYTES;
    LittleEndian::write_u32(buffer, len as u32);
    buffer.push_reserved(CLOSED);
}

// Writes what follows a closed gate, and syncs it.
fn write_block_body<M: Machine>(
    machine: &mut M,
    file: FileNo,
    gate: u64,
    bytes: &[u8],
) -> Result<(), Failed>
    requires { gate < 2 ^ 62 }
    ensures runs { Runs (In file (Torn (gate + 1) (length bytes.now))) Same (M.disk machine.old) (M.disk machine.new) }
    ensures written { (M.disk machine.old).tells_files → OnOk result (In file (HoldsAt (gate + 1) bytes.now) (M.disk machine.old).reads (M.disk machine.new).reads) }
    ensures settled { IsSettled (M.disk machine.old) → OnOk result (IsSettled (M.disk machine.new)) }
    ensures cause { IsErr result → Rises (M.disk machine.old).disk_faults (M.disk machine.new).disk_faults }
{
    write_through(machine, file, gate + 1, bytes)?;
    Ok(())
}

// Opens a gate, and syncs it.
pub fn open_gate<M: Machine>(machine: &mut M, file: FileNo, gate: u64) -> Result<(), Failed>
    ensures runs { Runs (In file (Torn gate 1)) Same (M.disk machine.old) (M.disk machine.new) }
    ensures written { (M.disk machine.old).tells_files → OnOk result (In file (HoldsAt gate (1 ∷ [])) (M.disk machine.old).reads (M.disk machine.new).reads) }
    ensures settled { IsSettled (M.disk machine.old) → OnOk result (IsSettled (M.disk machine.new)) }
    ensures cause { IsErr result → Rises (M.disk machine.old).disk_faults (M.disk machine.new).disk_faults }
{
    write_through(machine, file, gate, &[OPEN])?;
    Ok(())
}

// Writes what follows a closed gate, and then opens the gate; before it zeros from a place on, if there is one.
fn write_block<M: Machine>(
    machine: &mut M,
    file: FileNo,
    gate: u64,
    bytes: &[u8],
    zeros: Option<u64>,
) -> Result<(), Failed>
    requires low { gate < 2 ^ 62 }
    requires behind { IfSome zeros (λ at. gate < at) }
    ensures runs { Runs (In file Any) Same (M.disk machine.old) (M.disk machine.new) }
    ensures any_moment { (M.disk machine.old).tells_moments → (header : Header) (payloads : List (List ℕ)) (payload : List ℕ)
        → 0 < length payload → length payload ≤ 2 ^ 30 → bytes.now ≡ block_body payload → IsLogAt (M.disk machine.old) file gate header payloads
        → LeavesOnly (M.disk machine.old) (M.disk machine.new) (IsOneOf (M.disk machine.old) file header payloads payload) }
    ensures acknowledged { (M.disk machine.old).tells_files → (header : Header) (payloads : List (List ℕ)) (payload : List ℕ)
        → 0 < length payload → length payload ≤ 2 ^ 30 → bytes.now ≡ block_body payload → IsLogAt (M.disk machine.old) file gate header payloads
        → OnOk result (IsLogAt (M.disk machine.new) file (gate + length bytes.now) header (with_block payloads payload)) }
    ensures settled { IsSettled (M.disk machine.old) → OnOk result (IsSettled (M.disk machine.new)) }
    ensures cause { IsErr result → Rises (M.disk machine.old).disk_faults (M.disk machine.new).disk_faults }
{
    write_zeros(machine, file, gate, zeros)?;
    write_block_body(machine, file, gate, bytes)?;
    open_gate(machine, file, gate)?;
    Ok(())
}

impl LogFile {
    /// Puts what waits on the disk as one block, perhaps after zeros behind it, for blocks to come. Where nothing waits, no
    /// call is made. At `Err`, load the log again.
    pub fn force<M: Machine>(&mut self, machine: &mut M) -> Result<(), Failed>
        ensures runs { Runs (In self.old.active Any) Same (M.disk machine.old) (M.disk machine.new) }

        // A crash at any moment of the call leaves the payloads from before it, with the new block or without.
        ensures any_moment { (M.disk machine.old).tells_moments → (payloads : List (List ℕ)) → IsAtRest (M.disk machine.old) self.old payloads
            → LeavesOnly (M.disk machine.old) (M.disk machine.new) (IsBeforeOrAfter (M.disk machine.old) self.old payloads) }

        ensures acknowledged { (M.disk machine.old).tells_files → (payloads : List (List ℕ)) → IsAtRest (M.disk machine.old) self.old payloads
            → OnOk result (IsAtRest (M.disk machine.new) self.new (with_block payloads self.old.pending)) }

        ensures settled { IsSettled (M.disk machine.old) → OnOk result (IsSettled (M.disk machine.new)) }
        ensures forced { OnOk result (self.new ≡ record self.old { end = used_of self.old; pending = []; room = self.new.room }) }
        ensures kept { OnErr result (self.new ≡ self.old) }
        ensures idle { self.old.pending ≡ [] → machine.new ≡ machine.old }
        ensures cause { IsErr result → Rises (M.disk machine.old).disk_faults (M.disk machine.new).disk_faults }
    {
        if self.buffer.len() == LENGTH_BYTES {
            return Ok(());
        }
        seal(&mut self.buffer);
        let sealed = self.buffer.len();
        let end = self.end + 1 + sealed as u64;
        let zeros = zeros_before(&mut self.filled, &mut self.growths, self.end, end);
        let written = write_block(machine, self.active, self.end, &self.buffer, zeros);
        self.buffer.truncate(sealed - 1);
        written?;
        self.end += sealed as u64;
        self.buffer.truncate(LENGTH_BYTES);
        Ok(())
    }
}
