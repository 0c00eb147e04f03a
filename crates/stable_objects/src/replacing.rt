// An object gets a new value: its other slot is closed, filled, and opened last.
ghost use Rattle.std.specs.Prelude.{◌≡◌, ◌<◌, ◌≤◌, ◌+◌, ◌*◌, ◌^◌, ◌++◌, length, OnOk, OnErr, IsErr};
ghost use Rattle.byteorder.specs.Endian.{little_bytes};
ghost use Rattle.disk_model.specs.Disk.{Rises, Runs, Stays, In, Torn, Any, Same, IsSettled, LeavesOnly};
ghost use Rattle.disk_model.specs.declared.machine.FileNo.TheVariants.{Objects};
ghost use Rattle.formats.specs.Bytes.{IsClosedAt};
ghost use Rattle.stable_objects.specs.SlotsView.{lsn_in, layout_of, AreOf};
ghost use Rattle.stable_objects.specs.Replacing.{IsReplaced, IsRenewed, IsOldOrNew, IsFilled, IsPut, IsHalfPut, spare_in};

use crate::Slots;
use crate::comparing::is_filled;
use crate::layout::{CLOSED, OPEN, gate_place};
use byteorder::{ByteOrder, LittleEndian};
use disk_model::{Failed, FileNo, Machine, write_through};

/// The LSN and the length.
pub fn head_of(lsn: u64, length: u32) -> [u8; 12]
    ensures { result ≡ little_bytes 8 lsn ++ little_bytes 4 length }
{
    let mut head = [0; 12];
    LittleEndian::write_u64(&mut head, lsn);
    LittleEndian::write_u32(&mut head[8..], length);
    head
}

// Closes the gate of a slot with this LSN, which is 0 where the gate is closed.
//
// A gate that is closed is never written closed again: the write could be torn, and open it over old contents.
fn close_slot<M: Machine>(machine: &mut M, place: u64, lsn: u64) -> Result<(), Failed>
    ensures runs { Runs (In Objects (Torn place 1)) Same (M.disk machine.old) (M.disk machine.new) }
    ensures closed { (M.disk machine.old).tells_files → (lsn ≡ 0 → IsClosedAt place ((M.disk machine.old).reads Objects)) → OnOk result (IsClosedAt place ((M.disk machine.new).reads Objects)) }
    ensures idle { lsn ≡ 0 → Stays (M.disk machine.old) (M.disk machine.new) }
    ensures settled { IsSettled (M.disk machine.old) → OnOk result (IsSettled (M.disk machine.new)) }
    ensures cause { IsErr result → Rises (M.disk machine.old).disk_faults (M.disk machine.new).disk_faults }
{
    if lsn != 0 {
        write_through(machine, FileNo::Objects, place, &[CLOSED])?;
    }
    Ok(())
}

/// Writes all but the gate of a slot. Nothing is synced.
pub fn write_slot<M: Machine>(
    machine: &mut M,
    place: u64,
    lsn: u64,
    value: &[u8],
) -> Result<(), Failed>
    requires place { place < 2 ^ 62 }
    requires short { length value.now ≤ 1048576 }
    ensures runs { Runs (In Objects (Torn (place + 1) (12 + length value.now))) Same (M.disk machine.old) (M.disk machine.new) }
    ensures filled { (M.disk machine.old).tells_files → OnOk result (IsFilled place lsn value.now ((M.disk machine.new).reads Objects)) }
    ensures cause { IsErr result → Rises (M.disk machine.old).disk_faults (M.disk machine.new).disk_faults }
{
    machine.write_at(
        FileNo::Objects,
        place + 1,
        &head_of(lsn, value.len() as u32),
    )?;
    machine.write_at(FileNo::Objects, place + 13, value)?;
    Ok(())
}

// Writes all but the gate of a slot, and syncs it. Where it stands there already nothing is written: then it is on the disk,
// if the machine is settled.
fn fill<M: Machine>(machine: &mut M, place: u64, lsn: u64, value: &[u8]) -> Result<(), Failed>
    requires place { place < 2 ^ 62 }
    requires short { length value.now ≤ 1048576 }
    ensures runs { Runs (In Objects (Torn (place + 1) (12 + length value.now))) Same (M.disk machine.old) (M.disk machine.new) }
    ensures filled { (M.disk machine.old).tells_files → OnOk result (IsFilled place lsn value.now ((M.disk machine.new).reads Objects)) }
    ensures settled { IsSettled (M.disk machine.old) → OnOk result (IsSettled (M.disk machine.new)) }
    ensures cause { IsErr result → Rises (M.disk machine.old).disk_faults (M.disk machine.new).disk_faults }
{
    if is_filled(machine, place, lsn, value)? {
        return Ok(());
    }
    write_slot(machine, place, lsn, value)?;
    machine.sync(FileNo::Objects)?;
    Ok(())
}

// Fills a slot whose gate is closed, and opens the gate once all else is on the disk.
fn put<M: Machine>(machine: &mut M, place: u64, lsn: u64, value: &[u8]) -> Result<(), Failed>
    requires place { place < 2 ^ 62 }
    requires short { length value.now ≤ 1048576 }
    ensures runs { Runs (In Objects Any) Same (M.disk machine.old) (M.disk machine.new) }
    ensures put { (M.disk machine.old).tells_files → OnOk result (IsPut place lsn value.now ((M.disk machine.old).reads Objects) ((M.disk machine.new).reads Objects)) }
    ensures settled { IsSettled (M.disk machine.old) → OnOk result (IsSettled (M.disk machine.new)) }
    ensures any_moment { (M.disk machine.old).tells_moments → IsSettled (M.disk machine.old) → place < length ((M.disk machine.old).reads Objects) →
        IsClosedAt place ((M.disk machine.old).reads Objects) → LeavesOnly (M.disk machine.old) (M.disk machine.new) (IsHalfPut (M.disk machine.old) place lsn value.now) }
    ensures cause { IsErr result → Rises (M.disk machine.old).disk_faults (M.disk machine.new).disk_faults }
{
    fill(machine, place, lsn, value)?;
    write_through(machine, FileNo::Objects, place, &[OPEN])?;
    Ok(())
}

impl Slots {
    // The slot that doesn't hold an object, counted through the file.
    pub(crate) fn spare(&self, object: u32) -> usize
        requires { object < self.now.params.objects }
        ensures { result ≡ 2 * object + spare_in self.now object }
    {
        let first = 2 * object as usize;
        if self.heads[first] <= self.heads[first + 1] {
            first
        } else {
            first + 1
        }
    }

    /// Gives an object a new LSN and value, in the slot that does not hold it. A crash at any moment leaves the
    /// old pair or the new one. It fails where the device does, and takes no memory. At `Err`, load the slots again.
    pub fn replace<M: Machine>(
        &mut self,
        machine: &mut M,
        object: u32,
        lsn: u64,
        bytes: &[u8],
    ) -> Result<(), Failed>
        requires object { object < self.old.params.objects }
        requires later { lsn_in self.old object < lsn }
        requires is_lsn { lsn < 2 ^ 62 }
        requires short { length bytes.now ≤ self.old.params.cap }
        ensures runs { Runs (In Objects Any) Same (M.disk machine.old) (M.disk machine.new) }
        ensures layout { layout_of self.new ≡ layout_of self.old }
        ensures renewed { OnOk result (IsRenewed self.old self.new object lsn (length bytes.now)) }
        ensures lengths { OnErr result (self.new.lengths ≡ self.old.lengths) }
        ensures replaced { (M.disk machine.old).tells_files → AreOf self.old ((M.disk machine.old).reads Objects) →
            OnOk result (AreOf self.new ((M.disk machine.new).reads Objects)
            × IsReplaced self.old.params object (record { lsn = lsn; value = bytes.now }) ((M.disk machine.old).reads Objects) ((M.disk machine.new).reads Objects)) }
        ensures settled { IsSettled (M.disk machine.old) → OnOk result (IsSettled (M.disk machine.new)) }

        // One slot: a crash at any moment leaves the old pair or the new one, and every other object as it was.
        ensures any_moment { (M.disk machine.old).tells_moments → IsSettled (M.disk machine.old) → AreOf self.old ((M.disk machine.old).reads Objects) →
            LeavesOnly (M.disk machine.old) (M.disk machine.new) (IsOldOrNew (M.disk machine.old) self.old.params object (record { lsn = lsn; value = bytes.now })) }

        ensures cause { IsErr result → Rises (M.disk machine.old).disk_faults (M.disk machine.new).disk_faults }
    {
        let slot = self.spare(object);
        let place = gate_place(self.layout(), slot as u32);
        close_slot(machine, place, self.heads[slot])?;
        self.heads[slot] = 0;
        put(machine, place, lsn, bytes)?;
        self.heads[slot] = lsn;
        self.lengths[object as usize] = bytes.len() as u32;
        Ok(())
    }
}
