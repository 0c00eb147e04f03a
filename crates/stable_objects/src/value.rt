// Reads the value of an object.
ghost use Rattle.std.specs.Prelude.{◌≡◌, ◌<◌, ◌≤◌, ◌^◌, [], length, OnOk, IfOk, IfErr, IsOk};
ghost use Rattle.disk_model.specs.Disk.{Files, Rises, Stays};
ghost use Rattle.disk_model.specs.declared.machine.FileNo.TheVariants.{Objects};
ghost use Rattle.formats.specs.Objects.{value_at, cell_of};
ghost use Rattle.formats.specs.Reading.{FailsBy, TellsDamage};
ghost use Rattle.stable_objects.specs.SlotsView.{AreOf, lsn_in, holder_in, place_of};
ghost use Rattle.stable_objects.specs.Reading.{FailsAt, IsLongValue};

use crate::Slots;
use crate::damage::damaged_at;
use crate::layout::{SLOT_HEAD_BYTES, gate_place};
use byteorder::{ByteOrder, LittleEndian};
use disk_model::{FileNo, Machine, read_padded};
use formats::ReadErr;

// Reads the value in the slot at a place.
fn read_value<M: Machine>(
    machine: &mut M,
    cap: u32,
    place: u64,
    into: &mut Vec<u8>,
) -> Result<(), ReadErr>
    requires { place < 2 ^ 40 }
    ensures kept { Stays (M.disk machine.old) (M.disk machine.new) }
    ensures short { OnOk result (length into.new.items ≤ cap) }
    ensures value { (files : Files) → (M.disk machine.new).agrees files → OnOk result (into.new.items ≡ value_at place (files Objects)) }
    ensures cause { IfErr result (FailsBy (Rises (M.disk machine.old).disk_faults (M.disk machine.new).disk_faults)
        (FailsAt (λ at. (files : Files) → (M.disk machine.new).agrees files → IsLongValue cap place (files Objects) at))) }
{
    let mut bytes = [0; 4];
    read_padded(machine, FileNo::Objects, place + 9, &mut bytes)?;
    let long = LittleEndian::read_u32(&bytes);
    if long > cap {
        return Err(damaged_at(place + 9));
    }
    into.resize(long as usize, 0)?;
    let read = machine.read(
        FileNo::Objects,
        place + SLOT_HEAD_BYTES,
        into.as_mut_slice(),
    )?;
    if read < long as usize {
        return Err(damaged_at(place + 9));
    }
    Ok(())
}

impl Slots {
    /// Reads the value of an object, in place of what was in the vector, and answers its LSN. Where no slot is
    /// open the device is not called.
    ///
    /// It answers `Damaged` where the value in the slot is longer than CAP or not within the file, `DiskFault` where the
    /// device fails, and `Memory`; then the vector may have lost what it had.
    pub fn read<M: Machine>(
        &self,
        machine: &mut M,
        object: u32,
        into: &mut Vec<u8>,
    ) -> Result<u64, ReadErr>
        requires { object < self.now.params.objects }
        ensures kept { Stays (M.disk machine.old) (M.disk machine.new) }
        ensures lsn { IfOk result (λ lsn. lsn ≡ lsn_in self.now object) }
        ensures short { OnOk result (length into.new.items ≤ self.now.params.cap) }
        ensures value { (files : Files) → (M.disk machine.new).agrees files → AreOf self.now (files Objects) →
            OnOk result (into.new.items ≡ (cell_of object (files Objects)).value) }

        // An object without an open slot costs no call.
        ensures none { lsn_in self.now object ≡ 0 → IsOk result × (into.new.items ≡ []) × (machine.new ≡ machine.old) }

        ensures cause { IfErr result (FailsBy (Rises (M.disk machine.old).disk_faults (M.disk machine.new).disk_faults)
            (FailsAt (λ place. (files : Files) → (M.disk machine.new).agrees files →
            IsLongValue self.now.params.cap (place_of self.now object (holder_in self.now object)) (files Objects) place))) }
        ensures whole { (files : Files) → (M.disk machine.new).agrees files → AreOf self.now (files Objects) → IfErr result (λ e. TellsDamage e → ⊥) }
    {
        into.clear();
        let lsn = self.lsn(object);
        if lsn == 0 {
            return Ok(0);
        }
        let place = gate_place(self.layout(), self.holder(object) as u32);
        read_value(machine, self.params.cap, place, into)?;
        Ok(lsn)
    }
}
