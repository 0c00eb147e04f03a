// The slots that hold no object are closed and filled, and their gates stay closed. So several objects are made ready for
// their new values with two syncs, and no reader of them sees it.
ghost use Rattle.std.specs.Prelude.{◌≡◌, ◌<◌, ◌≤◌, length, false, IfOk, OnOk, IsErr};
ghost use Rattle.disk_model.specs.Disk.{Rises, Runs, In, Same};
ghost use Rattle.disk_model.specs.declared.machine.FileNo.TheVariants.{Objects};
ghost use Rattle.stable_objects.specs.Replacing.{IsFilled};
ghost use Rattle.stable_objects.specs.Spares.{IsClosing, KeepsButGates, KeepsButSpares, KeepsFilledBut, spare_lsn, spare_place};
ghost use Rattle.stable_objects.specs.SlotsView.{AreOf};

use crate::Slots;
use crate::comparing::is_filled;
use crate::layout::{CLOSED, gate_place};
use crate::replacing::write_slot;
use disk_model::{Failed, FileNo, Machine};

impl Slots {
    /// Closes the slot that doesn't hold an object, and says whether it was open. Nothing is synced. It fails where the
    /// device does.
    pub fn close_spare<M: Machine>(&mut self, machine: &mut M, object: u32) -> Result<bool, Failed>
        requires { object < self.old.params.objects }
        ensures runs { Runs (In Objects (KeepsButGates self.old)) Same (M.disk machine.old) (M.disk machine.new) }
        ensures slots { IsClosing self.old self.new }
        ensures closed { OnOk result (spare_lsn self.new object ≡ 0) }
        ensures are { (M.disk machine.old).tells_files → AreOf self.old ((M.disk machine.old).reads Objects) →
            OnOk result (AreOf self.new ((M.disk machine.new).reads Objects)) }
        ensures idle { IfOk result (λ was_open. was_open ≡ false → machine.new ≡ machine.old) }
        ensures cause { IsErr result → Rises (M.disk machine.old).disk_faults (M.disk machine.new).disk_faults }
    {
        let slot = self.spare(object);
        if self.heads[slot] == 0 {
            return Ok(false);
        }
        let place = gate_place(self.layout(), slot as u32);
        machine.write_at(FileNo::Objects, place, &[CLOSED])?;
        self.heads[slot] = 0;
        Ok(true)
    }

    /// Writes an LSN and a value into the slot that doesn't hold an object, if it is closed, and leaves its gate so.
    /// What stands there already is not written again. Nothing is synced. It fails where the device does, and takes no
    /// memory.
    pub fn fill_spare<M: Machine>(
        &self,
        machine: &mut M,
        object: u32,
        lsn: u64,
        bytes: &[u8],
    ) -> Result<(), Failed>
        requires object { object < self.now.params.objects }
        requires short { length bytes.now ≤ self.now.params.cap }
        ensures runs { Runs (In Objects (KeepsButSpares self.now)) Same (M.disk machine.old) (M.disk machine.new) }
        ensures filled { (M.disk machine.old).tells_files → spare_lsn self.now object ≡ 0 →
            OnOk result (IsFilled (spare_place self.now object) lsn bytes.now ((M.disk machine.new).reads Objects)) }
        ensures others { (M.disk machine.old).tells_files → KeepsFilledBut self.now object ((M.disk machine.old).reads Objects) ((M.disk machine.new).reads Objects) }
        ensures cause { IsErr result → Rises (M.disk machine.old).disk_faults (M.disk machine.new).disk_faults }
    {
        let slot = self.spare(object);
        if self.heads[slot] != 0 {
            return Ok(());
        }
        let place = gate_place(self.layout(), slot as u32);
        if is_filled(machine, place, lsn, bytes)? {
            return Ok(());
        }
        write_slot(machine, place, lsn, bytes)?;
        Ok(())
    }
}
