// The gates of slots that are ready are opened together.
ghost use Rattle.std.specs.Prelude.{◌<◌, ◌≤◌, ◌^◌, ℕ, All, IfOk, IsTrue, OnOk, IsErr, length};
ghost use Rattle.disk_model.specs.Disk.{IsSettled, LeavesOnly, Rises, Runs, In, Same, Stays, Torn};
ghost use Rattle.disk_model.specs.declared.machine.FileNo.TheVariants.{Objects};
ghost use Rattle.oper_core.specs.Cell.{Cell};
ghost use Rattle.formats.specs.Bytes.{IsOpenAt};
ghost use Rattle.stable_objects.specs.Ready.{IsHeld, IsReady, AreOldOrNew, AreOldOrNewSince, AreOpened, AreReady, KeepsButGatesOf};
ghost use Rattle.stable_objects.specs.Replacing.{IsRenewed};
ghost use Rattle.stable_objects.specs.Spares.{spare_place};
ghost use Rattle.stable_objects.specs.SlotsView.{AreOf, lsn_in};

use crate::Slots;
use crate::comparing::is_filled;
use crate::layout::{OPEN, gate_place};
use disk_model::{Failed, FileNo, Machine};

impl Slots {
    /// Whether the slot that doesn't hold an object is closed, and this pair stands behind its gate.
    pub fn is_ready<M: Machine>(
        &self,
        machine: &mut M,
        object: u32,
        lsn: u64,
        bytes: &[u8],
    ) -> Result<bool, Failed>
        requires object { object < self.now.params.objects }
        requires later { lsn_in self.now object < lsn }
        requires is_lsn { lsn < 2 ^ 62 }
        requires short { length bytes.now ≤ self.now.params.cap }
        ensures kept { Stays (M.disk machine.old) (M.disk machine.new) }
        ensures ready { (M.disk machine.old).tells_files → IfOk result (λ yes. IsTrue yes → IsReady self.now ((M.disk machine.old).reads Objects) object (record { lsn = lsn; value = bytes.now })) }
        ensures cause { IsErr result → Rises (M.disk machine.old).disk_faults (M.disk machine.new).disk_faults }
    {
        let slot = self.spare(object);
        if self.heads[slot] != 0 {
            return Ok(false);
        }
        let place = gate_place(self.layout(), slot as u32);
        let filled = is_filled(machine, place, lsn, bytes)?;
        Ok(filled)
    }

    // Opens the gate of the slot that doesn't hold an object. Nothing is synced.
    fn open_spare<M: Machine>(&self, machine: &mut M, object: u32) -> Result<(), Failed>
        requires { object < self.now.params.objects }
        ensures runs { Runs (In Objects (Torn (spare_place self.now object) 1)) Same (M.disk machine.old) (M.disk machine.new) }
        ensures opened { (M.disk machine.old).tells_files → OnOk result (IsOpenAt (spare_place self.now object) ((M.disk machine.new).reads Objects)) }
        ensures cause { IsErr result → Rises (M.disk machine.old).disk_faults (M.disk machine.new).disk_faults }
    {
        let slot = self.spare(object);
        let place = gate_place(self.layout(), slot as u32);
        machine.write_at(FileNo::Objects, place, &[OPEN])?;
        Ok(())
    }

    /// Opens the gates of the slots that don't hold these objects, with one sync behind them all. They have to be closed, and
    /// filled with the pairs that the objects are to have: then a crash at any moment leaves each object with the pair that
    /// it had or the new one, and which of them have the new one is not said. It fails where the device does, and takes no
    /// memory.
    pub fn open_gates<M: Machine>(&self, machine: &mut M, objects: &[u32]) -> Result<(), Failed>
        requires below { All (λ x. x < self.now.params.objects) objects.now }
        ensures runs { Runs (In Objects (KeepsButGatesOf self.now objects.now)) Same (M.disk machine.old) (M.disk machine.new) }
        ensures opened { (M.disk machine.old).tells_files → AreOf self.now ((M.disk machine.old).reads Objects) →
            OnOk result (AreOpened self.now objects.now ((M.disk machine.new).reads Objects)) }
        ensures settled { IsSettled (M.disk machine.old) → OnOk result (IsSettled (M.disk machine.new)) }
        ensures cells { (pairs : ℕ → Cell) → (M.disk machine.old).tells_files → AreOf self.now ((M.disk machine.old).reads Objects) →
            AreReady self.now ((M.disk machine.old).reads Objects) objects.now pairs →
            AreOldOrNew self.now.params objects.now pairs ((M.disk machine.old).reads Objects) ((M.disk machine.new).reads Objects) }
        ensures any_moment { (pairs : ℕ → Cell) → (M.disk machine.old).tells_moments → IsSettled (M.disk machine.old) →
            AreOf self.now ((M.disk machine.old).reads Objects) → AreReady self.now ((M.disk machine.old).reads Objects) objects.now pairs →
            LeavesOnly (M.disk machine.old) (M.disk machine.new) (AreOldOrNewSince (M.disk machine.old) self.now.params objects.now pairs) }
        ensures cause { IsErr result → Rises (M.disk machine.old).disk_faults (M.disk machine.new).disk_faults }
    {
        for object in objects {
            self.open_spare(machine, *object)?;
        }
        machine.sync(FileNo::Objects)?;
        Ok(())
    }
    /// Holds an object in the slot that didn't hold it, whose gate was opened over this LSN and a value of this
    /// length: the numbers in memory are those after [`Slots::replace`]. No device call is made.
    pub fn hold(&mut self, object: u32, lsn: u64, length: u32)
        requires object { object < self.old.params.objects }
        requires later { lsn_in self.old object < lsn }
        ensures held { IsHeld self.old self.new object lsn length }
        ensures renewed { IsRenewed self.old self.new object lsn length }
    {
        let slot = self.spare(object);
        self.heads[slot] = lsn;
        self.lengths[object as usize] = length;
    }
}
