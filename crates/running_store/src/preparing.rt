// Objects are made ready for their flush: what is cached of them is written to the slots that don't hold them, whose gates stay
// closed.
ghost use Rattle.std.specs.Prelude.{◌≡◌, ℕ, List, [], ◌∷◌, All, true, false, IfOk, OnOk, IsErr};
ghost use Rattle.disk_model.specs.Disk.{Any, In, IsSettled, IsSettledIn, LeavesOnly, Rises, Runs, Same, Stays};
ghost use Rattle.disk_model.specs.declared.machine.FileNo.TheVariants.{Objects as ObjectsFile};
ghost use Rattle.formats.specs.declared.params.Params.{Params as Numbers};
ghost use Rattle.stable_objects.specs.SlotsView.{AreOf};
ghost use Rattle.stable_objects.specs.Spares.{IsClosing, IsUnseen, IsUnseenSince, KeepsButGates, KeepsButSpares};
ghost use Rattle.explain_core.specs.World.{World};
ghost use Rattle.standing.specs.Moments.{TakesSome};
ghost use Rattle.running_store.specs.Calls.Beside.{IsOnObjectsAlone};
ghost use Rattle.running_store.specs.Calls.{IsCall, Never, ending_of_force};
ghost use Rattle.running_store.specs.Courses.{course};
ghost use Rattle.running_store.specs.Courses.Stop.{Through};
ghost use Rattle.running_store.specs.Laid.{HasClosedSpare, IsLaidOn};
ghost use Rattle.running_store.specs.Parts.{VolatileShows, meaning_in};
ghost use Rattle.running_store.specs.Calls.RoundCalls.{AreFilled};
ghost use Rattle.running_store.specs.Taking.{Takes};

use crate::fault::note;
use crate::objects::Objects;
use crate::store::Store;
use disk_model::{Failed, FileNo, Machine};
use oper_core::Oper;

// Syncs the objects file, if something was written to it.
fn sync_written<M: Machine>(machine: &mut M, written: bool) -> Result<(), Failed>
    ensures kept { Stays (M.disk machine.old) (M.disk machine.new) }
    ensures settled { written ≡ true → OnOk result (IsSettledIn ObjectsFile (M.disk machine.new)) }
    ensures idle { written ≡ false → machine.new ≡ machine.old }
    ensures cause { IsErr result → Rises (M.disk machine.old).disk_faults (M.disk machine.new).disk_faults }
{
    if written {
        machine.sync(FileNo::Objects)?;
    }
    Ok(())
}

impl Objects {
    /// Closes the slot that doesn't hold an object, if the object is cached, and says whether it was open. Nothing is synced.
    fn close_spare<M: Machine>(&mut self, machine: &mut M, object: u32) -> Result<bool, Failed>
        ensures runs { Runs (In ObjectsFile (KeepsButGates self.old.slots)) Same (M.disk machine.old) (M.disk machine.new) }
        ensures slots { IsClosing self.old.slots self.new.slots }
        ensures cache { self.new.cache ≡ self.old.cache }
        ensures closed { OnOk result (HasClosedSpare self.new object) }
        ensures are { (M.disk machine.old).tells_files → AreOf self.old.slots ((M.disk machine.old).reads ObjectsFile) →
            OnOk result (AreOf self.new.slots ((M.disk machine.new).reads ObjectsFile)) }
        ensures idle { IfOk result (λ was_open. was_open ≡ false → machine.new ≡ machine.old) }
        ensures cause { IsErr result → Rises (M.disk machine.old).disk_faults (M.disk machine.new).disk_faults }
    {
        let mut was_open = false;
        if self.holds(object) {
            was_open = self.slots.close_spare(machine, object)?;
        }
        Ok(was_open)
    }

    /// Closes the slots that don't hold these objects, of those that are cached, with one sync where one of them was open.
    fn close_spares<M: Machine>(&mut self, machine: &mut M, objects: &[u32]) -> Result<(), Failed>
        ensures runs { Runs (In ObjectsFile (KeepsButGates self.old.slots)) Same (M.disk machine.old) (M.disk machine.new) }
        ensures slots { IsClosing self.old.slots self.new.slots }
        ensures cache { self.new.cache ≡ self.old.cache }
        ensures closed { OnOk result (All (HasClosedSpare self.new) objects.now) }
        ensures are { (M.disk machine.old).tells_files → AreOf self.old.slots ((M.disk machine.old).reads ObjectsFile) →
            OnOk result (AreOf self.new.slots ((M.disk machine.new).reads ObjectsFile)) }
        ensures settled { IsSettled (M.disk machine.old) → OnOk result (IsSettled (M.disk machine.new)) }
        ensures cause { IsErr result → Rises (M.disk machine.old).disk_faults (M.disk machine.new).disk_faults }
    {
        let mut written = false;
        for object in objects {
            written |= self.close_spare(machine, *object)?;
        }
        sync_written(machine, written)?;
        Ok(())
    }

    /// Writes what is cached of an object to the slot that doesn't hold it, if that is closed. Nothing is synced.
    fn fill_spare<M: Machine>(&self, machine: &mut M, object: u32) -> Result<(), Failed>
        ensures runs { Runs (In ObjectsFile (KeepsButSpares self.now.slots)) Same (M.disk machine.old) (M.disk machine.new) }
        ensures filled { (M.disk machine.old).tells_files → (done : List ℕ) → AreFilled self.now done ((M.disk machine.old).reads ObjectsFile) →
            OnOk result (AreFilled self.now (object ∷ done) ((M.disk machine.new).reads ObjectsFile)) }
        ensures cause { IsErr result → Rises (M.disk machine.old).disk_faults (M.disk machine.new).disk_faults }
    {
        if let Some(entry) = self.cache.entry(object) {
            self.slots
                .fill_spare(machine, object, entry.lsn, entry.bytes.as_slice())?;
        }
        Ok(())
    }

    /// Writes what is cached of these objects to the slots that don't hold them, of those that are closed, and syncs them.
    fn fill_spares<M: Machine>(&self, machine: &mut M, objects: &[u32]) -> Result<(), Failed>
        ensures runs { Runs (In ObjectsFile (KeepsButSpares self.now.slots)) Same (M.disk machine.old) (M.disk machine.new) }
        ensures filled { (M.disk machine.old).tells_files → OnOk result (AreFilled self.now objects.now ((M.disk machine.new).reads ObjectsFile)) }
        ensures settled { IsSettled (M.disk machine.old) → OnOk result (IsSettled (M.disk machine.new)) }
        ensures cause { IsErr result → Rises (M.disk machine.old).disk_faults (M.disk machine.new).disk_faults }
    {
        for object in objects {
            self.fill_spare(machine, *object)?;
        }
        machine.sync(FileNo::Objects)?;
        Ok(())
    }

    /// Does both.
    pub(crate) fn prepare<M: Machine>(
        &mut self,
        machine: &mut M,
        objects: &[u32],
    ) -> Result<(), Failed>
        ensures runs { Runs (In ObjectsFile Any) Same (M.disk machine.old) (M.disk machine.new) }
        ensures slots { IsClosing self.old.slots self.new.slots }
        ensures cache { self.new.cache ≡ self.old.cache }
        ensures closed { OnOk result (All (HasClosedSpare self.new) objects.now) }
        ensures unseen { (M.disk machine.old).tells_files → AreOf self.old.slots ((M.disk machine.old).reads ObjectsFile) →
            OnOk result (IsUnseen self.old.slots.params ((M.disk machine.old).reads ObjectsFile) ((M.disk machine.new).reads ObjectsFile)) }
        ensures laid { (M.disk machine.old).tells_files → IsLaidOn self.old ((M.disk machine.old).reads ObjectsFile) →
            OnOk result (IsLaidOn self.new ((M.disk machine.new).reads ObjectsFile)) }
        ensures filled { (M.disk machine.old).tells_files → OnOk result (AreFilled self.new objects.now ((M.disk machine.new).reads ObjectsFile)) }
        ensures settled { IsSettled (M.disk machine.old) → OnOk result (IsSettled (M.disk machine.new)) }
        ensures any_moment { (M.disk machine.old).tells_moments → IsSettled (M.disk machine.old) → AreOf self.old.slots ((M.disk machine.old).reads ObjectsFile) →
            LeavesOnly (M.disk machine.old) (M.disk machine.new) (IsUnseenSince (M.disk machine.old) self.old.slots.params) }
        ensures cause { IsErr result → Rises (M.disk machine.old).disk_faults (M.disk machine.new).disk_faults }
    {
        stable_objects::spare_slots_are_not_seen();
        // Looked at for the invariant: what is cached is of objects that there are.
        let _ = &self.cache;
        self.close_spares(machine, objects)?;
        self.fill_spares(machine, objects)?;
        Ok(())
    }
}

impl<O: Oper> Store<O> {
    /// Makes these objects ready to be flushed, of those that are cached, with two syncs: the slots that don't hold them are
    /// closed (without a sync where all are) and then filled. The flush of one that did not change since then has only to open a gate. No gate is opened
    /// here, so the store shows the world that it showed.
    pub fn prepare<M: Machine>(&mut self, machine: &mut M, objects: &[u32]) -> Result<(), Failed>
        requires unbroken { self.old.broken ≡ false }
        ensures call { IsCall O.meaning (M.disk machine.old) (M.disk machine.new) self.old self.new 0 Never (ending_of_force result) }
        ensures beside { IsOnObjectsAlone (M.disk machine.old) (M.disk machine.new) self.old self.new }
        ensures entries { self.new.parts.volatile.entries ≡ self.old.parts.volatile.entries }
        ensures cache { self.new.parts.volatile.objects.cache ≡ self.old.parts.volatile.objects.cache }
        ensures closed { OnOk result (All (HasClosedSpare self.new.parts.volatile.objects) objects.now) }
        ensures shows { (p : Numbers) (w : World O) → let m = meaning_in O.meaning p in
            VolatileShows m p (M.disk machine.old) self.old.parts.volatile w → OnOk result (VolatileShows m p (M.disk machine.new) self.new.parts.volatile w) }
        ensures steps { (M.disk machine.old).tells_moments → (p : Numbers) (w : World O) → let m = meaning_in O.meaning p in
            VolatileShows m p (M.disk machine.old) self.old.parts.volatile w → TakesSome m p (M.disk machine.old) (M.disk machine.new) w [] }
        ensures takes { Takes O.meaning (M.disk machine.old) (M.disk machine.new) self.old.parts self.new.parts (λ m w used. course [] used Through) (ending_of_force result) }
    {
        let answer = self.objects.prepare(machine, objects);
        note(&mut self.broken, &answer);
        answer
    }
}
