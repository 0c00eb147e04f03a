// The objects of several nodes are flushed together.
ghost use Rattle.std.specs.Prelude.{◌≡◌, List, Some, All, false, true, length, OnOk, IsErr};
ghost use Rattle.disk_model.specs.Disk.{Any, In, IsSettled, LeavesOnly, Rises, Runs, Same};
ghost use Rattle.disk_model.specs.declared.machine.FileNo.TheVariants.{Objects as ObjectsFile};
ghost use Rattle.oper_core.specs.Meaning.{Meaning};
ghost use Rattle.formats.specs.declared.params.Params.{Params as Numbers};
ghost use Rattle.dirty_cache.specs.Contents.{held, is_dirty};
ghost use Rattle.dirty_cache.specs.declared.entry.Entry.{Entry as Pair};
ghost use Rattle.stable_objects.specs.Ready.{AreHeld, AreOldOrNewSince, AreReplaced, IsHeld};
ghost use Rattle.stable_objects.specs.SlotsView.{layout_of};
ghost use Rattle.explain_core.specs.RoundGates.{Gate, gates_of};
ghost use Rattle.explain_core.specs.World.{World, run, AreAllowed};
ghost use Rattle.standing.specs.Moments.{TakesSome};
ghost use Rattle.running_store.specs.Calls.Beside.{IsOnObjectsAlone};
ghost use Rattle.running_store.specs.Calls.{IsCall, Never, ending_of_force};
ghost use Rattle.running_store.specs.Laid.Flushed.{IsFlushed};
ghost use Rattle.running_store.specs.Laid.{IsLaidOn};
ghost use Rattle.running_store.specs.Parts.{VolatileShows, meaning_in};
ghost use Rattle.running_store.specs.Calls.RoundCalls.{AreFlushed, AreGatesFor, AreLater, cached_in, gates_course};
ghost use Rattle.running_store.specs.Steps.RoundImages.{objects_of};
ghost use Rattle.running_store.specs.StoreView.{next_of};
ghost use Rattle.running_store.specs.Taking.{Takes};

use crate::fault::note;
use crate::objects::Objects;
use crate::store::Store;
use disk_model::{Failed, Machine};
use oper_core::Oper;

impl Objects {
    // Makes an object clean whose gate was opened over what is cached of it. One that is clean already stays as it is.
    fn hold(&mut self, object: u32)
        requires { AreLater self.old }
        ensures idle { is_dirty self.old.cache object ≡ false → self.new ≡ self.old }
        ensures flushed { is_dirty self.old.cache object ≡ true → IsFlushed self.old self.new object }
        ensures held { (pair : Pair) → is_dirty self.old.cache object ≡ true → held self.old.cache object ≡ Some pair →
            IsHeld self.old.slots self.new.slots object pair.lsn (length pair.bytes) }
    {
        if !self.cache.is_dirty(object) {
            return;
        }
        if let Some(entry) = self.cache.entry(object) {
            let length = entry.bytes.as_slice().len() as u32;
            self.slots.hold(object, entry.lsn, length);
            self.cache.mark_clean(object);
        }
    }

    // The same of all these objects, which are dirty.
    fn hold_all(&mut self, objects: &[u32])
        requires later { AreLater self.old }
        requires dirty { All (λ x. is_dirty self.old.cache x ≡ true) objects.now }
        ensures flushed { AreFlushed self.old self.new objects.now }
        ensures held { AreHeld self.old.slots self.new.slots objects.now (cached_in self.old.cache) }
    {
        for object in objects {
            self.hold(*object);
        }
    }

    /// Writes these objects, which are dirty, to the slots that don't hold them, opens their gates with one sync behind them
    /// all, and makes them clean.
    fn flush_together<M: Machine>(&mut self, machine: &mut M, objects: &[u32]) -> Result<(), Failed>
        requires later { AreLater self.old }
        requires dirty { All (λ x. is_dirty self.old.cache x ≡ true) objects.now }
        ensures runs { Runs (In ObjectsFile Any) Same (M.disk machine.old) (M.disk machine.new) }
        ensures layout { layout_of self.new.slots ≡ layout_of self.old.slots }
        ensures flushed { OnOk result (AreFlushed self.old self.new objects.now) }
        ensures replaced { (M.disk machine.old).tells_files → IsLaidOn self.old ((M.disk machine.old).reads ObjectsFile) →
            OnOk result (IsLaidOn self.new ((M.disk machine.new).reads ObjectsFile)
            × AreReplaced self.old.slots.params objects.now (cached_in self.old.cache) ((M.disk machine.old).reads ObjectsFile) ((M.disk machine.new).reads ObjectsFile)) }
        ensures settled { IsSettled (M.disk machine.old) → OnOk result (IsSettled (M.disk machine.new)) }
        ensures any_moment { (M.disk machine.old).tells_moments → IsSettled (M.disk machine.old) → IsLaidOn self.old ((M.disk machine.old).reads ObjectsFile) →
            LeavesOnly (M.disk machine.old) (M.disk machine.new) (AreOldOrNewSince (M.disk machine.old) self.old.slots.params objects.now (cached_in self.old.cache)) }
        ensures cause { IsErr result → Rises (M.disk machine.old).disk_faults (M.disk machine.new).disk_faults }
    {
        stable_objects::ready_gates_open_alone();
        // Looked at for the invariant: what is cached is of objects that there are.
        let _ = &self.cache;
        self.prepare(machine, objects)?;
        self.slots.open_gates(machine, objects)?;
        self.hold_all(objects);
        Ok(())
    }
}

impl<O: Oper> Store<O> {
    /// Writes these objects, which are dirty, to their slots, and makes them clean. Their gates are opened with one sync behind
    /// them all, so a crash leaves any of them open. The store may be one that a redo fills, with members of its world left
    /// to replay: so `shows` and `steps` speak of its objects and its graph alone, and it isn't said to take a course.
    pub fn flush_together<M: Machine>(
        &mut self,
        machine: &mut M,
        objects: &[u32],
    ) -> Result<(), Failed>
        requires unbroken { self.old.broken ≡ false }
        requires dirty { All (λ x. is_dirty self.old.parts.volatile.objects.cache x ≡ true) objects.now }
        ensures call { IsCall O.meaning (M.disk machine.old) (M.disk machine.new) self.old self.new 0 Never (ending_of_force result) }
        ensures beside { IsOnObjectsAlone (M.disk machine.old) (M.disk machine.new) self.old self.new }
        ensures entries { self.new.parts.volatile.entries ≡ self.old.parts.volatile.entries }
        ensures flushed { OnOk result (AreFlushed self.old.parts.volatile.objects self.new.parts.volatile.objects objects.now) }
        ensures shows { (p : Numbers) (w : World O) (gates : List Gate) → let m = meaning_in O.meaning p in
            VolatileShows m p (M.disk machine.old) self.old.parts.volatile w → objects_of gates ≡ objects.now → AreAllowed m w (gates_of gates) →
            OnOk result (VolatileShows m p (M.disk machine.new) self.new.parts.volatile (run m w (gates_of gates))) }
        ensures steps { (M.disk machine.old).tells_moments → (p : Numbers) (w : World O) (gates : List Gate) → let m = meaning_in O.meaning p in
            VolatileShows m p (M.disk machine.old) self.old.parts.volatile w → objects_of gates ≡ objects.now →
            TakesSome m p (M.disk machine.old) (M.disk machine.new) w (gates_of gates) }
    {
        explain_core::slot_gate_keeps::<O>();
        crate::any_gates_are_shown::<O>();
        let answer = self.objects.flush_together(machine, objects);
        note(&mut self.broken, &answer);
        answer
    }

    /// Forces all that waits, and then flushes these objects together: of each minimal node of a round its one object. At most
    /// four syncs serve the whole round: that of the log, where something waits, the two of [`Store::prepare`], and that of the
    /// gates.
    pub fn flush_round<M: Machine>(
        &mut self,
        machine: &mut M,
        objects: &[u32],
    ) -> Result<(), Failed>
        requires unbroken { self.old.broken ≡ false }
        requires dirty { All (λ x. is_dirty self.old.parts.volatile.objects.cache x ≡ true) objects.now }
        ensures call { IsCall O.meaning (M.disk machine.old) (M.disk machine.new) self.old self.new 0 Never (ending_of_force result) }
        ensures takes { (gates : Meaning O → World O → List Gate) → AreGatesFor O.meaning (M.disk machine.old) self.old.parts objects.now gates →
            Takes O.meaning (M.disk machine.old) (M.disk machine.new) self.old.parts self.new.parts (λ m w used. gates_course m (gates m) w used) (ending_of_force result) }
        ensures next { next_of self.new ≡ next_of self.old }
        ensures entries { self.new.parts.volatile.entries ≡ self.old.parts.volatile.entries }
        ensures flushed { OnOk result (AreFlushed self.old.parts.volatile.objects self.new.parts.volatile.objects objects.now) }
    {
        self.force(machine)?;
        self.flush_together(machine, objects)?;
        Ok(())
    }
}
