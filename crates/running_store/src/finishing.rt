// A node leaves the graph of a store, once the one object that it has to flush, if it has one, is flushed.
ghost use Rattle.std.specs.Prelude.{◌≡◌, ◌<◌, ℕ, Bool, All, false, not, true, length, OnOk};
ghost use Rattle.std.specs.List.{filter};
ghost use Rattle.formats.specs.declared.params.Params.{Params as Numbers};
ghost use Rattle.dirty_cache.specs.Contents.{is_dirty};
ghost use Rattle.write_graph.specs.Graph.{IsNodeNamed, NamesMinimal};
ghost use Rattle.explain_core.specs.World.{World, run, AreAllowed};
ghost use Rattle.standing.specs.Moments.{TakesSome};
ghost use Rattle.running_store.specs.Calls.Beside.{IsOnObjectsAlone};
ghost use Rattle.running_store.specs.Calls.{IsCall, Never, ending_of_force};
ghost use Rattle.running_store.specs.Courses.{flush_steps, removal_steps};
ghost use Rattle.running_store.specs.Laid.Flushed.{DirtiesNone};
ghost use Rattle.running_store.specs.Parts.{VolatileShows, meaning_in};

use crate::fault::note;
use crate::store::Store;
use disk_model::{Failed, Machine};
use oper_core::Oper;
use write_graph::NodeNo;

impl<O: Oper> Store<O> {
    /// Writes the first of these objects, which are dirty, to its slot, and makes it clean; where there is none, nothing is done.
    fn flush<M: Machine>(&mut self, machine: &mut M, work: &[u32]) -> Result<(), Failed>
        requires unbroken { self.old.broken ≡ false }
        requires dirty { All (λ x. is_dirty self.old.parts.volatile.objects.cache x ≡ true) work.now }
        ensures call { IsCall O.meaning (M.disk machine.old) (M.disk machine.new) self.old self.new 0 Never (ending_of_force result) }
        ensures beside { IsOnObjectsAlone (M.disk machine.old) (M.disk machine.new) self.old self.new }
        ensures entries { self.new.parts.volatile.entries ≡ self.old.parts.volatile.entries }
        ensures dirty { OnOk result (DirtiesNone self.old.parts.volatile.objects self.new.parts.volatile.objects) }
        ensures shows { (p : Numbers) (w : World O) (node : ℕ → Bool) → let m = meaning_in O.meaning p in
            VolatileShows m p (M.disk machine.old) self.old.parts.volatile w → AreAllowed m w (flush_steps m node work.now) →
            OnOk result (VolatileShows m p (M.disk machine.new) self.new.parts.volatile (run m w (flush_steps m node work.now))) }
        ensures steps { (M.disk machine.old).tells_moments → (p : Numbers) (w : World O) (node : ℕ → Bool) → let m = meaning_in O.meaning p in
            VolatileShows m p (M.disk machine.old) self.old.parts.volatile w → TakesSome m p (M.disk machine.old) (M.disk machine.new) w (flush_steps m node work.now) }
    {
        explain_core::slot_gate_keeps::<O>();
        let Some(x) = work.first() else {
            return Ok(());
        };
        let Some(entry) = self.objects.cache.entry(*x) else {
            return Ok(());
        };
        let answer = self
            .objects
            .slots
            .replace(machine, *x, entry.lsn, entry.bytes.as_slice());
        note(&mut self.broken, &answer);
        answer?;
        self.objects.cache.mark_clean(*x);
        Ok(())
    }

    /// Flushes the one object that a minimal node has to flush, the first of these, if it has one, and takes the node out of
    /// the graph. Of these no other is looked at. The store may be one that a redo fills, with members of its world left to
    /// replay: so `shows` and `steps` speak of its objects and its graph alone, and it isn't said to take a course.
    pub fn finish<M: Machine>(
        &mut self,
        machine: &mut M,
        n: NodeNo,
        work: &[u32],
    ) -> Result<(), Failed>
        requires unbroken { self.old.broken ≡ false }
        requires named { NamesMinimal self.old.parts.volatile.entries n }
        requires dirty { All (λ x. is_dirty self.old.parts.volatile.objects.cache x ≡ true) work.now }
        ensures call { IsCall O.meaning (M.disk machine.old) (M.disk machine.new) self.old self.new 0 Never (ending_of_force result) }
        ensures beside { IsOnObjectsAlone (M.disk machine.old) (M.disk machine.new) self.old self.new }
        ensures shows { (p : Numbers) (w : World O) (node : ℕ → Bool) → let m = meaning_in O.meaning p in
            VolatileShows m p (M.disk machine.old) self.old.parts.volatile w → IsNodeNamed self.old.parts.volatile.entries n node → AreAllowed m w (removal_steps m node work.now) →
            OnOk result (VolatileShows m p (M.disk machine.new) self.new.parts.volatile (run m w (removal_steps m node work.now))) }
        ensures steps { (M.disk machine.old).tells_moments → (p : Numbers) (w : World O) (node : ℕ → Bool) → let m = meaning_in O.meaning p in
            VolatileShows m p (M.disk machine.old) self.old.parts.volatile w → TakesSome m p (M.disk machine.old) (M.disk machine.new) w (removal_steps m node work.now) }
        ensures entries { (node : ℕ → Bool) → IsNodeNamed self.old.parts.volatile.entries n node → OnOk result
            ((self.new.parts.volatile.entries ≡ filter (λ e. not (node e.lsn)) self.old.parts.volatile.entries)
            × (length self.new.parts.volatile.entries < length self.old.parts.volatile.entries)) }
        ensures dirty { OnOk result (DirtiesNone self.old.parts.volatile.objects self.new.parts.volatile.objects) }
    {
        explain_core::removal_keeps::<O>();
        self.flush(machine, work)?;
        self.graph.remove_minimal(n);
        Ok(())
    }
}
