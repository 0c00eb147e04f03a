// Objects of a store are read.
ghost use Rattle.std.specs.Prelude.{◌≡◌, ◌<◌, ◌≤◌, All, false, length, map, true, IsSome, IsTrue, IfErr, IfOk, OnErr, OnOk};
ghost use Rattle.disk_model.specs.Disk.{Rises};
ghost use Rattle.disk_model.specs.declared.machine.FileNo.TheVariants.{Objects as ObjectsFile};
ghost use Rattle.formats.specs.Reading.{FailsBy};
ghost use Rattle.dirty_cache.specs.Contents.{held};
ghost use Rattle.stable_objects.specs.SlotsView.{lsn_in};
ghost use Rattle.running_store.specs.Calls.Faults.{has_failed, is_read_fault};
ghost use Rattle.running_store.specs.Calls.Fetches.{IsFetch};
ghost use Rattle.running_store.specs.Laid.{IsLaidOn, values_in};
ghost use Rattle.running_store.specs.Laid.Lent.{inputs_in};
ghost use Rattle.running_store.specs.Laid.LongSlot.{HasLongSlot, IsLongSlot};
ghost use Rattle.running_store.specs.StoreView.{store_params};

use crate::fault::note;
use crate::store::Store;
use disk_model::Machine;
use formats::ReadErr;
use oper_core::{Oper, Values};

impl<O: Oper> Store<O> {
    /// Sees that an object is cached: where it is not, its slot is read. It fails as that does, and where it is out of memory.
    pub fn fetch<M: Machine>(&mut self, machine: &mut M, object: u32) -> Result<(), ReadErr>
        requires unbroken { self.old.broken ≡ false }
        requires below { object < (store_params self.old).objects }
        ensures call { IsFetch (M.disk machine.old) (M.disk machine.new) self.old self.new (has_failed is_read_fault result ≡ true) }
        ensures cached { OnOk result (IsSome (held self.new.parts.volatile.objects.cache object)) }

        // What is cached, or has no open slot, costs no device call.
        ensures known { IsSome (held self.old.parts.volatile.objects.cache object) → machine.new ≡ machine.old }
        ensures none { lsn_in self.old.parts.volatile.objects.slots object ≡ 0 → (machine.new ≡ machine.old) × IfErr result (λ e. e ≡ ReadErr.Memory) }
        ensures cause { IfErr result (FailsBy (Rises (M.disk machine.old).disk_faults (M.disk machine.new).disk_faults)
            (IsLongSlot (M.disk machine.new) self.old.parts.volatile.objects.slots object)) }
    {
        if self.objects.is_cached(object) {
            return Ok(());
        }
        let mut bytes = Vec::new(self.alloc);
        let answer = self.objects.slots().read(machine, object, &mut bytes);
        note(&mut self.broken, &answer);
        let lsn = answer?;
        self.objects.keep(object, lsn, bytes);
        if self.objects.holds(object) {
            Ok(())
        } else {
            Err(ReadErr::Memory)
        }
    }

    /// The values of these objects, in their order. It fails as `fetch` does.
    pub fn values_of<M: Machine>(
        &mut self,
        machine: &mut M,
        objects: &[u32],
    ) -> Result<Values, ReadErr>
        requires unbroken { self.old.broken ≡ false }
        requires below { All (λ x. x < (store_params self.old).objects) objects.now }
        requires few { length objects.now ≤ 4 }
        ensures call { IsFetch (M.disk machine.old) (M.disk machine.new) self.old self.new (has_failed is_read_fault result ≡ true) }
        ensures values { (M.disk machine.old).tells_files → IsLaidOn self.old.parts.volatile.objects ((M.disk machine.old).reads ObjectsFile) →
            IfOk result (λ values. values ≡ map (values_in self.old.parts.volatile.objects ((M.disk machine.old).reads ObjectsFile)) objects.now) }
        ensures shape { IfOk result (λ values. (length values ≡ length objects.now) × All (λ v. length v ≤ (store_params self.old).cap) values) }
        ensures none { All (λ x. lsn_in self.old.parts.volatile.objects.slots x ≡ 0) objects.now → (machine.new ≡ machine.old) × IfErr result (λ e. e ≡ ReadErr.Memory) }
        ensures some { OnErr result (0 < length objects.now) }
        ensures cause { IfErr result (FailsBy (Rises (M.disk machine.old).disk_faults (M.disk machine.new).disk_faults)
            (HasLongSlot (M.disk machine.new) self.old.parts.volatile.objects.slots objects.now)) }
    {
        let mut values = Values::new(self.alloc());
        for object in objects {
            self.fetch(machine, *object)?;
            values.push(self.objects().value(*object))?;
        }
        Ok(values)
    }
    /// Fetches these objects. It answers whether all are cached then; a cache that is too small for them is not asked.
    fn fetch_all<M: Machine>(&mut self, machine: &mut M, objects: &[u32]) -> Result<bool, ReadErr>
        requires unbroken { self.old.broken ≡ false }
        requires below { All (λ x. x < (store_params self.old).objects) objects.now }
        ensures call { IsFetch (M.disk machine.old) (M.disk machine.new) self.old self.new (has_failed is_read_fault result ≡ true) }
        ensures held { IfOk result (λ all. IsTrue all → All (λ x. IsSome (held self.new.parts.volatile.objects.cache x)) objects.now) }
        ensures none { All (λ x. lsn_in self.old.parts.volatile.objects.slots x ≡ 0) objects.now → (machine.new ≡ machine.old) × IfErr result (λ e. e ≡ ReadErr.Memory) }
        ensures some { OnErr result (0 < length objects.now) }
        ensures cause { IfErr result (FailsBy (Rises (M.disk machine.old).disk_faults (M.disk machine.new).disk_faults)
            (HasLongSlot (M.disk machine.new) self.old.parts.volatile.objects.slots objects.now)) }
    {
        if !self.objects().may_hold(objects) {
            return Ok(false);
        }
        for object in objects {
            self.fetch(machine, *object)?;
        }
        Ok(self.objects().holds_all(objects))
    }

    /// The values of these objects, in their order: none where the cache has all at once, so that they need not be copied. It
    /// fails as `fetch` does.
    pub fn inputs_of<M: Machine>(
        &mut self,
        machine: &mut M,
        objects: &[u32],
    ) -> Result<Option<Values>, ReadErr>
        requires unbroken { self.old.broken ≡ false }
        requires below { All (λ x. x < (store_params self.old).objects) objects.now }
        requires few { length objects.now ≤ 4 }
        ensures call { IsFetch (M.disk machine.old) (M.disk machine.new) self.old self.new (has_failed is_read_fault result ≡ true) }
        ensures values { (M.disk machine.old).tells_files → IsLaidOn self.old.parts.volatile.objects ((M.disk machine.old).reads ObjectsFile) →
            IfOk result (λ copies. inputs_in self.new.parts.volatile.objects.cache objects.now copies ≡ map (values_in self.old.parts.volatile.objects ((M.disk machine.old).reads ObjectsFile)) objects.now) }
        ensures count { IfOk result (λ copies. length (inputs_in self.new.parts.volatile.objects.cache objects.now copies) ≡ length objects.now) }
        ensures short { IfOk result (λ copies. All (λ v. length v ≤ (store_params self.old).cap) (inputs_in self.new.parts.volatile.objects.cache objects.now copies)) }
        ensures none { All (λ x. lsn_in self.old.parts.volatile.objects.slots x ≡ 0) objects.now → (machine.new ≡ machine.old) × IfErr result (λ e. e ≡ ReadErr.Memory) }
        ensures some { OnErr result (0 < length objects.now) }
        ensures cause { IfErr result (FailsBy (Rises (M.disk machine.old).disk_faults (M.disk machine.new).disk_faults)
            (HasLongSlot (M.disk machine.new) self.old.parts.volatile.objects.slots objects.now)) }
    {
        if self.fetch_all(machine, objects)? {
            // Called for its clause: no value is too long.
            let _longest = self.objects().longest();
            return Ok(None);
        }
        let copies = self.values_of(machine, objects)?;
        Ok(Some(copies))
    }
}
