// The objects of a store in use: a cache, laid over the slots.
ghost use Rattle.std.specs.Prelude.{◌≡◌, ◌<◌, ◌≤◌, ◌+◌, ◌*◌, ◌&&◌, ◌||◌, ℕ, All, List, length, None, Some, IsSome, IfSome, IfNone, OnOk, IfOk, IfErr, IsErrOf};
ghost use Rattle.disk_model.specs.Disk.{Files, Rises, Stays};
ghost use Rattle.disk_model.specs.declared.machine.FileNo.TheVariants.{Objects as ObjectsFile};
ghost use Rattle.formats.specs.Bytes.{IsOpenAt, IsClosedAt};
ghost use Rattle.formats.specs.Reading.{FailsBy};
ghost use Rattle.formats.specs.Objects.{IsInRange, IsObjectsFile, bounds_of};
ghost use Rattle.formats.specs.declared.params.Params.{Params as Numbers};
ghost use Rattle.stable_objects.specs.Reading.{FailsAt, IsDamagedAt, IsNoDamage, OpensNot};
ghost use Rattle.stable_objects.specs.SlotsView.{IsLate, place_of};
ghost use Rattle.oper_core.specs.State.{is_among};
ghost use Rattle.dirty_cache.specs.Contents.{held, is_dirty, AreDirty, HasRoom};
ghost use Rattle.running_store.specs.Laid.Fetched.{IsFetched};
ghost use Rattle.running_store.specs.Laid.{IsLaidOn, values_in, object_lsn, with_chosen};
ghost use Rattle.running_store.specs.Laid.Limits.{clean_limit as clean_objects};

use crate::empties::empty_objects;
use crate::limits::clean_limit;
use dirty_cache::Cache;
use disk_model::Machine;
use formats::Params;
use number_lists::NumberTree;
use oper_core::{Bounds, Memory, Values};
use stable_objects::{OpenErr, Slots};
use std::alloc::Global;
use std::marker::Model;

/// The objects of a store in use. An object that is not cached is read from its slot.
#[derive(Drop)]
pub struct Objects {
    pub(crate) alloc: Global,
    pub(crate) slots: Slots,
    pub(crate) cache: Cache,
    /// The objects whose values are empty.
    pub(crate) empties: NumberTree,
}

impl Model for Objects {
    ghost use Rattle.running_store.specs.Laid.{Laid};
    ghost use Rattle.running_store.specs.Laid.Lengths.{AreKept};

    ghost Value = { Laid };

    ghost view = { λ s. record { slots = s.slots; cache = s.cache } };

    ghost invariant = { λ s. AreKept (record { slots = s.slots; cache = s.cache }) s.empties.marks };
}

impl Objects {
    /// The objects of the store in the objects file. Of the clean ones as many are cached at a time as have at most
    /// `clean_bytes` bytes together, however long their values are, and at least `clean`, which is one or more. None is
    /// cached yet.
    /// The limit goes by CAP, and not by the values that are cached, so it is a number of the store, which a clause can say.
    pub fn load<M: Machine>(
        alloc: Global,
        machine: &mut M,
        clean: usize,
        clean_bytes: usize,
    ) -> Result<Objects, OpenErr>
        requires { 0 < clean }
        ensures kept { Stays (M.disk machine.old) (M.disk machine.new) }
        ensures read { (files : Files) → (M.disk machine.new).agrees files → IfOk result (λ o. IsLaidOn o (files ObjectsFile)) }
        ensures empty { IfOk result (λ o. (x : ℕ) → held o.cache x ≡ None) }
        ensures limit { IfOk result (λ o. o.cache.limit ≡ clean_objects clean clean_bytes o.slots.params) }
        ensures cause { IfErr result (OpensNot ((files : Files) → (M.disk machine.new).agrees files → IsClosedAt 0 (files ObjectsFile))
            (FailsBy (Rises (M.disk machine.old).disk_faults (M.disk machine.new).disk_faults)
            (FailsAt (λ place. (files : Files) → (M.disk machine.new).agrees files → IsDamagedAt (files ObjectsFile) place)))) }
        ensures whole { (files : Files) → (M.disk machine.new).agrees files → (p : Numbers) → IsObjectsFile p (files ObjectsFile) → IfErr result IsNoDamage }
        ensures memory { (files : Files) → (M.disk machine.new).agrees files → IsErrOf result OpenErr.Memory → IsOpenAt 0 (files ObjectsFile) }
    {
        let slots = Slots::load(alloc, machine)?;
        let limit = clean_limit(clean, clean_bytes, slots.params());
        let cache = Cache::new(alloc, limit)?;
        let empties = empty_objects(alloc, &slots)?;
        Ok(Objects {
            alloc,
            slots,
            cache,
            empties,
        })
    }

    /// Where its memory comes from.
    pub fn alloc(&self) -> Global {
        self.alloc
    }

    /// How many objects the store has, how many bytes each may hold, and how long the log may be.
    pub fn params(&self) -> Params
        ensures value { result ≡ self.now.slots.params }
        ensures range { IsInRange self.now.slots.params }
    {
        self.slots.params()
    }

    /// How many objects the store has, and how many bytes each may hold.
    pub fn bounds(&self) -> Bounds
        ensures { result ≡ bounds_of self.now.slots.params }
    {
        self.slots.bounds()
    }

    /// The place in the objects file of the first LSN of an open slot that is `next` or more; none exactly where
    /// there is none.
    pub fn first_late(&self, next: u64) -> Option<u64>
        ensures some { IfSome result (λ place. (x : ℕ) × (s : ℕ) × IsLate self.now.slots next x s × (place ≡ place_of self.now.slots x s + 1)
            × ((y t : ℕ) → IsLate self.now.slots next y t → 2 * x + s ≤ 2 * y + t)) }
        ensures none { IfNone result ((x s : ℕ) → IsLate self.now.slots next x s → ⊥) }
    {
        self.slots.first_at(next)
    }

    /// The slots that the objects are read from.
    pub fn slots(&self) -> &Slots
        ensures { result.now ≡ self.now.slots }
    {
        &self.slots
    }

    /// How many objects are dirty.
    pub fn dirty_count(&self) -> usize
        ensures { (objects : List ℕ) × AreDirty self.now.cache objects × (result ≡ length objects) }
    {
        self.cache.dirty_count()
    }

    /// The LSN of an object.
    pub fn lsn(&self, object: u32) -> u64
        requires { object < self.now.slots.params.objects }
        ensures { result ≡ object_lsn self.now object }
    {
        match self.cache.entry(object) {
            Some(entry) => entry.lsn,
            None => self.slots.lsn(object),
        }
    }

    /// The value of an object that is cached.
    pub fn value(&self, object: u32) -> &[u8]
        requires { IsSome (held self.now.cache object) }
        ensures value { (file : List ℕ) → result.now ≡ values_in self.now file object }
        ensures there { object < self.now.slots.params.objects }
        ensures short { length result.now ≤ self.now.slots.params.cap }
    {
        match self.cache.entry(object) {
            Some(entry) => entry.bytes.as_slice(),
            None => &[],
        }
    }

    /// Takes the memory that new values of these objects need in the cache. Each object has the pair that it had.
    pub(crate) fn make_room(&mut self, objects: &[u32]) -> Result<(), Memory>
        ensures room { OnOk result (All (HasRoom self.new.cache) objects.now) }
        ensures slots { self.new.slots ≡ self.old.slots }
        ensures entries { (x : ℕ) → held self.new.cache x ≡ held self.old.cache x }
        ensures fetched { IsFetched self.old self.new }
        ensures laid { (file : List ℕ) → IsLaidOn self.old file → IsLaidOn self.new file }
    {
        for object in objects {
            self.room_for(*object)?;
        }
        Ok(())
    }

    /// Gives those of these objects new values that are chosen; the values stand side by side with all of them. No memory.
    pub(crate) fn set_chosen(&mut self, lsn: u64, chosen: &[u32], objects: &[u32], values: Values)
        requires below { All (λ x. x < self.old.slots.params.objects) objects.now }
        requires room { All (HasRoom self.old.cache) objects.now }
        requires count { length values ≡ length objects.now }
        requires short { All (λ v. length v ≤ self.old.slots.params.cap) values }
        ensures slots { self.new.slots ≡ self.old.slots }
        ensures entries { (x : ℕ) → held self.new.cache x ≡ with_chosen (held self.old.cache) lsn chosen.now objects.now values x }
        ensures dirty { (x : ℕ) → is_dirty self.new.cache x ≡ ((is_among x chosen.now && is_among x objects.now) || is_dirty self.old.cache x) }
        ensures laid { (file : List ℕ) → IsLaidOn self.old file → IsLaidOn self.new file }
    {
        let mut values = values;
        while let Some(value) = values.pop() {
            self.set_if_among(chosen, objects[values.len()], lsn, value);
        }
    }
}
