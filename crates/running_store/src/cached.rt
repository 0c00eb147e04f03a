// One object at a time is looked up in the cache, kept there, and changed.
ghost use Rattle.std.specs.Prelude.{◌≡◌, ◌==◌, ◌&&◌, ◌||◌, ◌<◌, ◌≤◌, ℕ, List, length, None, Some, is_some, if◌then◌else◌, OnOk};
ghost use Rattle.formats.specs.Objects.{cell_of};
ghost use Rattle.dirty_cache.specs.Contents.{held, is_dirty, HasRoom, KeepsRooms};
ghost use Rattle.oper_core.specs.State.{is_among};
ghost use Rattle.stable_objects.specs.SlotsView.{lsn_in};
ghost use Rattle.running_store.specs.Laid.Fetched.{IsFetched};
ghost use Rattle.running_store.specs.Laid.{IsLaidOn, KeepsCells};

use crate::empties::note_value;
use crate::objects::Objects;
use oper_core::{ByteList, Memory};

impl Objects {
    /// Whether an object's value is not yet in its slot.
    pub fn is_dirty(&self, object: u32) -> bool
        ensures { result ≡ is_dirty self.now.cache object }
    {
        self.cache.is_dirty(object)
    }

    /// Whether an object is cached. A clean one becomes the one used last.
    pub(crate) fn is_cached(&mut self, object: u32) -> bool
        ensures found { result ≡ is_some (held self.old.cache object) }
        ensures slots { self.new.slots ≡ self.old.slots }
        ensures entries { (x : ℕ) → held self.new.cache x ≡ held self.old.cache x }
        ensures fetched { IsFetched self.old self.new }
        ensures laid { (file : List ℕ) → IsLaidOn self.old file → IsLaidOn self.new file }
    {
        self.cache.view(object).is_some()
    }

    /// Whether an object is cached. The order of the clean ones stays as it is.
    pub(crate) fn holds(&self, object: u32) -> bool
        ensures { result ≡ is_some (held self.now.cache object) }
    {
        self.cache.entry(object).is_some()
    }

    /// Keeps the pair of an object that was not cached, as its slot has it. Where memory is refused it is dropped.
    pub(crate) fn keep(&mut self, object: u32, lsn: u64, bytes: Vec<u8>)
        requires below { object < self.old.slots.params.objects }
        requires absent { held self.old.cache object ≡ None }
        requires short { length bytes.items ≤ self.old.slots.params.cap }
        ensures slots { self.new.slots ≡ self.old.slots }
        ensures cells { (file : List ℕ) → IsLaidOn self.old file → cell_of object file ≡ record { lsn = lsn; value = bytes.items } →
            KeepsCells file self.old self.new × IsLaidOn self.new file }
        ensures fetched { lsn ≡ lsn_in self.old.slots object → IsFetched self.old self.new }
    {
        self.cache.keep_clean(object, lsn, bytes);
    }

    /// Takes the memory that a new value of an object needs in the cache. Each object has the pair that it had.
    pub(crate) fn room_for(&mut self, object: u32) -> Result<(), Memory>
        ensures room { OnOk result (HasRoom self.new.cache object) }
        ensures rooms { KeepsRooms self.old.cache self.new.cache }
        ensures slots { self.new.slots ≡ self.old.slots }
        ensures entries { (x : ℕ) → held self.new.cache x ≡ held self.old.cache x }
        ensures fetched { IsFetched self.old self.new }
        ensures laid { (file : List ℕ) → IsLaidOn self.old file → IsLaidOn self.new file }
    {
        self.cache.make_room(object)
    }

    /// Gives an object a new value and LSN. No memory.
    pub(crate) fn set(&mut self, object: u32, lsn: u64, value: ByteList)
        requires below { object < self.old.slots.params.objects }
        requires room { HasRoom self.old.cache object }
        requires short { length value ≤ self.old.slots.params.cap }
        ensures rooms { KeepsRooms self.old.cache self.new.cache }
        ensures slots { self.new.slots ≡ self.old.slots }
        ensures entries { (x : ℕ) → held self.new.cache x ≡ (if x == object then Some (record { lsn = lsn; bytes = value }) else held self.old.cache x) }
        ensures dirty { (y : ℕ) → is_dirty self.new.cache y ≡ ((y == object) || is_dirty self.old.cache y) }
        ensures laid { (file : List ℕ) → IsLaidOn self.old file → IsLaidOn self.new file }
    {
        note_value(&mut self.empties, object, value.as_slice());
        self.cache.set(object, lsn, value.into_vec());
    }

    /// The same, where the object is one of these.
    pub(crate) fn set_if_among(&mut self, chosen: &[u32], object: u32, lsn: u64, value: ByteList)
        requires below { object < self.old.slots.params.objects }
        requires room { HasRoom self.old.cache object }
        requires short { length value ≤ self.old.slots.params.cap }
        ensures rooms { KeepsRooms self.old.cache self.new.cache }
        ensures slots { self.new.slots ≡ self.old.slots }
        ensures entries { (x : ℕ) → held self.new.cache x ≡ (if (x == object) && is_among object chosen.now then Some (record { lsn = lsn; bytes = value }) else held self.old.cache x) }
        ensures dirty { (x : ℕ) → is_dirty self.new.cache x ≡ (((x == object) && is_among object chosen.now) || is_dirty self.old.cache x) }
        ensures laid { (file : List ℕ) → IsLaidOn self.old file → IsLaidOn self.new file }
    {
        if is_one_of(object, chosen) {
            self.set(object, lsn, value);
        }
    }
}

/// Whether the object is one of these.
fn is_one_of(object: u32, objects: &[u32]) -> bool
    ensures { result ≡ is_among object objects.now }
{
    objects.iter().any(|y| object == *y)
}
