ghost use Rattle.std.specs.Prelude.{◌≡◌, ◌+◌, ◌<◌, ◌≤◌, ◌⊎◌, ℕ, true, false, if◌then◌else◌, List, length, None, Some, IsSome, is_some, nat_eq, IfOk, OnOk};
ghost use Rattle.std.specs.Borrow.{sem};
ghost use Rattle.std.specs.Map.{remove_entry};
ghost use Rattle.std.specs.Option.{option_copied};
ghost use Rattle.dirty_cache.specs.Contents.{empty, held, is_dirty, dirty_count, clean_count, AreDirty, in_front, HasRoom, IsSame, IsSameOrForgotten, IsSwapped, IsUnchanged, KeepsRooms, shown};
ghost use Rattle.dirty_cache.specs.Ends.{EndsUsed};
ghost use Rattle.dirty_cache.specs.Places.{bytes_or};

use crate::Entry;
use crate::clean::{remember, swap_clean};
use crate::places::Places;
use lru::LruCache;
use oper_core::{ByteList, Memory};
use std::alloc::Global;
use std::marker::Model;
use std::num::NonZeroUsize;

/// The cached objects. A dirty one stays until it is marked clean; of the clean ones those used last are kept.
#[derive(Drop)]
pub struct Cache {
    dirty: Places,
    clean: LruCache<u32, Entry>,
}

impl Model for Cache {
    ghost use Rattle.dirty_cache.specs.Contents.{Contents, contents};

    ghost Value = { Contents };

    ghost view = { λ c. contents c.dirty c.clean.entries c.clean.cap };
}

impl Cache {
    /// An empty cache that holds at most `clean` clean objects, at least one.
    pub fn new(alloc: Global, clean: usize) -> Result<Self, Memory>
        requires { 0 < clean }
        ensures { IfOk result (λ cache. cache ≡ empty clean) }
    {
        let limit = NonZeroUsize::new(clean).unwrap_or(NonZeroUsize::MIN);
        Ok(Cache {
            dirty: Places::new(alloc),
            clean: LruCache::new(alloc, limit)?,
        })
    }

    /// The LSN and the value of the object, if it is cached. A clean object becomes the one used last.
    pub fn view(&mut self, x: u32) -> Option<(u64, &[u8])>
        ensures* unchanged { sem 𝓛 (EndsUsed self.entry x) }
        ensures entry { shown result ≡ held self.old x }
    {
        self.clean.promote(&x);
        let entry = self.entry(x)?;
        Some((entry.lsn, entry.bytes.as_slice()))
    }

    /// Takes the memory that `set` needs for the object, beside what is taken for others. Nothing else changes, also
    /// where it is out of memory. The room stays for good.
    /// The place is an empty one of the map, which counts do not see; a `set` of an object that has one takes no memory.
    pub fn make_room(&mut self, x: u32) -> Result<(), Memory>
        ensures room { OnOk result (HasRoom self.new x) }
        ensures same { IsUnchanged self.old self.new }
        ensures order { self.new.clean ≡ self.old.clean }
        ensures rooms { KeepsRooms self.old self.new }
    {
        self.dirty.make(x)
    }

    /// Makes the object dirty, with this LSN and value, whatever it had. It takes no memory: there is room for
    /// the object, or it is dirty already.
    pub fn set(&mut self, x: u32, lsn: u64, bytes: Vec<u8>)
        requires { HasRoom self.old x }
        ensures entry { held self.new x ≡ Some (record { lsn = lsn; bytes = bytes.items }) }
        ensures dirty { is_dirty self.new x ≡ true }
        ensures others { (y : ℕ) → nat_eq x y ≡ false → IsSame self.old self.new y }
        ensures count { dirty_count self.new ≡ dirty_count self.old + (if is_dirty self.old x then 0 else 1) }
        ensures clean { clean_count self.new ≤ clean_count self.old }
        ensures order { self.new.clean ≡ remove_entry (nat_eq x) self.old.clean }
        ensures rooms { KeepsRooms self.old self.new }
        ensures limit { self.new.limit ≡ self.old.limit }
    {
        drop(self.clean.pop(&x));
        let bytes = ByteList::new(bytes);
        drop(self.dirty.replace(x, Some(Entry { lsn, bytes })));
    }

    /// Keeps the LSN and the value of an object that is not dirty. Where memory is refused they are dropped.
    pub fn keep_clean(&mut self, x: u32, lsn: u64, bytes: Vec<u8>)
        requires { is_dirty self.old x ≡ false }
        ensures entry { (held self.new x ≡ Some (record { lsn = lsn; bytes = bytes.items })) ⊎ (held self.new x ≡ None) }

        // A clean entry that is there already is never lost.
        ensures known { IsSome (held self.old x) → held self.new x ≡ Some (record { lsn = lsn; bytes = bytes.items }) }
        ensures clean { is_dirty self.new x ≡ false }
        ensures others { (y : ℕ) → nat_eq x y ≡ false → IsSameOrForgotten self.old self.new y }

        // Others are forgotten only where one more would be too many.
        ensures roomy { (clean_count self.old < self.old.limit) ⊎ IsSome (held self.old x) →
            (y : ℕ) → nat_eq x y ≡ false → IsSame self.old self.new y }
        ensures order { (self.new.clean ≡ in_front self.old x (record { lsn = lsn; bytes = bytes.items })) ⊎ (self.new.clean ≡ self.old.clean) }
        ensures within { clean_count self.new ≤ self.new.limit }
        ensures count { dirty_count self.new ≡ dirty_count self.old }
        ensures rooms { KeepsRooms self.old self.new }
        ensures limit { self.new.limit ≡ self.old.limit }
    {
        let bytes = ByteList::new(bytes);
        remember(&mut self.clean, x, Entry { lsn, bytes });
    }

    /// Makes a dirty object clean, as its slot now holds its value. Where memory is refused its entry is dropped.
    pub fn mark_clean(&mut self, x: u32)
        requires { is_dirty self.old x ≡ true }
        ensures entry { (held self.new x ≡ held self.old x) ⊎ (held self.new x ≡ None) }
        ensures clean { is_dirty self.new x ≡ false }
        ensures others { (y : ℕ) → nat_eq x y ≡ false → IsSameOrForgotten self.old self.new y }

        // Others are forgotten only where one more would be too many.
        ensures roomy { clean_count self.old < self.old.limit →
            (y : ℕ) → nat_eq x y ≡ false → IsSame self.old self.new y }
        ensures order { (e : Entry) → held self.old x ≡ Some e → (self.new.clean ≡ in_front self.old x e) ⊎ (self.new.clean ≡ self.old.clean) }
        ensures within { clean_count self.new ≤ self.new.limit }
        ensures count { dirty_count self.new + 1 ≡ dirty_count self.old }
        ensures rooms { KeepsRooms self.old self.new }
        ensures limit { self.new.limit ≡ self.old.limit }
    {
        if let Some(entry) = self.dirty.replace(x, None) {
            remember(&mut self.clean, x, entry);
        }
    }

    /// Puts another value into the object's entry, and hands back the one that was there: so a value is lent, and comes
    /// back. False where the object is not cached: then nothing changes. No memory.
    pub fn swap(&mut self, x: u32, bytes: &mut ByteList) -> bool
        ensures found { result ≡ is_some (held self.old x) }
        ensures after { IsSwapped self.old self.new x bytes.old }
        ensures rooms { KeepsRooms self.old self.new }
        ensures bytes { bytes.new ≡ bytes_or (held self.old x) bytes.old }
    {
        if self.dirty.swap(x, bytes) {
            return true;
        }
        swap_clean(&mut self.clean, x, bytes)
    }

    /// How many clean objects are cached at most.
    pub fn limit(&self) -> usize
        ensures { result ≡ self.now.limit }
    {
        self.clean.cap().get()
    }

    /// How many objects are dirty.
    pub fn dirty_count(&self) -> usize
        ensures count { result ≡ dirty_count self.now }

        // They can be listed, each once.
        ensures each { (objects : List ℕ) × AreDirty self.now objects × (result ≡ length objects) }
    {
        self.dirty.count()
    }

    /// Whether the object is dirty.
    pub fn is_dirty(&self, x: u32) -> bool
        ensures dirty { result ≡ is_dirty self.now x }
        ensures room { is_dirty self.now x ≡ true → HasRoom self.now x }
    {
        self.dirty.entry(x).is_some()
    }

    /// The entry of an object, if it is cached. The order of the clean objects stays as it is.
    pub fn entry(&self, x: u32) -> Option<&Entry>
        ensures value { option_copied result ≡ held self.now x }
    {
        match self.dirty.entry(x) {
            Some(entry) => Some(entry),
            None => self.clean.peek(&x),
        }
    }
}
