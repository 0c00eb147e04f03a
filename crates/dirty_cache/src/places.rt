ghost use Rattle.std.specs.Prelude.{◌≡◌, ◌+◌, ℕ, [], false, IsSome, is_some, nat_eq, OnOk};
ghost use Rattle.std.specs.List.{IsDistinct};
ghost use Rattle.std.specs.Map.{keys_of, lookup};
ghost use Rattle.std.specs.Option.{option_copied, option_len, option_map};
ghost use Rattle.dirty_cache.specs.Places.{bytes_or, count_of, entry_at, with_bytes};

use crate::Entry;
use indexmap::IndexMap;
use oper_core::{ByteList, Memory};
use std::alloc::Global;
use std::marker::Model;
use std::mem;

/// The objects that have a place for a dirty entry, each with its entry, if it is dirty.
#[derive(Drop)]
pub struct Places {
    places: IndexMap<u32, Option<Entry>>,
    /// How many of the places hold an entry.
    held: usize,
}

impl Model for Places {
    ghost use Rattle.std.specs.Prelude.{◌≡◌, ℕ, List, Option, nat_eq};
    ghost use Rattle.std.specs.List.{IsDistinct};
    ghost use Rattle.std.specs.Map.{keys_of};
    ghost use Rattle.dirty_cache.specs.declared.entry.Entry.{Entry};
    ghost use Rattle.dirty_cache.specs.Places.{count_of};

    ghost Value = { List (ℕ × Option Entry) };

    ghost view = { λ p. p.places.entries };

    ghost invariant = { λ p. (p.held ≡ count_of p.places.entries) × IsDistinct nat_eq (keys_of p.places.entries) };
}

impl Places {
    /// No places.
    pub fn new(alloc: Global) -> Self
        ensures { result ≡ [] }
    {
        Places {
            places: IndexMap::new(alloc),
            held: 0,
        }
    }

    /// The entry in the object's place.
    pub fn entry(&self, x: u32) -> Option<&Entry>
        ensures { option_copied result ≡ entry_at self.now x }
    {
        self.places.get(&x)?.as_ref()
    }

    /// Makes a place for the object, if it has none. Nothing else changes, also where it is out of memory.
    pub fn make(&mut self, x: u32) -> Result<(), Memory>
        ensures made { OnOk result (IsSome (lookup (nat_eq x) self.new)) }
        ensures entries { (y : ℕ) → entry_at self.new y ≡ entry_at self.old y }
        ensures kept { (y : ℕ) → IsSome (lookup (nat_eq y) self.old) → IsSome (lookup (nat_eq y) self.new) }
        ensures count { count_of self.new ≡ count_of self.old }
    {
        if self.places.contains_key(&x) {
            return Ok(());
        }
        self.places.insert(x, None)?;
        Ok(())
    }

    /// Puts an entry, or none, into the object's place, and gives back what was there.
    pub fn replace(&mut self, x: u32, entry: Option<Entry>) -> Option<Entry>
        requires { IsSome (lookup (nat_eq x) self.old) }
        ensures before { result ≡ entry_at self.old x }
        ensures after { entry_at self.new x ≡ entry }
        ensures others { (y : ℕ) → nat_eq x y ≡ false → entry_at self.new y ≡ entry_at self.old y }
        ensures kept { (y : ℕ) → IsSome (lookup (nat_eq y) self.old) → IsSome (lookup (nat_eq y) self.new) }
        ensures count { count_of self.new + option_len result ≡ count_of self.old + option_len entry }
    {
        let more = usize::from(entry.is_some());

        // A map has fewer than 2^63 entries, so the sum below fits.
        let _places = self.places.len();
        let place = self.places.get_mut(&x)?;
        let before = mem::replace(place, entry);
        self.held = self.held + more - usize::from(before.is_some());
        before
    }

    /// Puts another value into the entry in the object's place, and hands back the one that was there. False where there
    /// is no entry: then nothing changes.
    pub fn swap(&mut self, x: u32, bytes: &mut ByteList) -> bool
        ensures found { result ≡ is_some (entry_at self.old x) }
        ensures entry { entry_at self.new x ≡ option_map (with_bytes bytes.old) (entry_at self.old x) }
        ensures others { (y : ℕ) → nat_eq x y ≡ false → entry_at self.new y ≡ entry_at self.old y }
        ensures kept { (y : ℕ) → IsSome (lookup (nat_eq y) self.old) → IsSome (lookup (nat_eq y) self.new) }
        ensures count { count_of self.new ≡ count_of self.old }
        ensures bytes { bytes.new ≡ bytes_or (entry_at self.old x) bytes.old }
    {
        let Some(place) = self.places.get_mut(&x) else {
            return false;
        };
        swap_place(place, bytes)
    }

    /// How many of the places hold an entry.
    pub fn count(&self) -> usize
        ensures count { result ≡ count_of self.now }
        ensures apart { IsDistinct nat_eq (keys_of self.now) }
    {
        self.held
    }
}

// Puts another value into an entry, and hands back the one that was there. False where there is no entry.
fn swap_place(place: &mut Option<Entry>, bytes: &mut ByteList) -> bool
    ensures found { result ≡ is_some place.old }
    ensures place { place.new ≡ option_map (with_bytes bytes.old) place.old }
    ensures bytes { bytes.new ≡ bytes_or place.old bytes.old }
{
    match place {
        Some(entry) => {
            mem::swap(&mut entry.bytes, bytes);
            true
        }
        None => false,
    }
}
