ghost use Rattle.std.specs.Prelude.{◌≡◌, ◌<◌, ◌≤◌, ◌⊎◌, ℕ, false, None, Some, IsSome, is_some, nat_eq, ◌∷◌, length, take};
ghost use Rattle.std.specs.Map.{keys_of, lookup, remove_entry};
ghost use Rattle.std.specs.Option.{option_map};
ghost use Rattle.dirty_cache.specs.Places.{bytes_or, with_bytes};

use crate::Entry;
use lru::LruCache;
use oper_core::ByteList;
use std::mem;

/// Puts the object's entry in front, and lets the last one go where there are too many. Where memory is refused, the
/// entry is dropped; an older one of the same object is never left, since to replace it needs no memory.
pub fn remember(clean: &mut LruCache<u32, Entry>, x: u32, entry: Entry)
    ensures order { (clean.new.entries ≡ take clean.old.cap ((x, entry) ∷ remove_entry (nat_eq x) clean.old.entries)) ⊎ (clean.new.entries ≡ clean.old.entries) }
    ensures own { (lookup (nat_eq x) clean.new.entries ≡ Some entry) ⊎ (lookup (nat_eq x) clean.new.entries ≡ None) }
    ensures known { IsSome (lookup (nat_eq x) clean.old.entries) → lookup (nat_eq x) clean.new.entries ≡ Some entry }
    ensures others { (y : ℕ) → nat_eq x y ≡ false →
        (lookup (nat_eq y) clean.new.entries ≡ lookup (nat_eq y) clean.old.entries) ⊎ (lookup (nat_eq y) clean.new.entries ≡ None) }
    ensures roomy { (length clean.old.entries < clean.old.cap) ⊎ IsSome (lookup (nat_eq x) clean.old.entries) →
        (y : ℕ) → nat_eq x y ≡ false → lookup (nat_eq y) clean.new.entries ≡ lookup (nat_eq y) clean.old.entries }
    ensures bound { clean.new.cap ≡ clean.old.cap }
    ensures within { length clean.new.entries ≤ clean.new.cap }
{
    drop(clean.put(x, entry));

    // The length is read for what it says of every cache: it is within the capacity.
    let _within = clean.len();
}

/// Puts another value into the object's entry, and hands back the one that was there. False where there is no entry: then
/// nothing changes.
pub fn swap_clean(clean: &mut LruCache<u32, Entry>, x: u32, bytes: &mut ByteList) -> bool
    ensures found { result ≡ is_some (lookup (nat_eq x) clean.old.entries) }
    ensures entry { lookup (nat_eq x) clean.new.entries ≡ option_map (with_bytes bytes.old) (lookup (nat_eq x) clean.old.entries) }
    ensures others { (y : ℕ) → nat_eq x y ≡ false → lookup (nat_eq y) clean.new.entries ≡ lookup (nat_eq y) clean.old.entries }
    ensures order { keys_of clean.new.entries ≡ keys_of clean.old.entries }
    ensures bound { clean.new.cap ≡ clean.old.cap }
    ensures bytes { bytes.new ≡ bytes_or (lookup (nat_eq x) clean.old.entries) bytes.old }
{
    match clean.peek_mut(&x) {
        Some(entry) => {
            mem::swap(&mut entry.bytes, bytes);
            true
        }
        None => false,
    }
}
