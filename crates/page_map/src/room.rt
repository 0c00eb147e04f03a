// Whether a leaf has room for a pair.
ghost use Rattle.std.specs.Prelude.{◌≡◌, ◌<◌, ◌^◌, None, if◌then◌else◌, length};
ghost use Rattle.page_map.specs.Sets as sets;
ghost use Rattle.page_map.specs.Walk.{is_on};

use crate::map::page_on;
use page_ops::{Page, Text};

/// A page has so many bytes at most.
const MOST_BYTES: usize = 65_535;

/// The most bytes of a page in a store whose values hold so many.
pub fn room_of(cap: u32) -> usize
    ensures value { result ≡ sets.room_of cap }
    ensures few { result < 2 ^ 16 }
{
    (cap as usize).min(MOST_BYTES)
}

/// How long a page becomes where a pair is put at the place of its key.
fn length_with(leaf: &Page, size: usize, place: usize, key: &Text, value: &Text) -> usize
    requires size { size ≡ length leaf.now }
    requires few { size < 2 ^ 16 }
    ensures { result ≡ sets.length_with leaf.now key.now value.now place }
{
    if !leaf.stands_at(place, key.as_slice()) {
        return size + 4 + key.as_slice().len() + value.as_slice().len();
    }
    match leaf.cell(place) {
        Some((_key, old)) => size.saturating_sub(old.len()) + value.as_slice().len(),
        None => size + value.as_slice().len(),
    }
}

/// Whether a leaf of these bytes has room for a pair. None where they are no leaf, or a cell that is asked does not fit.
pub fn has_room(room: usize, bytes: &[u8], key: &Text, value: &Text) -> Option<bool>
    ensures { result ≡ (if is_on 0 bytes.now then sets.room_in room bytes.now key.now value.now else None) }
{
    let leaf = page_on(0, bytes)?;
    let place = leaf.seek(key.as_slice())?;
    Some(length_with(&leaf, bytes.len(), place, key, value) <= room)
}
