//! Entries where they stand in their bytes, of which nothing is copied.

ghost use Rattle.std.specs.Prelude.{◌≡◌, ◌≤◌, ℕ, List, None, Some, IfNone, IfSome, option_map, length};
ghost use Rattle.std.specs.Ordering.{is_lt};
ghost use Rattle.std.specs.FinMap.Entries.{by_order};
ghost use Rattle.key_entries.specs.Short.{short_code, short_in};
ghost use Rattle.key_entries.specs.Entries.{byte_order, short_field, entry_code, entry_in};
ghost use Rattle.key_entries.specs.Spots.{IsSpot, pairs_in};

use crate::short::MOST;
use crate::{EntryField, Short, Spot};
use std::cmp::Ordering;

/// Whether a key is below another in the order of the bytes.
pub fn is_below(key: &[u8], other: &[u8]) -> bool
    ensures { result ≡ is_lt (byte_order key.now other.now) }
{
    order_of(key, other).is_lt()
}

/// How a key stands to another in the order of the bytes. Most keys differ in the first, and take no loop.
pub(crate) fn order_of(key: &[u8], other: &[u8]) -> Ordering
    ensures { result ≡ byte_order key.now other.now }
{
    if key.is_empty() || other.is_empty() {
        return key.cmp(&other);
    }
    let found = key[0].cmp(&other[0]);
    if found.is_ne() {
        return found;
    }
    key.cmp(&other)
}

/// The short list that the bytes begin with.
fn short_at(bytes: &[u8]) -> Option<&[u8]>
    ensures value { option_map (λ short. short.now) result ≡ short_in bytes.now }
    ensures room { IfSome result (λ short. length (short_code short.now) ≤ length bytes.now) }
{
    let len = *bytes.first()? as usize;
    if len == 0 || len > MOST {
        return None;
    }
    bytes[1..].get(..len)
}

/// The key that the bytes begin with, and the field beside it.
pub fn entry_at<T: EntryField>(bytes: &[u8]) -> Option<(&[u8], T)>
    ensures value { option_map (λ e. (e.0.now, e.1)) result ≡ entry_in T.field bytes.now }
    ensures room { IfSome result (λ e. length (entry_code T.field (e.0.now, e.1)) ≤ length bytes.now) }
{
    let key = short_at(bytes)?;
    let beside = T::read(&bytes[1 + key.len()..])?;
    Some((key, beside))
}

/// The key that the bytes begin with, and the value beside it.
fn pair_at(bytes: &[u8]) -> Option<(&[u8], &[u8])>
    ensures value { option_map (λ e. (e.0.now, e.1.now)) result ≡ entry_in short_field bytes.now }
    ensures room { IfSome result (λ e. length (entry_code short_field (e.0.now, e.1.now)) ≤ length bytes.now) }
{
    let key = short_at(bytes)?;
    let value = short_at(&bytes[1 + key.len()..])?;
    Some((key, value))
}

/// Where a key's pair stands in the bytes of so many pairs, or would stand; none where they are no pairs whose keys rise.
pub fn spot_of(key: Short, count: usize, bytes: &[u8]) -> Option<Spot>
    ensures some { IfSome result (λ spot. (pairs : List (List ℕ × List ℕ)) × (pairs_in count bytes.now ≡ Some pairs) × IsSpot key pairs bytes.now spot) }
    ensures none { IfNone result (pairs_in count bytes.now ≡ None) }
{
    let key = key.as_slice();
    let mut spot = Spot { start: 0, end: 0 };
    let mut last: &[u8] = &[];
    let mut rest = bytes;
    for _read in 0..count {
        let (other, value) = pair_at(rest)?;
        if !is_below(last, other) {
            return None;
        }
        rest = &rest[2 + other.len() + value.len()..];
        spot = moved(spot, order_of(key, other), bytes.len() - rest.len());
        last = other;
    }
    if rest.is_empty() { Some(spot) } else { None }
}

/// The spot of a key, after one more pair, to whose key it stands so, and behind which so many bytes were read.
fn moved(spot: Spot, order: Ordering, read: usize) -> Spot
    ensures { result ≡ by_order order spot (record { start = spot.start; end = read }) (record { start = read; end = read }) }
{
    match order {
        Ordering::Less => spot,
        Ordering::Equal => Spot {
            start: spot.start,
            end: read,
        },
        Ordering::Greater => Spot {
            start: read,
            end: read,
        },
    }
}
