//! Lists of at most seven pairs whose keys rise.

ghost use Rattle.std.specs.Prelude.{◌≡◌, ◌<◌, ◌≤◌, MatchResult, T, length, option_map};
ghost use Rattle.std.specs.FinMap.Entries.{find, is_sorted};
ghost use Rattle.key_entries.specs.Entries.{byte_order, listed};
ghost use Rattle.key_entries.specs.Places.{place_in};
ghost use Rattle.key_entries.specs.Pairs as pair_lists;

use crate::Short;
use arrayvec::ArrayVec;
use std::cmp::Ordering;

/// The most entries of a list.
pub const MOST_ENTRIES: usize = 7;

/// Keys that rise strictly, each with its value.
pub type Pairs = ArrayVec<(Short, Short), 7>;

/// The pairs with one more, or with a new value beside a key that is there. None where seven other keys are there.
pub fn with_pair(pairs: Pairs, key: Short, value: Short) -> Option<Pairs>
    requires { T (is_sorted byte_order pairs.items) }
    ensures { result ≡ option_map listed (pair_lists.with_pair key value pairs.items) }
{
    let mut pairs = pairs;
    match place_of(pairs.as_slice(), key) {
        Ok(there) => {
            let _old = pairs.remove(there);
            pairs.insert(there, (key, value));
            Some(pairs)
        }
        Err(at) => {
            if pairs.is_full() {
                return None;
            }
            pairs.insert(at, (key, value));
            Some(pairs)
        }
    }
}

/// The pairs without that of a key. None where the key isn't there.
pub fn without_pair(pairs: Pairs, key: Short) -> Option<Pairs>
    requires { T (is_sorted byte_order pairs.items) }
    ensures { result ≡ option_map listed (pair_lists.without_pair key pairs.items) }
{
    let mut pairs = pairs;
    match place_of(pairs.as_slice(), key) {
        Ok(at) => {
            pairs.remove(at);
            Some(pairs)
        }
        Err(_) => None,
    }
}

/// The value beside a key, if it is there.
pub fn value_in(pairs: &[(Short, Short)], key: Short) -> Option<Short>
    ensures { result ≡ find byte_order key pairs.now }
{
    for i in 0..pairs.len() {
        match key.cmp(&pairs[i].0) {
            Ordering::Equal => return Some(pairs[i].1),
            Ordering::Less | Ordering::Greater => {}
        }
    }
    None
}

/// Whether a key is there.
pub fn has_key(pairs: &[(Short, Short)], key: Short) -> bool
    ensures { result ≡ pair_lists.has key pairs.now }
{
    value_in(pairs, key).is_some()
}

/// The place of the key, or else that of the first key above it.
fn place_of(pairs: &[(Short, Short)], key: Short) -> Result<usize, usize>
    ensures value { result ≡ place_in key pairs.now }
    ensures within { MatchResult result (λ i. i < length pairs.now) (λ i. i ≤ length pairs.now) }
{
    for i in 0..pairs.len() {
        match key.cmp(&pairs[i].0) {
            Ordering::Less => return Err(i),
            Ordering::Equal => return Ok(i),
            Ordering::Greater => {}
        }
    }
    Err(pairs.len())
}
