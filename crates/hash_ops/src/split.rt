//! What is made of the values that an operation reads.

ghost use Rattle.std.specs.Prelude.{◌≡◌, ◌<◌, ◌≤◌, ◌^◌, ◌++◌, length};
ghost use Rattle.hash_ops.specs.Blocks.{directory_in, bucket_in};
ghost use Rattle.hash_ops.specs.Effects as effects;
ghost use Rattle.hash_ops.specs.Effects.{put_made, delete_made, split_made, halved, deep_enough, renamed, renamed_at};

use crate::directory::MOST_DEPTH;
use crate::{Bucket, Directory, Made, has_bit, hash};
use arrayvec::ArrayVec;
use key_entries::{Pairs, Short, with_pair, without_pair};
use oper_core::Refusal;

/// Puts a pair into the bucket that a value is.
pub(crate) fn put(value: &[u8], key: Short, new: Short) -> Result<Made, Refusal>
    ensures { result ≡ put_made key new (bucket_in value.now) }
{
    let Some(Bucket { depth, pairs }) = Bucket::read(value) else {
        return Err(Refusal::NotNode);
    };
    match with_pair(pairs, key, new) {
        Some(pairs) => Ok(Made::One(Bucket { depth, pairs })),
        None => Err(Refusal::NodeFull),
    }
}

/// Deletes a key's pair from the bucket that a value is.
pub(crate) fn delete(value: &[u8], key: Short) -> Result<Made, Refusal>
    ensures { result ≡ delete_made key (bucket_in value.now) }
{
    let Some(Bucket { depth, pairs }) = Bucket::read(value) else {
        return Err(Refusal::NotNode);
    };
    match without_pair(pairs, key) {
        Some(pairs) => Ok(Made::One(Bucket { depth, pairs })),
        None => Err(Refusal::NoKey),
    }
}

/// Splits the bucket of the object `old`, which the directory names. The pairs of the upper half are for the object `new`.
pub(crate) fn split(directory: &[u8], bucket: &[u8], old: u32, new: u32) -> Result<Made, Refusal>
    ensures { result ≡ split_made old new (directory_in directory.now) (bucket_in bucket.now) }
{
    let Some(directory) = Directory::read(directory) else {
        return Err(Refusal::NotNode);
    };
    let Some(bucket) = Bucket::read(bucket) else {
        return Err(Refusal::NotNode);
    };
    if !directory.names(old) || bucket.depth > directory.depth {
        return Err(Refusal::NotNode);
    }
    if bucket.depth == MOST_DEPTH {
        return Err(Refusal::NodeFull);
    }
    Ok(halves(old, new, &directory, &bucket))
}

/// The directory after a split, and the two halves of the bucket.
fn halves(old: u32, new: u32, directory: &Directory, bucket: &Bucket) -> Made
    requires deep { bucket.now.depth ≤ directory.now.depth }
    requires shallow { bucket.now.depth < 6 }
    requires most { directory.now.depth ≤ 6 }
    requires count { length directory.now.entries.items ≡ 2 ^ directory.now.depth }
    ensures { result ≡ halved old new directory.now bucket.now }
{
    let place = bucket.depth;
    let entries = deep_entries(place, directory);
    let depth = if place == directory.depth {
        place + 1
    } else {
        directory.depth
    };
    let entries = renamed_entries(place, old, new, entries.as_slice());
    Made::Three(
        Directory { depth, entries },
        Bucket {
            depth: place + 1,
            pairs: half(place, false, bucket.pairs.as_slice()),
        },
        Bucket {
            depth: place + 1,
            pairs: half(place, true, bucket.pairs.as_slice()),
        },
    )
}

/// The entries of the directory, twice over where a bucket of this depth is as deep.
fn deep_entries(depth: u8, directory: &Directory) -> ArrayVec<u32, 64>
    requires shallow { depth < 6 }
    requires deep { directory.now.depth ≤ 6 }
    requires count { length directory.now.entries.items ≡ 2 ^ directory.now.depth }
    ensures { result.items ≡ (deep_enough depth directory.now).entries.items }
{
    if depth == directory.depth {
        doubled(directory.entries.as_slice())
    } else {
        listed(directory.entries.as_slice())
    }
}

/// The entries, of which a directory has room for all.
fn listed(entries: &[u32]) -> ArrayVec<u32, 64>
    requires { length entries.now ≤ 64 }
    ensures { result.items ≡ entries.now }
{
    let mut all = ArrayVec::new();
    for object in entries {
        all.push(*object);
    }
    all
}

/// The entries, twice over.
fn doubled(entries: &[u32]) -> ArrayVec<u32, 64>
    requires { length entries.now ≤ 32 }
    ensures { result.items ≡ entries.now ++ entries.now }
{
    let mut all = listed(entries);
    for entry in entries {
        all.push(*entry);
    }
    all
}

/// The entries, where those of the old bucket whose number has the bit name the new one.
fn renamed_entries(place: u8, old: u32, new: u32, entries: &[u32]) -> ArrayVec<u32, 64>
    requires place { place < 6 }
    requires few { length entries.now ≤ 64 }
    ensures { result.items ≡ renamed place old new 0 entries.now }
{
    let mut after = ArrayVec::new();
    for i in 0..entries.len() {
        after.push(renamed_entry(place, old, new, i as u32, entries[i]));
    }
    after
}

/// What the entry of a number names after a split.
fn renamed_entry(place: u8, old: u32, new: u32, i: u32, entry: u32) -> u32
    requires { place < 6 }
    ensures { result ≡ renamed_at place old new i entry }
{
    if entry == old && has_bit(place, i) {
        new
    } else {
        entry
    }
}

/// The pairs of a half.
fn half(place: u8, upper: bool, pairs: &[(Short, Short)]) -> Pairs
    requires place { place < 6 }
    requires few { length pairs.now ≤ 7 }
    ensures { result.items ≡ effects.half upper place pairs.now }
{
    let mut kept = ArrayVec::new();
    for pair in pairs {
        if is_in_half(upper, place, pair.0) {
            kept.push(*pair);
        }
    }
    kept
}

/// Whether a key belongs to the half.
fn is_in_half(upper: bool, place: u8, key: Short) -> bool
    requires { place < 6 }
    ensures { result ≡ effects.is_in_half upper place key }
{
    if upper {
        has_bit(place, hash(key))
    } else {
        !has_bit(place, hash(key))
    }
}
