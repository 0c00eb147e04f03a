ghost use Rattle.std.specs.Prelude.{◌≡◌, ◌<◌, ◌≤◌, ◌^◌, nat_lt, None, Some, length, if◌then◌else◌};
ghost use Rattle.hash_file.specs.Find as finding;
ghost use Rattle.hash_file.specs.Plan as plans;

use hash_ops::{Bucket, Directory, hash};
use key_entries::{Short, has_key};
use std::marker::Model;

/// A range of objects for a map. Its first object is the directory, and its buckets stand behind it.
#[derive(Drop)]
pub struct HashFile {
    lo: u32,
    hi: u32,
}

impl Model for HashFile {
    ghost use Rattle.std.specs.Prelude.{◌<◌};
    ghost use Rattle.hash_file.specs.Find.{Range};

    ghost Value = { Range };

    ghost view = { λ t. record { lo = t.lo; hi = t.hi } };

    ghost invariant = { λ t. t.lo < t.hi };
}

impl HashFile {
    /// The range from `lo` to `hi`, both in it. There is none exactly where `hi` is not above `lo`.
    pub fn new(lo: u32, hi: u32) -> Option<Self>
        ensures { result ≡ (if nat_lt lo hi then Some (record { lo = lo; hi = hi }) else None) }
    {
        if lo < hi {
            Some(HashFile { lo, hi })
        } else {
            None
        }
    }

    /// The first object, the directory.
    pub fn directory(&self) -> u32
        ensures { result ≡ self.now.lo }
    {
        self.lo
    }

    /// The last object.
    pub fn last(&self) -> u32
        ensures value { result ≡ self.now.hi }
        ensures order { self.now.lo < result }
    {
        self.hi
    }

    /// Whether the object stands in the range behind the directory.
    pub fn is_inside(&self, object: u32) -> bool
        ensures { result ≡ finding.is_inside self.now.lo self.now.hi object }
    {
        self.lo < object && object <= self.hi
    }
}

/// The object of the bucket to which a key belongs.
pub fn entry_for(directory: &Directory, key: Short) -> u32
    requires shallow { directory.now.depth ≤ 6 }
    requires count { length directory.now.entries.items ≡ 2 ^ directory.now.depth }
    ensures { result ≡ finding.object_for directory.now key }
{
    let number = hash(key) % (1 << directory.depth);
    directory.entries.as_slice()[number as usize]
}

/// Whether the bucket takes a pair with this key without a split: the key is there, or fewer than seven others.
pub fn has_room(bucket: &Bucket, key: Short) -> bool
    ensures { result ≡ plans.has_room key bucket.now }
{
    has_key(bucket.pairs.as_slice(), key) || !bucket.pairs.is_full()
}
