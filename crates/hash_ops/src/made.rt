ghost use Rattle.std.specs.Prelude.{◌≡◌, IfOk};
ghost use Rattle.hash_ops.specs.Operation.{bytes_of};

use crate::{Bucket, Directory};
use oper_core::{ByteList, Memory, Values};
use std::alloc::Global;

/// What an operation makes, in the order of the objects that it writes.
#[derive(Drop)]
pub enum Made {
    /// A new directory, and its one bucket.
    Two(Directory, Bucket),
    /// A bucket with other pairs.
    One(Bucket),
    /// The directory after a split, the bucket that was split, and the new one.
    Three(Directory, Bucket, Bucket),
}

impl Made {
    /// Their bytes, a value for each.
    pub fn values(&self, alloc: Global) -> Result<Values, Memory>
        ensures { IfOk result (λ values. values ≡ bytes_of self.now) }
    {
        let mut values = Values::new(alloc);
        match self {
            Made::Two(directory, bucket) => {
                values.push_list(ByteList::new(directory.bytes(alloc)?));
                values.push_list(ByteList::new(bucket.bytes(alloc)?));
            }
            Made::One(bucket) => values.push_list(ByteList::new(bucket.bytes(alloc)?)),
            Made::Three(directory, low, high) => {
                values.push_list(ByteList::new(directory.bytes(alloc)?));
                values.push_list(ByteList::new(low.bytes(alloc)?));
                values.push_list(ByteList::new(high.bytes(alloc)?));
            }
        }
        Ok(values)
    }
}
