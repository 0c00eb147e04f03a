ghost use Rattle.std.specs.Prelude.{◌≡◌, [], ◌∷◌, length};
ghost use Rattle.key_entries.specs.Objects.{where_roomy};
ghost use Rattle.hash_ops.specs.Blocks as blocks;
ghost use Rattle.hash_ops.specs.declared.made.Made.TheVariants.{Two};
ghost use Rattle.hash_ops.specs.Effects.{made_by};
ghost use Rattle.hash_ops.specs.Operation.{read_by};

use crate::coding::{self, DELETE, INIT, PUT, SPLIT};
use crate::{Bucket, Directory, Made, split};
use arrayvec::ArrayVec;
use key_entries::{
    LEAST_CAP, Short, no_values, require_three, require_two, three, write_delete, write_put,
    write_three, write_two,
};
use oper_core::{Bounds, Family, Memory, Objs, Oper, Refusal, Values};
use std::alloc::Global;

/// An operation on a hash file, which names the objects that hold its directory and its buckets.
#[derive(Clone, Copy)]
pub enum HashOp {
    /// Begins a hash file: a directory with one entry, and its bucket, which has no pairs.
    Init {
        directory: u32,
        bucket: u32,
    },
    /// Puts a pair into the bucket of an object. A key that is there gets the new value.
    Put {
        bucket: u32,
        key: Short,
        value: Short,
    },
    /// Deletes a key and its value from the bucket of an object.
    Delete {
        bucket: u32,
        key: Short,
    },
    /// Splits a bucket that the directory names. The pairs of the upper half go to the new object.
    Split {
        directory: u32,
        bucket: u32,
        new: u32,
    },
}

impl HashOp {
    /// What it makes of the values that it reads, or why it makes nothing.
    fn outcome(&self, b: Bounds, values: &Values) -> Result<Made, Refusal>
        requires { length values.now ≡ length (read_by self.now) }
        ensures { result ≡ where_roomy b.cap (made_by self.now values.now) }
    {
        let made = self.made_of(values)?;
        if b.cap < LEAST_CAP {
            return Err(Refusal::TooLarge);
        }
        Ok(made)
    }

    /// The same, whatever the length of values may be.
    fn made_of(&self, values: &Values) -> Result<Made, Refusal>
        requires { length values.now ≡ length (read_by self.now) }
        ensures { result ≡ made_by self.now values.now }
    {
        match self {
            HashOp::Init { bucket, .. } => Ok(begun(*bucket)),
            HashOp::Put { key, value, .. } => split::put(values.get(0), *key, *value),
            HashOp::Delete { key, .. } => split::delete(values.get(0), *key),
            HashOp::Split { bucket, new, .. } => {
                split::split(values.get(0), values.get(1), *bucket, *new)
            }
        }
    }
}

/// A directory with one entry, and its bucket.
fn begun(bucket: u32) -> Made
    ensures { result ≡ Two (blocks.directory 0 (bucket ∷ [])) (blocks.bucket 0 []) }
{
    let mut entries = ArrayVec::new();
    entries.push(bucket);
    let directory = Directory { depth: 0, entries };
    let bucket = Bucket {
        depth: 0,
        pairs: ArrayVec::new(),
    };
    Made::Two(directory, bucket)
}

impl Oper for HashOp {
    ghost use Rattle.hash_ops.specs.Operation.{hash_meaning};
    ghost use Rattle.hash_ops.specs.OperationLaws.{hash_bounded, hash_lawful, hash_widens};

    ghost meaning = { hash_meaning };

    fn reads(&self) -> Objs {
        match self {
            HashOp::Init { .. } => Objs::new(),
            HashOp::Put { bucket, .. } => Objs::one(*bucket),
            HashOp::Delete { bucket, .. } => Objs::one(*bucket),
            HashOp::Split {
                directory,
                bucket,
                ..
            } => {
                let mut objects = Objs::one(*directory);
                objects.push(*bucket);
                objects
            }
        }
    }

    fn writes(&self) -> Objs {
        match self {
            HashOp::Init { directory, bucket } => {
                let mut objects = Objs::one(*directory);
                objects.push(*bucket);
                objects
            }
            HashOp::Put { bucket, .. } => Objs::one(*bucket),
            HashOp::Delete { bucket, .. } => Objs::one(*bucket),
            HashOp::Split {
                directory,
                bucket,
                new,
            } => three(*directory, *bucket, *new),
        }
    }

    fn shape(&self, b: Bounds) -> Result<(), Refusal> {
        match self {
            HashOp::Init { directory, bucket } => require_two(b, *directory, *bucket),
            HashOp::Put { bucket, key, value } => {
                key.known_as_short();
                value.known_as_short();
                if *bucket >= b.objects {
                    return Err(Refusal::NoObject);
                }
                Ok(())
            }
            HashOp::Delete { bucket, key } => {
                key.known_as_short();
                if *bucket >= b.objects {
                    return Err(Refusal::NoObject);
                }
                Ok(())
            }
            HashOp::Split {
                directory,
                bucket,
                new,
            } => require_three(b, *directory, *bucket, *new),
        }
    }

    fn check(&self, b: Bounds, values: &Values) -> Result<(), Refusal> {
        let _made = self.outcome(b, values)?;
        Ok(())
    }

    fn apply(&self, alloc: Global, b: Bounds, values: &Values) -> Result<Values, Memory> {
        match self.outcome(b, values) {
            Ok(made) => made.values(alloc),
            Err(_) => no_values(alloc, self.writes().as_slice()),
        }
    }

    fn code_length(&self) -> u64 {
        coding::code_len(self) as u64
    }

    fn encode(&self, out: &mut Vec<u8>) -> Result<(), Memory> {
        match self {
            HashOp::Init { directory, bucket } => write_two(INIT, *directory, *bucket, out),
            HashOp::Put { bucket, key, value } => write_put(PUT, *bucket, *key, *value, out),
            HashOp::Delete { bucket, key } => write_delete(DELETE, *bucket, *key, out),
            HashOp::Split {
                directory,
                bucket,
                new,
            } => write_three(SPLIT, *directory, *bucket, *new, out),
        }
    }

    fn decode(_alloc: Global, b: Bounds, bytes: &[u8]) -> Result<Option<(Self, usize)>, Memory> {
        let Some(op) = coding::read(bytes) else {
            return Ok(None);
        };
        if op.shape(b).is_err() {
            return Ok(None);
        }
        let length = coding::code_len(&op);
        Ok(Some((op, length)))
    }

    ghost bounded = { hash_bounded };

    ghost lawful = { hash_lawful };

    ghost widens = { hash_widens };
}

impl Family for HashOp {
    ghost use Rattle.hash_ops.specs.Operation.{is_hash_tag};
    ghost use Rattle.hash_ops.specs.OperationLaws.{hash_tagged};

    ghost has_tag = { is_hash_tag };

    fn owns(tag: u8) -> bool {
        17 <= tag && tag <= 20
    }

    ghost tagged = { hash_tagged };
}
