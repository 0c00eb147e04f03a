//! The codes of the operations.

ghost use Rattle.std.specs.Prelude.{◌≡◌, length};
ghost use Rattle.hash_ops.specs.Operation.{op_code, op_in};

use crate::HashOp;
use key_entries::{EntryField, HEAD_BYTES, read_delete, read_put, read_three, read_two};

pub(crate) const INIT: u8 = 17;

pub(crate) const PUT: u8 = 18;

pub(crate) const DELETE: u8 = 19;

pub(crate) const SPLIT: u8 = 20;

/// How many bytes the code has.
pub(crate) fn code_len(op: &HashOp) -> usize
    ensures { result ≡ length (op_code op.now) }
{
    match op {
        HashOp::Init { .. } => HEAD_BYTES + 4,
        HashOp::Put { key, value, .. } => HEAD_BYTES + key.code_len() + value.code_len(),
        HashOp::Delete { key, .. } => HEAD_BYTES + key.code_len(),
        HashOp::Split { .. } => HEAD_BYTES + 8,
    }
}

/// The operation whose code the bytes begin with, whatever the bounds.
pub(crate) fn read(bytes: &[u8]) -> Option<HashOp>
    ensures { result ≡ op_in bytes.now }
{
    if bytes.is_empty() {
        return None;
    }
    let body = &bytes[1..];
    match bytes[0] {
        INIT => {
            let (directory, bucket) = read_two(body)?;
            Some(HashOp::Init { directory, bucket })
        }
        PUT => {
            let (bucket, key, value) = read_put(body)?;
            Some(HashOp::Put { bucket, key, value })
        }
        DELETE => {
            let (bucket, key) = read_delete(body)?;
            Some(HashOp::Delete { bucket, key })
        }
        SPLIT => {
            let (directory, bucket, new) = read_three(body)?;
            Some(HashOp::Split {
                directory,
                bucket,
                new,
            })
        }
        _ => None,
    }
}
