//! The codes of the operations.

ghost use Rattle.std.specs.Prelude.{◌≡◌, length};
ghost use Rattle.btree_ops.specs.Operation.{op_code, op_in};

use crate::NodeOp;
use key_entries::{EntryField, HEAD_BYTES, read_delete, read_put, read_three};

pub(crate) const PUT: u8 = 10;

pub(crate) const DELETE: u8 = 11;

pub(crate) const SPLIT_CHILD: u8 = 12;

pub(crate) const SPLIT_ROOT: u8 = 13;

/// The bytes of a tag and three objects.
const SPLIT_BYTES: usize = 13;

/// How many bytes the code has.
pub(crate) fn code_len(op: &NodeOp) -> usize
    ensures { result ≡ length (op_code op.now) }
{
    match op {
        NodeOp::Put { key, value, .. } => HEAD_BYTES + key.code_len() + value.code_len(),
        NodeOp::Delete { key, .. } => HEAD_BYTES + key.code_len(),
        NodeOp::SplitChild { .. } => SPLIT_BYTES,
        NodeOp::SplitRoot { .. } => SPLIT_BYTES,
    }
}

/// The operation whose code the bytes begin with, whatever the bounds.
pub(crate) fn read(bytes: &[u8]) -> Option<NodeOp>
    ensures { result ≡ op_in bytes.now }
{
    if bytes.is_empty() {
        return None;
    }
    let body = &bytes[1..];
    match bytes[0] {
        PUT => {
            let (object, key, value) = read_put(body)?;
            Some(NodeOp::Put { object, key, value })
        }
        DELETE => {
            let (object, key) = read_delete(body)?;
            Some(NodeOp::Delete { object, key })
        }
        SPLIT_CHILD => {
            let (parent, child, new) = read_three(body)?;
            Some(NodeOp::SplitChild { parent, child, new })
        }
        SPLIT_ROOT => {
            let (root, left, right) = read_three(body)?;
            Some(NodeOp::SplitRoot { root, left, right })
        }
        _ => None,
    }
}
