//! Nodes out of their bytes.

ghost use Rattle.std.specs.Prelude.{◌≡◌, ◌≤◌, None, IfNone, IfSome, false};
ghost use Rattle.btree_ops.specs.Node.{leaf_in, inner_in, node_in};
ghost use Rattle.btree_ops.specs.Head.{leaf_with, inner_with, is_leaf, is_inner};

use crate::Node;
use crate::node::{INNER, LEAF};
use key_entries::{EntryField, MOST_ENTRIES, read_rising};

/// A leaf in its bytes, of which only the head is read.
#[derive(Clone, Copy)]
pub(crate) struct LeafHead<'a> {
    /// How many pairs it has.
    pub(crate) count: usize,
    /// Their bytes.
    pub(crate) pairs: &'a [u8],
}

/// An inner node in its bytes, of which only the head is read.
#[derive(Clone, Copy)]
pub struct InnerHead<'a> {
    /// How many separators it has.
    pub count: usize,
    /// Its first child.
    pub first: u32,
    /// The bytes of its separators, each with the child to its right.
    pub branches: &'a [u8],
}

/// The node that the bytes are.
pub(crate) fn read_node(bytes: &[u8]) -> Option<Node>
    ensures { result ≡ node_in bytes.now }
{
    if bytes.len() < 2 {
        return None;
    }
    let count = bytes[1] as usize;
    match bytes[0] {
        LEAF => read_leaf(count, &bytes[2..]),
        INNER => read_inner(count, &bytes[2..]),
        _ => None,
    }
}

/// The leaf of so many pairs.
fn read_leaf(count: usize, body: &[u8]) -> Option<Node>
    ensures { result ≡ leaf_in count body.now }
{
    let head = leaf_of(count, body)?;
    Some(Node::Leaf(read_rising(head.count, head.pairs)?))
}

/// The head of the leaf that the bytes are, if they are one; the pairs are not looked at.
pub(crate) fn leaf_head(bytes: &[u8]) -> Option<LeafHead>
    ensures some { IfSome result (λ head. node_in bytes.now ≡ leaf_with head.count head.pairs.now) }
    ensures few { IfSome result (λ head. head.count ≤ 7) }
    ensures none { IfNone result (is_leaf (node_in bytes.now) ≡ false) }
{
    if bytes.len() < 2 {
        return None;
    }
    match bytes[0] {
        LEAF => leaf_of(bytes[1] as usize, &bytes[2..]),
        _ => None,
    }
}

/// The head of the leaf of so many pairs.
fn leaf_of(count: usize, body: &[u8]) -> Option<LeafHead>
    ensures some { IfSome result (λ head. leaf_in count body.now ≡ leaf_with head.count head.pairs.now) }
    ensures few { IfSome result (λ head. head.count ≤ 7) }
    ensures none { IfNone result (leaf_in count body.now ≡ None) }
{
    if count > MOST_ENTRIES {
        return None;
    }
    Some(LeafHead { count, pairs: body })
}

/// The inner node of so many separators.
fn read_inner(count: usize, body: &[u8]) -> Option<Node>
    ensures { result ≡ inner_in count body.now }
{
    let head = head_of(count, body)?;
    Some(Node::Inner(head.first, read_rising(head.count, head.branches)?))
}

/// The head of the inner node that the bytes are, if they are one; its branches are not looked at.
pub fn inner_head(bytes: &[u8]) -> Option<InnerHead>
    ensures some { IfSome result (λ head. node_in bytes.now ≡ inner_with head.first head.count head.branches.now) }
    ensures few { IfSome result (λ head. head.count ≤ 7) }
    ensures none { IfNone result (is_inner (node_in bytes.now) ≡ false) }
{
    if bytes.len() < 2 {
        return None;
    }
    match bytes[0] {
        INNER => head_of(bytes[1] as usize, &bytes[2..]),
        _ => None,
    }
}

/// The head of the inner node of so many separators.
fn head_of(count: usize, body: &[u8]) -> Option<InnerHead>
    ensures some { IfSome result (λ head. inner_in count body.now ≡ inner_with head.first head.count head.branches.now) }
    ensures few { IfSome result (λ head. head.count ≤ 7) }
    ensures none { IfNone result (inner_in count body.now ≡ None) }
{
    if count == 0 || count > MOST_ENTRIES {
        return None;
    }
    let first = u32::read(body)?;
    Some(InnerHead {
        count,
        first,
        branches: &body[4..],
    })
}
