//! The splits of full nodes.

ghost use Rattle.std.specs.Prelude.{◌≡◌, ◌≤◌, Some, None, IfSome, IfNone, insert, length, List, ℕ};
ghost use Rattle.btree_ops.specs.Node.{node_in};
ghost use Rattle.btree_ops.specs.Effects as effects;
ghost use Rattle.btree_ops.specs.Effects.{halves_in, leaf_halves, inner_halves, behind_child, split_child_made, split_root_made};

use crate::{Halves, Made, Node};
use arrayvec::ArrayVec;
use key_entries::{MOST_ENTRIES, Short};
use oper_core::Refusal;

/// Splits a full child of the inner node that a value is. The new object is for the upper half.
pub(crate) fn split_child(parent: &[u8], node: &[u8], child: u32, new: u32) -> Result<Made, Refusal>
    ensures { result ≡ split_child_made child new (node_in parent.now) (halves_in (node_in node.now)) }
{
    let Some(Node::Inner(first, branches)) = Node::read(parent) else {
        return Err(Refusal::NotNode);
    };
    let Some(halves) = halves_of(node) else {
        return Err(Refusal::NotNode);
    };
    let Some(at) = place_after(child, first, branches.as_slice()) else {
        return Err(Refusal::NotNode);
    };
    if branches.is_full() {
        return Err(Refusal::NodeFull);
    }
    let mut branches = branches;
    branches.insert(at, (halves.separator, new));
    Ok(Made::Three(Node::Inner(first, branches), halves.left, halves.right))
}

/// Splits the full node that a value is, and makes it an inner node over its halves.
pub(crate) fn split_root(root: &[u8], left: u32, right: u32) -> Result<Made, Refusal>
    ensures { result ≡ split_root_made left right (halves_in (node_in root.now)) }
{
    let Some(halves) = halves_of(root) else {
        return Err(Refusal::NotNode);
    };
    let mut branches = ArrayVec::new();
    branches.push((halves.separator, right));
    Ok(Made::Three(Node::Inner(left, branches), halves.left, halves.right))
}

/// The halves of the full node that a value is.
fn halves_of(value: &[u8]) -> Option<Halves>
    ensures { result ≡ halves_in (node_in value.now) }
{
    match Node::read(value)? {
        Node::Leaf(pairs) => leaf_halves(pairs.as_slice()),
        Node::Inner(first, branches) => inner_halves(first, branches.as_slice()),
    }
}

/// The halves of a full leaf.
fn leaf_halves(pairs: &[(Short, Short)]) -> Option<Halves>
    requires { length pairs.now ≤ 7 }
    ensures { result ≡ effects.leaf_halves pairs.now }
{
    if pairs.len() < MOST_ENTRIES {
        return None;
    }
    Some(Halves {
        left: Node::Leaf(listed(&pairs[..3])),
        separator: pairs[3].0,
        right: Node::Leaf(listed(&pairs[3..])),
    })
}

/// The halves of a full inner node.
fn inner_halves(first: u32, branches: &[(Short, u32)]) -> Option<Halves>
    requires { length branches.now ≤ 7 }
    ensures { result ≡ effects.inner_halves first branches.now }
{
    if branches.len() < MOST_ENTRIES {
        return None;
    }
    let (separator, middle) = branches[3];
    Some(Halves {
        left: Node::Inner(first, listed(&branches[..3])),
        separator,
        right: Node::Inner(middle, listed(&branches[4..])),
    })
}

/// The entries, of which a node has room for all.
fn listed<T: Copy + Default>(entries: &[T]) -> ArrayVec<T, 7>
    requires { length entries.now ≤ 7 }
    ensures { result.items ≡ entries.now }
{
    let mut all = ArrayVec::new();
    for entry in entries {
        all.push(*entry);
    }
    all
}

/// The place directly after the first branch that leads to the child, if one does.
fn place_after(child: u32, first: u32, branches: &[(Short, u32)]) -> Option<usize>
    ensures some { IfSome result (λ at. (new : List ℕ × ℕ) → behind_child child new first branches.now ≡ Some (insert branches.now at new)) }
    ensures within { IfSome result (λ at. at ≤ length branches.now) }
    ensures none { IfNone result ((new : List ℕ × ℕ) → behind_child child new first branches.now ≡ None) }
{
    if first == child {
        return Some(0);
    }
    for i in 0..branches.len() {
        if branches[i].1 == child {
            return Some(i + 1);
        }
    }
    None
}
