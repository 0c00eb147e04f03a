ghost use Rattle.std.specs.Prelude.{◌≡◌, ◌≤◌, nat_le, None, Some, map, if◌then◌else◌};
ghost use Rattle.std.specs.List.{list_all};
ghost use Rattle.oper_core.specs.State.{State};
ghost use Rattle.logical_btree.specs.Walk as walks;
ghost use Rattle.logical_btree.specs.Walk.{children_of, node_at};
ghost use Rattle.logical_btree.specs.Below as below;
ghost use Rattle.logical_btree.specs.Below.{below_in};
ghost use Rattle.btree_ops.specs.Head.{branches_in};

use crate::Below;
use arrayvec::ArrayVec;
use btree_ops::{InnerHead, Node, inner_head};
use key_entries::{EntryField, MOST_ENTRIES, Short, entry_at, is_below};
use std::marker::Model;

/// A range of objects for an ordered map. Its first object is the root.
#[derive(Drop)]
pub struct Tree {
    lo: u32,
    hi: u32,
}

impl Model for Tree {
    ghost use Rattle.std.specs.Prelude.{◌≤◌};
    ghost use Rattle.logical_btree.specs.Walk.{Range};

    ghost Value = { Range };

    ghost view = { λ t. record { lo = t.lo; hi = t.hi } };

    ghost invariant = { λ t. t.lo ≤ t.hi };
}

impl Tree {
    /// The range from `lo` to `hi`, both in it. There is none exactly where `hi` is below `lo`.
    pub fn new(lo: u32, hi: u32) -> Option<Self>
        ensures { result ≡ (if nat_le lo hi then Some (record { lo = lo; hi = hi }) else None) }
    {
        if lo <= hi {
            Some(Tree { lo, hi })
        } else {
            None
        }
    }

    /// The first object, the root.
    pub fn root(&self) -> u32
        ensures { result ≡ self.now.lo }
    {
        self.lo
    }

    /// The last object.
    pub fn last(&self) -> u32
        ensures value { result ≡ self.now.hi }
        ensures order { self.now.lo ≤ result }
    {
        self.hi
    }

    /// The node of an object of this value, unless the object is bad. The empty value of the root is a leaf without pairs.
    pub fn node(&self, object: u32, value: &[u8]) -> Option<Node>
        ensures { (s : State) → s object ≡ value.now → result ≡ node_at self.now.lo self.now.hi s object }
    {
        let node = self.read(object, value)?;
        if self.names_children(&node) {
            Some(node)
        } else {
            None
        }
    }

    /// Where a way to a key goes on from the node of an object of this value; none where that is a leaf, or the object is bad.
    pub fn below(&self, object: u32, value: &[u8], key: Short) -> Option<Below>
        ensures { (s : State) → s object ≡ value.now → result ≡ below_in key (node_at self.now.lo self.now.hi s object) }
    {
        let head = inner_head(value)?;
        let child = self.child_below(&head, key.as_slice())?;
        Some(Below {
            child,
            full: head.count == MOST_ENTRIES,
        })
    }

    /// The child of an inner node under which a key stands, unless the rest of the node is bad. Nothing of it is copied.
    fn child_below(&self, head: &InnerHead, key: &[u8]) -> Option<u32>
        requires { head.now.count ≤ 7 }
        ensures { result ≡ below.child_below self.now.lo self.now.hi key.now head.now.first (branches_in head.now.count head.now.branches.now) }
    {
        if !self.is_child(head.first) {
            return None;
        }
        let mut child = head.first;
        let mut last: &[u8] = &[];
        let mut rest = head.branches;
        for _read in 0..head.count {
            let (separator, next): (&[u8], u32) = entry_at(rest)?;
            if !is_below(last, separator) || !self.is_child(next) {
                return None;
            }
            if !is_below(key, separator) {
                child = next;
            }
            last = separator;
            rest = &rest[1 + separator.len() + next.code_len()..];
        }
        if rest.is_empty() { Some(child) } else { None }
    }

    /// The node of an object of this value, whatever children it names.
    fn read(&self, object: u32, value: &[u8]) -> Option<Node>
        ensures { result ≡ walks.read_as self.now.lo object value.now }
    {
        if object == self.lo && value.is_empty() {
            return Some(Node::Leaf(ArrayVec::new()));
        }
        Node::read(value)
    }

    /// Each object that the node names stands in the range and is not the root.
    fn names_children(&self, node: &Node) -> bool
        ensures { result ≡ list_all (walks.is_child self.now.lo self.now.hi) (children_of node.now) }
    {
        match node {
            Node::Leaf(_) => true,
            Node::Inner(first, branches) => {
                self.is_child(*first) && self.are_children(branches.as_slice())
            }
        }
    }

    /// Each branch leads to an object of the range that is not the root.
    fn are_children(&self, branches: &[(Short, u32)]) -> bool
        ensures { result ≡ list_all (walks.is_child self.now.lo self.now.hi) (map (λ b. b.1) branches.now) }
    {
        for i in 0..branches.len() {
            if !self.is_child(branches[i].1) {
                return false;
            }
        }
        true
    }

    /// The object stands in the range and is not the root.
    fn is_child(&self, object: u32) -> bool
        ensures { result ≡ walks.is_child self.now.lo self.now.hi object }
    {
        self.lo < object && object <= self.hi
    }
}
