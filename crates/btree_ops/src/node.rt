ghost use Rattle.std.specs.Prelude.{◌≡◌, IfOk, IfSome, IfNone, length};
ghost use Rattle.btree_ops.specs.Node.{node_code, node_in, IsNode};
ghost use Rattle.btree_ops.specs.NodeLaws.{IsNodeOf};
ghost use Rattle.btree_ops.specs.declared.node.Node.{Node};

use crate::reading;
use arrayvec::ArrayVec;
use key_entries::{Pairs, Short, entries_len, write_entries};
use oper_core::Memory;
use std::alloc::Global;

/// Separators, each with the child to its right.
pub type Branches = ArrayVec<(Short, u32), 7>;

/// A node of a B-tree.
#[derive(Drop)]
pub enum Node {
    /// Pairs of a key and a value.
    Leaf(Pairs),
    /// The first child, and separators, each with the child to its right. A key below the first separator stands
    /// under the first child, any other under the child of the last separator that is not above it.
    Inner(u32, Branches),
}

impl Node {
    /// The node that the bytes are, exactly where they are one.
    pub fn read(bytes: &[u8]) -> Option<Self>
        ensures value { result ≡ node_in bytes.now }
        ensures some { IfSome result (λ node. IsNodeOf bytes.now node) }
        ensures none { IfNone result ((node : Node) → IsNode node → bytes.now ≡ node_code node → ⊥) }
    {
        reading::read_node(bytes)
    }

    /// Its bytes.
    pub fn bytes(&self, alloc: Global) -> Result<Vec<u8>, Memory>
        ensures { IfOk result (λ out. out.items ≡ node_code self.now) }
    {
        let mut out = Vec::new(alloc);
        out.reserve(self.code_len())?;
        match self {
            Node::Leaf(pairs) => {
                out.push(LEAF)?;
                out.push(pairs.len() as u8)?;
                write_entries(pairs.as_slice(), &mut out)?;
            }
            Node::Inner(first, branches) => {
                out.push(INNER)?;
                out.push(branches.len() as u8)?;
                out.extend_from_slice(&first.to_le_bytes())?;
                write_entries(branches.as_slice(), &mut out)?;
            }
        }
        Ok(out)
    }

    /// How many bytes it has.
    fn code_len(&self) -> usize
        ensures { result ≡ length (node_code self.now) }
    {
        match self {
            Node::Leaf(pairs) => 2 + entries_len(pairs.as_slice()),
            Node::Inner(_, branches) => 6 + entries_len(branches.as_slice()),
        }
    }
}

/// The kind of a leaf.
pub(crate) const LEAF: u8 = 1;

/// The kind of an inner node.
pub(crate) const INNER: u8 = 2;
