ghost use Rattle.std.specs.Prelude.{◌≡◌, ◌<◌, ◌++◌, ◌∷◌, [], IfOk, OnOk, length};
ghost use Rattle.btree_ops.specs.Node.{node_code};
ghost use Rattle.btree_ops.specs.Operation.{bytes_of};

use crate::Node;
use oper_core::{ByteList, Memory, Values};
use std::alloc::Global;

/// The new nodes that an operation makes, in the order of the objects that it writes.
#[derive(Drop)]
pub enum Made {
    /// Of the one object.
    One(Node),
    /// Of the three objects of a split.
    Three(Node, Node, Node),
}

impl Made {
    /// Their bytes, a value for each.
    pub fn values(&self, alloc: Global) -> Result<Values, Memory>
        ensures { IfOk result (λ values. values ≡ bytes_of self.now) }
    {
        let mut values = Values::new(alloc);
        match self {
            Made::One(node) => push_node(alloc, &mut values, node)?,
            Made::Three(first, second, third) => {
                push_node(alloc, &mut values, first)?;
                push_node(alloc, &mut values, second)?;
                push_node(alloc, &mut values, third)?;
            }
        }
        Ok(values)
    }
}

/// Adds the node's bytes as the last value.
fn push_node(alloc: Global, values: &mut Values, node: &Node) -> Result<(), Memory>
    requires { length values.old < 4 }
    ensures { OnOk result (values.new ≡ values.old ++ node_code node.now ∷ []) }
{
    values.push_list(ByteList::new(node.bytes(alloc)?));
    Ok(())
}
