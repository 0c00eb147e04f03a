ghost use Rattle.std.specs.Prelude.{◌≡◌};
ghost use Rattle.logical_btree.specs.Plan as plans;

use btree_ops::Node;

/// The node has seven keys, so it is split before it gets one more.
pub fn is_full(node: &Node) -> bool
    ensures { result ≡ plans.is_full node.now }
{
    match node {
        Node::Leaf(pairs) => pairs.is_full(),
        Node::Inner(_, branches) => branches.is_full(),
    }
}
