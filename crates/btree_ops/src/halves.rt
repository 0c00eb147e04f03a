use crate::Node;
use key_entries::Short;

/// What a full node is split into.
#[derive(Drop)]
pub struct Halves {
    /// The node with the lower keys.
    pub left: Node,
    /// No key of the left node is at or above it, no key of the right one below it.
    pub separator: Short,
    /// The node with the higher keys.
    pub right: Node,
}
