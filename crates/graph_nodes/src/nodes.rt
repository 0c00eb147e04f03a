use crate::arcs::Arcs;
use number_lists::Chains;

/// The nodes, as a search reads them.
#[derive(Drop)]
pub(crate) struct Nodes<'a> {
    /// Where the arc of each cell leads.
    pub(crate) arcs: &'a Arcs,
    /// The slot that stands for the node of each slot.
    pub(crate) node: &'a [u32],
    /// By node, its slots.
    pub(crate) members: &'a Chains,
}
