ghost use Rattle.std.specs.Prelude.{◌<◌, ◌/◌, ◌↔◌, length, IsTrue};
ghost use Rattle.number_lists.specs.Lists.{list_at};
ghost use Rattle.graph_nodes.specs.Arcs.{AreCells, IsFromOutside};
ghost use Rattle.graph_nodes.specs.Into.{IsSettled};

use crate::arcs::Arcs;
use number_lists::SparseChains;

/// Drops cells from the front of the node's list until the first one has an arc from another node.
pub(crate) fn settle(n: u32, arcs: &Arcs, node: &[u32], into: &mut SparseChains)
    requires list { n < length into.old.lists }
    requires cells { AreCells arcs.now.cells node.now (list_at into.old.lists n) }
    ensures { IsSettled arcs.now.cells node.now n into.old into.new }
{
    'cells: while let Some(cell) = into.pop(n) {
        if is_from_outside(cell, n, arcs, node) {
            into.push(n, cell);
            return;
        }
    }
}

/// Whether the cell has an arc, which starts in another node than n.
pub(crate) fn is_from_outside(cell: u32, n: u32, arcs: &Arcs, node: &[u32]) -> bool
    requires cell { cell < length arcs.now.cells }
    requires slot { cell / 8 < length node.now }
    ensures { IsTrue result ↔ IsFromOutside arcs.now.cells node.now cell n }
{
    node[cell as usize / 8] != n && arcs.get(cell as usize).is_some()
}
