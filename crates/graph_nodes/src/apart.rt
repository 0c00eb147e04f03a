ghost use Rattle.std.specs.Prelude.{◌<◌, ◌≤◌, ◌+◌, ◌*◌, ◌/◌, ◌↔◌, length, IsTrue};
ghost use Rattle.number_lists.specs.Lists.{list_at};
ghost use Rattle.graph_nodes.specs.Arcs.{AreCells, IsStartOf};
ghost use Rattle.graph_nodes.specs.Search.{HasNoArcs, IsBare, IsBehind};

use crate::arcs::Arcs;
use crate::nodes::Nodes;
use number_lists::{Chains, SparseChains};

/// Whether the first cell in the list of the node w has an arc from the node v.
/// It is asked before a search: histories in which each object is made from the one before bring such arcs nearly alone.
pub(crate) fn is_led_from(v: u32, w: u32, nodes: &Nodes, into: &SparseChains) -> bool
    requires list { w < length into.now.lists }
    requires cells { AreCells nodes.now.arcs.now.cells nodes.now.node.now (list_at into.now.lists w) }
    ensures { IsTrue result → IsBehind nodes.now.arcs.now.cells nodes.now.node.now into.now v w }
{
    let Some(cell) = into.first(w) else {
        return false;
    };
    is_start_of(cell, v, nodes.arcs, nodes.node)
}

/// Whether the cell has an arc, which starts in the node n.
fn is_start_of(cell: u32, n: u32, arcs: &Arcs, node: &[u32]) -> bool
    requires cell { cell < length arcs.now.cells }
    requires slot { cell / 8 < length node.now }
    ensures { IsTrue result ↔ IsStartOf arcs.now.cells node.now cell n }
{
    node[cell as usize / 8] == n && arcs.get(cell as usize).is_some()
}

/// Whether it is clear without a search that no arc leads away from the node: it is one slot, which has none.
pub(crate) fn is_bare(n: u32, arcs: &Arcs, members: &Chains) -> bool
    requires list { n < length members.now.lists }
    requires cells { 8 * n + 8 ≤ length arcs.now.cells }
    ensures { IsTrue result → IsBare arcs.now.cells members.now n }
{
    members.count(n) == 1 && has_no_arcs(n, arcs)
}

/// Whether none of the slot's eight cells has an arc.
fn has_no_arcs(slot: u32, arcs: &Arcs) -> bool
    requires { 8 * slot + 8 ≤ length arcs.now.cells }
    ensures { IsTrue result → HasNoArcs arcs.now.cells slot }
{
    for i in 0..8usize {
        if arcs.get(8 * slot as usize + i).is_some() {
            return false;
        }
    }
    true
}
