ghost use Rattle.std.specs.Prelude.{◌≡◌, ℕ, ◌<◌, ◌≤◌, ◌/◌, ◌↔◌, length, IsTrue};
ghost use Rattle.std.specs.Vec.{vec_capacity};
ghost use Rattle.number_lists.specs.Lists.{list_at};
ghost use Rattle.graph_nodes.specs.Arcs.{AreCells, AreBelow};
ghost use Rattle.graph_nodes.specs.Kept.{IsSearchable, IsWide};
ghost use Rattle.graph_nodes.specs.Search.{IsBehind};
ghost use Rattle.graph_nodes.specs.Spread.{StartsIn, StartAmongIn, IsTakenUp, IsRoundDone, IsSpread};

use crate::arcs::Arcs;
use crate::nodes::Nodes;
use number_lists::{NumberSet, SparseChains};

/// Takes the node w and all that walks from it lead to among the nodes that were found.
pub(crate) fn spread(
    w: u32,
    nodes: &Nodes,
    into: &SparseChains,
    cells: &mut Vec<u32>,
    found: &NumberSet,
    taken: &mut NumberSet,
)
    requires start { w < taken.old.end }
    requires ends { found.now.end ≡ taken.old.end }
    requires ready { IsSearchable nodes.now.arcs.now.cells nodes.now.node.now into.now taken.old.end (vec_capacity cells.old) }
    ensures taken { IsSpread (IsBehind nodes.now.arcs.now.cells nodes.now.node.now into.now) w found.now.members taken.new.members }
    ensures wide { IsWide taken.old taken.new }
    ensures capacity { vec_capacity cells.old ≤ vec_capacity cells.new }
{
    taken.clear();
    taken.add(w);
    let mut before = 0;
    while before < taken.len() {
        before = taken.len();
        take_round(nodes.arcs, nodes.node, into, cells, found, taken);
    }
}

/// Takes each found node into which an arc leads from a taken one, in one round over the found nodes. These were found
/// against the arcs, so the round goes from the last to the first: a chain is then taken in one round.
fn take_round(
    arcs: &Arcs,
    node: &[u32],
    into: &SparseChains,
    cells: &mut Vec<u32>,
    found: &NumberSet,
    taken: &mut NumberSet,
)
    requires ends { found.now.end ≡ taken.old.end }
    requires lists { taken.old.end ≤ length into.now.lists }
    requires cells { (n : ℕ) → AreCells arcs.now.cells node.now (list_at into.now.lists n) }
    requires below { AreBelow node.now taken.old.end }
    requires room { into.now.items ≤ vec_capacity cells.old }
    ensures taken { IsRoundDone (IsBehind arcs.now.cells node.now into.now) found.now.members taken.old taken.new }
    ensures capacity { vec_capacity cells.old ≤ vec_capacity cells.new }
{
    let mut i = found.len();
    while i > 0 {
        i -= 1;
        take_up(found.get(i), arcs, node, into, cells, taken);
    }
}

/// Takes the node, where an arc leads into it from a taken one, unless it is taken.
fn take_up(
    n: u32,
    arcs: &Arcs,
    node: &[u32],
    into: &SparseChains,
    cells: &mut Vec<u32>,
    taken: &mut NumberSet,
)
    requires start { n < taken.old.end }
    requires list { n < length into.now.lists }
    requires cells { AreCells arcs.now.cells node.now (list_at into.now.lists n) }
    requires below { AreBelow node.now taken.old.end }
    requires room { into.now.items ≤ vec_capacity cells.old }
    ensures taken { IsTakenUp (IsBehind arcs.now.cells node.now into.now) n taken.old taken.new }
    ensures capacity { vec_capacity cells.old ≤ vec_capacity cells.new }
{
    if taken.contains(n) {
        return;
    }
    into.copy_to(n, cells);
    if one_starts_in(cells.as_slice(), arcs, node, taken) {
        taken.add(n);
    }
}

/// Whether the arc of one of the cells starts in a taken node.
fn one_starts_in(cells: &[u32], arcs: &Arcs, node: &[u32], taken: &NumberSet) -> bool
    requires cells { AreCells arcs.now.cells node.now cells.now }
    requires below { AreBelow node.now taken.now.end }
    ensures { IsTrue result ↔ StartAmongIn arcs.now.cells node.now cells.now taken.now.members }
{
    for c in cells {
        if starts_in(*c, arcs, node, taken) {
            return true;
        }
    }
    false
}

/// Whether the cell has an arc that starts in a taken node.
fn starts_in(cell: u32, arcs: &Arcs, node: &[u32], taken: &NumberSet) -> bool
    requires cell { cell < length arcs.now.cells }
    requires slot { cell / 8 < length node.now }
    requires below { AreBelow node.now taken.now.end }
    ensures { IsTrue result ↔ StartsIn arcs.now.cells node.now cell taken.now.members }
{
    if arcs.get(cell as usize).is_none() {
        return false;
    }
    taken.contains(node[cell as usize / 8])
}
