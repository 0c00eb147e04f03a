ghost use Rattle.std.specs.Prelude.{◌≡◌, ◌<◌, ◌≤◌, ◌/◌, length};
ghost use Rattle.std.specs.Vec.{vec_capacity};
ghost use Rattle.number_lists.specs.Lists.{list_at};
ghost use Rattle.graph_nodes.specs.Arcs.{AreCells, AreBelow};
ghost use Rattle.graph_nodes.specs.Search.{IsLookedBack, AreLookedBack, IsExpanded, IsSearching, IsStepBack};
ghost use Rattle.graph_nodes.specs.Kept.{IsSearchable, IsWide};

use crate::arcs::Arcs;
use crate::front::Front;
use crate::nodes::Nodes;
use crate::searches::Searches;
use number_lists::{NumberSet, SparseChains};

/// Searches from v against the arcs of the cells in the lists, until the search is over or has looked at more cells than
/// so many.
pub(crate) fn look(
    v: u32,
    stop: u32,
    looks: u64,
    nodes: &Nodes,
    near: &SparseChains,
    searches: &mut Searches,
)
    requires start { v < searches.old.found.end }
    requires ready { IsSearchable nodes.now.arcs.now.cells nodes.now.node.now near.now searches.old.found.end (vec_capacity searches.old.cells) }
    ensures against { IsSearching nodes.now.arcs.now.cells nodes.now.node.now near.now v stop searches.new.back.next searches.new.found.members }
    ensures found { IsWide searches.old.found searches.new.found }
    ensures ahead { searches.new.ahead ≡ searches.old.ahead }
    ensures capacity { vec_capacity searches.old.cells ≤ vec_capacity searches.new.cells }
{
    searches.found.clear();
    searches.found.add(v);
    searches.back.next = 0;
    searches.back.spent = 0;
    'steps: while searches.back.next < searches.found.len() {
        if searches.back.spent > looks {
            return;
        }
        step_back(
            stop,
            nodes,
            near,
            &mut searches.cells,
            &mut searches.found,
            &mut searches.back,
        );
    }
}

/// The same, until the search is over.
pub(crate) fn look_all(
    v: u32,
    stop: u32,
    nodes: &Nodes,
    near: &SparseChains,
    searches: &mut Searches,
)
    requires start { v < searches.old.found.end }
    requires ready { IsSearchable nodes.now.arcs.now.cells nodes.now.node.now near.now searches.old.found.end (vec_capacity searches.old.cells) }
    ensures against { IsSearching nodes.now.arcs.now.cells nodes.now.node.now near.now v stop searches.new.back.next searches.new.found.members }
    ensures over { length searches.new.found.members ≤ searches.new.back.next }
    ensures found { IsWide searches.old.found searches.new.found }
    ensures ahead { searches.new.ahead ≡ searches.old.ahead }
    ensures capacity { vec_capacity searches.old.cells ≤ vec_capacity searches.new.cells }
{
    searches.found.clear();
    searches.found.add(v);
    searches.back.next = 0;
    searches.back.spent = 0;
    'steps: while searches.back.next < searches.found.len() {
        step_back(
            stop,
            nodes,
            near,
            &mut searches.cells,
            &mut searches.found,
            &mut searches.back,
        );
    }
}

/// Looks past the next found node, if that is not where the search stops.
fn step_back(
    stop: u32,
    nodes: &Nodes,
    near: &SparseChains,
    cells: &mut Vec<u32>,
    found: &mut NumberSet,
    back: &mut Front,
)
    requires next { back.old.next < length found.old.members }
    requires ready { IsSearchable nodes.now.arcs.now.cells nodes.now.node.now near.now found.old.end (vec_capacity cells.old) }
    ensures step { IsStepBack nodes.now.arcs.now.cells nodes.now.node.now near.now stop back.old.next back.new.next found.old found.new }
    ensures capacity { vec_capacity cells.old ≤ vec_capacity cells.new }
{
    let _ = found.len();
    let n = found.get(back.next);
    if n != stop {
        back.spent = back.spent.saturating_add(near.count(n) as u64);
    }
    expand(n, stop, nodes.arcs, nodes.node, near, cells, found);
    back.next += 1;
}

/// Finds the nodes from which an arc leads to the node n, if that is not where the search stops.
fn expand(
    n: u32,
    stop: u32,
    arcs: &Arcs,
    node: &[u32],
    into: &SparseChains,
    cells: &mut Vec<u32>,
    found: &mut NumberSet,
)
    requires list { n < length into.now.lists }
    requires cells { AreCells arcs.now.cells node.now (list_at into.now.lists n) }
    requires below { AreBelow node.now found.old.end }
    requires room { into.now.items ≤ vec_capacity cells.old }
    ensures found { IsExpanded arcs.now.cells node.now into.now n stop found.old found.new }
    ensures capacity { vec_capacity cells.old ≤ vec_capacity cells.new }
{
    if n == stop {
        return;
    }
    into.copy_to(n, cells);
    look_back_all(cells.as_slice(), arcs, node, found);
}

/// Finds the nodes from which the cells' arcs lead.
fn look_back_all(cells: &[u32], arcs: &Arcs, node: &[u32], found: &mut NumberSet)
    requires cells { AreCells arcs.now.cells node.now cells.now }
    requires below { AreBelow node.now found.old.end }
    ensures { AreLookedBack arcs.now.cells node.now cells.now found.old found.new }
{
    for c in cells {
        look_back(*c, arcs, node, found);
    }
}

/// Finds the node from which the cell's arc leads, where it has one.
fn look_back(cell: u32, arcs: &Arcs, node: &[u32], found: &mut NumberSet)
    requires cell { cell < length arcs.now.cells }
    requires slot { cell / 8 < length node.now }
    requires below { AreBelow node.now found.old.end }
    ensures { IsLookedBack arcs.now.cells node.now cell found.old found.new }
{
    if arcs.get(cell as usize).is_none() {
        return;
    }
    found.add(node[cell as usize / 8]);
}
