ghost use Rattle.std.specs.Prelude.{◌≡◌, ℕ, ◌<◌, ◌≤◌, ◌/◌, [], IsTrue, nat_eq, length};
ghost use Rattle.std.specs.List.{IsDistinct};
ghost use Rattle.oper_core.specs.State.{is_among};
ghost use Rattle.std.specs.Vec.{vec_capacity};
ghost use Rattle.number_lists.specs.Lists.{list_at, IsFree};
ghost use Rattle.graph_nodes.specs.Arcs.{AreCells};
ghost use Rattle.graph_nodes.specs.Into.{IsSettled, IsPutBack, ArePutBack};
ghost use Rattle.graph_nodes.specs.Kept.{IsSearchable};
ghost use Rattle.graph_nodes.specs.Levels.{ArePruned};

use crate::arcs::Arcs;
use crate::nodes::Nodes;
use crate::settling::{is_from_outside, settle};
use number_lists::{NumberSet, SparseChains};

/// How many arcs have to be inserted for each cell that is looked at: a look is dear where there are many slots, since it
/// waits for memory.
const PRICE: u64 = 4;

/// With fewer cells a list is short.
const SHORT: usize = 8;

/// Drops the cells without an arc from another node: all in the node's list, where it is not short and so many looks were
/// saved up, else those in front. So the lists stay short, at a cost of a look for every few calls.
pub(crate) fn tidy(
    n: u32,
    arcs: &Arcs,
    node: &[u32],
    into: &mut SparseChains,
    cells: &mut Vec<u32>,
    saved: &mut u64,
)
    requires list { n < length into.old.lists }
    requires cells { AreCells arcs.now.cells node.now (list_at into.old.lists n) }
    requires items { length arcs.now.cells ≤ into.old.items }
    requires room { into.old.items ≤ vec_capacity cells.old }
    ensures settled { IsSettled arcs.now.cells node.now n into.old into.new }
    ensures capacity { vec_capacity cells.old ≤ vec_capacity cells.new }
{
    *saved = saved.saturating_add(1);
    let count = into.count(n);
    let cost = PRICE.saturating_mul(count as u64);
    if count < SHORT || *saved < cost {
        settle(n, arcs, node, into);
        return;
    }
    *saved -= cost;
    prune(n, arcs, node, into, cells);
}

/// Drops all cells without an arc from another node from the lists of the first so many found nodes, but not from that of
/// the node where the search stopped. So no search looks at such a cell that another one has looked at.
pub(crate) fn prune_found(
    stop: u32,
    count: usize,
    nodes: &Nodes,
    near: &mut SparseChains,
    cells: &mut Vec<u32>,
    found: &NumberSet,
)
    requires ready { IsSearchable nodes.now.arcs.now.cells nodes.now.node.now near.old found.now.end (vec_capacity cells.old) }
    requires items { length nodes.now.arcs.now.cells ≤ near.old.items }
    ensures pruned { ArePruned nodes.now.arcs.now.cells nodes.now.node.now near.old near.new }
    ensures capacity { vec_capacity cells.old ≤ vec_capacity cells.new }
{
    for i in 0..found.len() {
        if i >= count {
            return;
        }
        let n = found.get(i);
        if n != stop {
            prune(n, nodes.arcs, nodes.node, near, cells);
        }
    }
}

/// Drops all cells without an arc from another node from the node's list.
fn prune(n: u32, arcs: &Arcs, node: &[u32], into: &mut SparseChains, cells: &mut Vec<u32>)
    requires list { n < length into.old.lists }
    requires cells { AreCells arcs.now.cells node.now (list_at into.old.lists n) }
    requires items { length arcs.now.cells ≤ into.old.items }
    requires room { into.old.items ≤ vec_capacity cells.old }
    ensures settled { IsSettled arcs.now.cells node.now n into.old into.new }
    ensures capacity { vec_capacity cells.old ≤ vec_capacity cells.new }
{
    into.copy_to(n, cells);
    into.clear(n);
    put_back(cells.as_slice(), n, arcs, node, into);
}

/// Puts those of the cells into the node's empty list that have an arc from another node.
fn put_back(cells: &[u32], n: u32, arcs: &Arcs, node: &[u32], into: &mut SparseChains)
    requires list { n < length into.old.lists }
    requires cells { AreCells arcs.now.cells node.now cells.now }
    requires distinct { IsDistinct nat_eq cells.now }
    requires items { (c : ℕ) → IsTrue (is_among c cells.now) → c < into.old.items }
    requires free { (c : ℕ) → IsTrue (is_among c cells.now) → IsFree into.old.lists c }
    requires empty { list_at into.old.lists n ≡ [] }
    ensures { ArePutBack arcs.now.cells node.now n cells.now into.old into.new }
{
    for c in cells {
        push_if_outside(*c, n, arcs, node, into);
    }
}

/// Puts the cell into the node's list, if it has an arc from another node.
fn push_if_outside(cell: u32, n: u32, arcs: &Arcs, node: &[u32], into: &mut SparseChains)
    requires list { n < length into.old.lists }
    requires cell { cell < length arcs.now.cells }
    requires slot { cell / 8 < length node.now }
    requires item { cell < into.old.items }
    requires free { IsFree into.old.lists cell }
    ensures { IsPutBack arcs.now.cells node.now cell n into.old into.new }
{
    if is_from_outside(cell, n, arcs, node) {
        into.push(n, cell);
    }
}
