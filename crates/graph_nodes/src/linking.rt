ghost use Rattle.std.specs.Prelude.{◌≡◌, ℕ, ◌<◌, ◌≤◌, ◌+◌, ◌*◌, ◌/◌, ◌↔◌, Some, length, nat_eq, IsTrue};
ghost use Rattle.std.specs.List.{IsDistinct};
ghost use Rattle.std.specs.Vec.{vec_capacity};
ghost use Rattle.oper_core.specs.State.{is_among};
ghost use Rattle.number_lists.specs.Lists.{IsFree};
ghost use Rattle.graph_nodes.specs.Arcs.{arc_at, node_at};
ghost use Rattle.graph_nodes.specs.Levels.{AreLinked, IsLinkable, level_at};

use crate::levels::level_of;
use crate::nodes::Nodes;
use number_lists::{NumberSet, SparseChains};

/// Puts the cells of these nodes that have arcs to other nodes of one level into the lists of these.
pub(crate) fn link_all(
    ahead: &NumberSet,
    nodes: &Nodes,
    level: &[u32],
    near: &mut SparseChains,
    slots: &mut Vec<u32>,
)
    requires ready { IsLinkable nodes.now.arcs.now.cells nodes.now.node.now nodes.now.members.now near.old }
    requires room { nodes.now.members.now.items ≤ vec_capacity slots.old }
    requires ahead { ahead.now.end ≤ length nodes.now.node.now }
    requires free { (c j : ℕ) → IsTrue (is_among (node_at nodes.now.node.now (c / 8)) ahead.now.members) → arc_at nodes.now.arcs.now.cells c ≡ Some j → IsFree near.old.lists c }
    ensures linked { AreLinked (λ c. IsTrue (is_among (node_at nodes.now.node.now (c / 8)) ahead.now.members)) nodes.now.arcs.now.cells nodes.now.node.now level.now near.old near.new }
    ensures capacity { vec_capacity slots.old ≤ vec_capacity slots.new }
{
    for i in 0..ahead.len() {
        link_node(ahead.get(i), nodes, level, near, slots);
    }
}

/// Puts the cells of the node that have arcs to other nodes of its level into the lists of these.
fn link_node(n: u32, nodes: &Nodes, level: &[u32], near: &mut SparseChains, slots: &mut Vec<u32>)
    requires n { n < length nodes.now.node.now }
    requires ready { IsLinkable nodes.now.arcs.now.cells nodes.now.node.now nodes.now.members.now near.old }
    requires room { nodes.now.members.now.items ≤ vec_capacity slots.old }
    requires free { (c j : ℕ) → node_at nodes.now.node.now (c / 8) ≡ n → arc_at nodes.now.arcs.now.cells c ≡ Some j → IsFree near.old.lists c }
    ensures linked { AreLinked (λ c. node_at nodes.now.node.now (c / 8) ≡ n) nodes.now.arcs.now.cells nodes.now.node.now level.now near.old near.new }
    ensures capacity { vec_capacity slots.old ≤ vec_capacity slots.new }
{
    nodes.members.copy_to(n, slots);
    link_slots(slots.as_slice(), nodes, level, near);
}

/// Puts the cells of the slots that have arcs to other nodes of one level into the lists of these.
fn link_slots(slots: &[u32], nodes: &Nodes, level: &[u32], near: &mut SparseChains)
    requires slots { (i : ℕ) → IsTrue (is_among i slots.now) → i < length nodes.now.node.now }
    requires distinct { IsDistinct nat_eq slots.now }
    requires ready { IsLinkable nodes.now.arcs.now.cells nodes.now.node.now nodes.now.members.now near.old }
    requires free { (c j : ℕ) → IsTrue (is_among (c / 8) slots.now) → arc_at nodes.now.arcs.now.cells c ≡ Some j → IsFree near.old.lists c }
    ensures { AreLinked (λ c. IsTrue (is_among (c / 8) slots.now)) nodes.now.arcs.now.cells nodes.now.node.now level.now near.old near.new }
{
    for s in slots {
        link_slot(*s, nodes, level, near);
    }
}

/// Puts the cells of the slot that have arcs to other nodes of one level into the lists of these.
fn link_slot(slot: u32, nodes: &Nodes, level: &[u32], near: &mut SparseChains)
    requires slot { slot < length nodes.now.node.now }
    requires ready { IsLinkable nodes.now.arcs.now.cells nodes.now.node.now nodes.now.members.now near.old }
    requires free { (c j : ℕ) → c / 8 ≡ slot → arc_at nodes.now.arcs.now.cells c ≡ Some j → IsFree near.old.lists c }
    ensures { AreLinked (λ c. c / 8 ≡ slot) nodes.now.arcs.now.cells nodes.now.node.now level.now near.old near.new }
{
    for i in 0..8u32 {
        link_cell(8 * slot + i, nodes, level, near);
    }
}

/// Puts the cell into the list of the node to which its arc leads, if that is another one and both are of one level.
pub(crate) fn link_cell(cell: u32, nodes: &Nodes, level: &[u32], near: &mut SparseChains)
    requires cell { cell < length nodes.now.arcs.now.cells }
    requires ready { IsLinkable nodes.now.arcs.now.cells nodes.now.node.now nodes.now.members.now near.old }
    requires free { (j : ℕ) → arc_at nodes.now.arcs.now.cells cell ≡ Some j → IsFree near.old.lists cell }
    ensures { AreLinked (λ c. c ≡ cell) nodes.now.arcs.now.cells nodes.now.node.now level.now near.old near.new }
{
    let arcs = nodes.arcs;
    let node = nodes.node;
    let Some(to) = arcs.get(cell as usize) else {
        return;
    };
    let n = node[to as usize];
    if are_near(node[cell as usize / 8], n, level) {
        near.push(n, cell);
    }
}

/// Whether these are two nodes of one level.
fn are_near(m: u32, n: u32, level: &[u32]) -> bool
    ensures { IsTrue result ↔ ((m ≡ n → ⊥) × (level_at level.now m ≡ level_at level.now n)) }
{
    m != n && level_of(m, level) == level_of(n, level)
}
