ghost use Rattle.std.specs.Prelude.{◌≡◌, ℕ, ◌<◌, ◌≤◌, ◌+◌, ◌*◌, ◌/◌, length, IsTrue};
ghost use Rattle.std.specs.Vec.{vec_capacity};
ghost use Rattle.oper_core.specs.State.{is_among};
ghost use Rattle.graph_nodes.specs.Arcs.{AreEnds};
ghost use Rattle.graph_nodes.specs.Ahead.{AreAhead, AreFollowed};
ghost use Rattle.graph_nodes.specs.Levels.{level_at};
ghost use Rattle.graph_nodes.specs.Kept.{IsWide};
ghost use Rattle.graph_nodes.specs.Merge.{IsFiled};

use crate::levels::level_of;
use crate::nodes::Nodes;
use number_lists::NumberSet;

/// Finds the nodes below the level that w reaches through such nodes. Answers how many cells it looked at.
pub(crate) fn find_low(
    w: u32,
    l: u32,
    nodes: &Nodes,
    level: &[u32],
    slots: &mut Vec<u32>,
    ahead: &mut NumberSet,
) -> u64
    requires start { w < ahead.old.end }
    requires low { level_at level.now w < l }
    requires filed { IsFiled nodes.now.node.now nodes.now.members.now }
    requires size { length nodes.now.arcs.now.cells ≡ 8 * length nodes.now.node.now }
    requires ends { AreEnds nodes.now.arcs.now.cells nodes.now.node.now ahead.old.end }
    requires lists { ahead.old.end ≤ length nodes.now.members.now.lists }
    requires room { nodes.now.members.now.items ≤ vec_capacity slots.old }
    ensures found { AreAhead nodes.now.arcs.now.cells nodes.now.node.now level.now l w ahead.new.members }
    ensures wide { IsWide ahead.old ahead.new }
    ensures capacity { vec_capacity slots.old ≤ vec_capacity slots.new }
{
    ahead.clear();
    ahead.add(w);
    let mut looks = 0u64;
    let mut next = 0usize;
    'steps: while next < ahead.len() {
        let n = ahead.get(next);
        nodes.members.copy_to(n, slots);
        follow_slots(slots.as_slice(), l, nodes, level, ahead);
        looks = looks.saturating_add((slots.len() as u64).saturating_mul(8));
        next += 1;
    }
    looks
}

/// Finds the nodes below the level to which arcs from the slots lead.
fn follow_slots(slots: &[u32], l: u32, nodes: &Nodes, level: &[u32], ahead: &mut NumberSet)
    requires slots { (i : ℕ) → IsTrue (is_among i slots.now) → i < length nodes.now.node.now }
    requires size { length nodes.now.arcs.now.cells ≡ 8 * length nodes.now.node.now }
    requires ends { AreEnds nodes.now.arcs.now.cells nodes.now.node.now ahead.old.end }
    ensures { AreFollowed (λ c. IsTrue (is_among (c / 8) slots.now)) nodes.now.arcs.now.cells nodes.now.node.now level.now l ahead.old ahead.new }
{
    for s in slots {
        follow_slot(*s, l, nodes, level, ahead);
    }
}

/// Finds the nodes below the level to which arcs from the slot lead.
fn follow_slot(slot: u32, l: u32, nodes: &Nodes, level: &[u32], ahead: &mut NumberSet)
    requires cells { 8 * slot + 8 ≤ length nodes.now.arcs.now.cells }
    requires ends { AreEnds nodes.now.arcs.now.cells nodes.now.node.now ahead.old.end }
    ensures { AreFollowed (λ c. c / 8 ≡ slot) nodes.now.arcs.now.cells nodes.now.node.now level.now l ahead.old ahead.new }
{
    for i in 0..8usize {
        follow_arc(8 * slot as usize + i, l, nodes, level, ahead);
    }
}

/// Finds the node to which the cell's arc leads, where it has one and the node is below the level.
fn follow_arc(cell: usize, l: u32, nodes: &Nodes, level: &[u32], ahead: &mut NumberSet)
    requires cell { cell < length nodes.now.arcs.now.cells }
    requires ends { AreEnds nodes.now.arcs.now.cells nodes.now.node.now ahead.old.end }
    ensures { AreFollowed (λ c. c ≡ cell) nodes.now.arcs.now.cells nodes.now.node.now level.now l ahead.old ahead.new }
{
    let arcs = nodes.arcs;
    let node = nodes.node;
    let Some(to) = arcs.get(cell) else {
        return;
    };
    let n = node[to as usize];
    if level_of(n, level) < l {
        ahead.add(n);
    }
}
