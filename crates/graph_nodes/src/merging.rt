ghost use Rattle.std.specs.Prelude.{◌≡◌, ℕ, ◌<◌, ◌≤◌, ◌⊎◌, length, IsTrue};
ghost use Rattle.std.specs.Vec.{vec_capacity};
ghost use Rattle.oper_core.specs.State.{is_among};
ghost use Rattle.graph_nodes.specs.Kept.{AreGathered};
ghost use Rattle.graph_nodes.specs.Merge.{IsFiled, IsRelabelled, IsAbsorbed, AreMerged, AreMoved, gathered, renamed};

use crate::names::Names;
use number_lists::{Chains, NumberSet, SparseChains};

/// Merges all taken nodes into one of them.
fn merge(
    one: u32,
    taken: &NumberSet,
    node: &mut [u32],
    members: &mut Chains,
    into: &mut SparseChains,
    slots: &mut Vec<u32>,
)
    requires one { one < length members.old.lists }
    requires taken { taken.now.end ≤ length members.old.lists }
    requires lists { length into.old.lists ≡ length members.old.lists }
    requires filed { IsFiled node.old members.old }
    requires room { members.old.items ≤ vec_capacity slots.old }
    ensures merged { AreMerged taken.now.members one node.old node.new members.old members.new into.old into.new }
    ensures capacity { vec_capacity slots.old ≤ vec_capacity slots.new }
{
    for i in 0..taken.len() {
        absorb(taken.get(i), one, node, members, into, slots);
    }
}

/// Makes the taken nodes, if there are any, one, which has the least of their names.
pub(crate) fn gather(
    taken: &NumberSet,
    node: &mut [u32],
    names: &mut Names,
    members: &mut Chains,
    into: &mut SparseChains,
    slots: &mut Vec<u32>,
)
    requires taken { taken.now.end ≤ length members.old.lists }
    requires names { taken.now.end ≤ length names.old.name }
    requires lists { length into.old.lists ≡ length members.old.lists }
    requires filed { IsFiled node.old members.old }
    requires room { members.old.items ≤ vec_capacity slots.old }
    ensures gathered { AreGathered taken.now.members node.old node.new names.old names.new members.old members.new into.old into.new }
    ensures capacity { vec_capacity slots.old ≤ vec_capacity slots.new }
{
    if taken.len() == 0 {
        return;
    }
    let one = largest(taken, members);
    names.merge(one, taken);
    merge(one, taken, node, members, into, slots);
}

/// Moves the cells in the lists of the taken nodes to the list of one of them.
pub(crate) fn join_lists(one: u32, taken: &NumberSet, lists: &mut SparseChains)
    requires one { one < length lists.old.lists }
    requires taken { taken.now.end ≤ length lists.old.lists }
    ensures { AreMoved (gathered taken.now.members one) lists.old lists.new }
{
    for i in 0..taken.len() {
        join_list(taken.get(i), one, lists);
    }
}

/// Moves the cells in the list of the node to that of another, unless they are the same.
fn join_list(n: u32, one: u32, lists: &mut SparseChains)
    requires n { n < length lists.old.lists }
    requires one { one < length lists.old.lists }
    ensures { AreMoved (renamed n one) lists.old lists.new }
{
    if n != one {
        lists.pour(n, one);
    }
}

/// The taken node with most members.
fn largest(taken: &NumberSet, members: &Chains) -> u32
    requires some { 0 < length taken.now.members }
    requires lists { taken.now.end ≤ length members.now.lists }
    ensures there { IsTrue (is_among result taken.now.members) }
    ensures below { result < taken.now.end }
{
    let mut one = taken.get(0);
    for i in 0..taken.len() {
        one = larger(one, taken.get(i), members);
    }
    one
}

/// Of two nodes the one with more members.
fn larger(left: u32, right: u32, members: &Chains) -> u32
    requires left { left < length members.now.lists }
    requires right { right < length members.now.lists }
    ensures { (result ≡ left) ⊎ (result ≡ right) }
{
    if members.count(left) < members.count(right) {
        right
    } else {
        left
    }
}

/// Merges a node into another, unless they are the same.
fn absorb(
    n: u32,
    one: u32,
    node: &mut [u32],
    members: &mut Chains,
    into: &mut SparseChains,
    slots: &mut Vec<u32>,
)
    requires n { n < length members.old.lists }
    requires one { one < length members.old.lists }
    requires lists { length into.old.lists ≡ length members.old.lists }
    requires filed { IsFiled node.old members.old }
    requires room { members.old.items ≤ vec_capacity slots.old }
    ensures absorbed { IsAbsorbed n one node.old node.new members.old members.new into.old into.new }
    ensures capacity { vec_capacity slots.old ≤ vec_capacity slots.new }
{
    if n == one {
        return;
    }
    members.copy_to(n, slots);
    relabel(slots.as_slice(), one, node);
    members.pour(n, one);
    into.pour(n, one);
}

/// Lets `one` stand for the slots.
fn relabel(slots: &[u32], one: u32, node: &mut [u32])
    requires { (i : ℕ) → IsTrue (is_among i slots.now) → i < length node.old }
    ensures { IsRelabelled slots.now one node.old node.new }
{
    for m in slots {
        node[*m as usize] = one;
    }
}
