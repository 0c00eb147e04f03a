ghost use Rattle.std.specs.Prelude.{◌≡◌, ℕ, ◌+◌, ◌<◌, ◌≤◌, ◌∷◌, [], nat_eq, IsTrue, IsSome, IfOk, length, MatchOption, if◌then◌else◌};
ghost use Rattle.indexmap.specs.IndexMap.{get, spare};
ghost use Rattle.oper_core.specs.State.{is_among};
ghost use Rattle.graph_nodes.specs.Arcs.{node_at};
ghost use Rattle.write_graph.specs.Graph.{Lists};
ghost use Rattle.write_graph.specs.Cells.{writes_of};
ghost use Rattle.write_graph.specs.Linked.{AreLinked};
ghost use Rattle.write_graph.specs.Listing.{AreBelow, IsWrittenBy};
ghost use Rattle.write_graph.specs.Firsts.{noted, ArePassed, IsOutside};

use crate::entry_table::Entries;
use crate::links::Links;
use graph_nodes::SlotGraph;
use indexmap::IndexMap;
use oper_core::Memory;
use std::alloc::Global;

/// Notes the slot as the first writer of those of the objects that have none.
pub(crate) fn note_writes(slot: u32, objects: &[u32], firsts: &mut IndexMap<u32, u32>)
    requires { length objects.now ≤ spare firsts.old }
    ensures noted { (x : ℕ) → get nat_eq firsts.new x ≡ noted objects.now slot (get nat_eq firsts.old) x }
    ensures room { spare firsts.old ≤ spare firsts.new + length objects.now }
{
    for x in objects {
        note_write(slot, *x, firsts);
    }
}

/// Notes the slot as the first writer of the object, if it has none.
fn note_write(slot: u32, x: u32, firsts: &mut IndexMap<u32, u32>)
    requires { 0 < spare firsts.old }
    ensures noted { (y : ℕ) → get nat_eq firsts.new y ≡ noted (x ∷ []) slot (get nat_eq firsts.old) y }
    ensures room { spare firsts.old ≤ spare firsts.new + 1 }
{
    if firsts.contains_key(&x) {
        return;
    }
    let Ok(_) = firsts.insert(x, slot) else {
        unreachable!()
    };
}

/// Lets the objects that these slots of the node write have first writers outside it. It takes a step for each write.
pub(crate) fn pass_over(
    slots: &[u32],
    node: u32,
    links: &Links,
    entries: &Entries,
    firsts: &mut IndexMap<u32, u32>,
)
    requires linked { AreLinked entries.now.items links.now.graph links.now.rows }
    requires below { AreBelow slots.now entries.now.items }
    requires passed { ArePassed entries.now.items links.now.graph node (get nat_eq firsts.old) }
    ensures passed { ArePassed entries.now.items links.now.graph node (get nat_eq firsts.new) }
    ensures outside { (x : ℕ) → IsWrittenBy entries.now.items slots.now x → IsOutside links.now.graph node (get nat_eq firsts.new x) }
    ensures room { spare firsts.old ≤ spare firsts.new }
{
    for slot in slots {
        pass_writes(*slot, node, links, entries, firsts);
    }
}

/// Lets the objects that the slot writes have first writers outside the node.
fn pass_writes(
    slot: u32,
    node: u32,
    links: &Links,
    entries: &Entries,
    firsts: &mut IndexMap<u32, u32>,
)
    requires slot { slot < length entries.now.items }
    requires linked { AreLinked entries.now.items links.now.graph links.now.rows }
    requires passed { ArePassed entries.now.items links.now.graph node (get nat_eq firsts.old) }
    ensures passed { ArePassed entries.now.items links.now.graph node (get nat_eq firsts.new) }
    ensures outside { (x : ℕ) → IsTrue (is_among x (writes_of entries.now.items slot)) → IsOutside links.now.graph node (get nat_eq firsts.new x) }
    ensures stays { (x : ℕ) → IsOutside links.now.graph node (get nat_eq firsts.old x) → IsOutside links.now.graph node (get nat_eq firsts.new x) }
    ensures room { spare firsts.old ≤ spare firsts.new }
{
    for x in entries.writes(slot) {
        pass_write(*x, node, links, entries, firsts);
    }
}

/// Lets the object have a first writer outside the node: the next writer in the place of each that is of the node.
fn pass_write(x: u32, node: u32, links: &Links, entries: &Entries, firsts: &mut IndexMap<u32, u32>)
    requires linked { AreLinked entries.now.items links.now.graph links.now.rows }
    requires passed { ArePassed entries.now.items links.now.graph node (get nat_eq firsts.old) }
    ensures passed { ArePassed entries.now.items links.now.graph node (get nat_eq firsts.new) }
    ensures here { IsOutside links.now.graph node (get nat_eq firsts.new x) }
    ensures others { (y : ℕ) → (y ≡ x → ⊥) → get nat_eq firsts.new y ≡ get nat_eq firsts.old y }
    ensures room { spare firsts.old ≤ spare firsts.new }
{
    'writers: while let Some(slot) = first_within(x, node, &links.graph, firsts) {
        let next = links.next_writer(x, slot, entries);
        set_first(x, next, firsts);
    }
}

/// The first writer of the object, if it is of the node.
fn first_within(x: u32, node: u32, graph: &SlotGraph, firsts: &IndexMap<u32, u32>) -> Option<u32>
    requires { (i : ℕ) → get nat_eq firsts.now x ≡ Some i → i < length graph.now.node }
    ensures { MatchOption result (IsOutside graph.now node (get nat_eq firsts.now x)) (λ i. (get nat_eq firsts.now x ≡ Some i) × (node_at graph.now.node i ≡ node)) }
{
    let slot = *firsts.get(&x)?;
    if graph.node(slot) == node {
        Some(slot)
    } else {
        None
    }
}

/// Puts another first writer, or none, in the place of the object's.
fn set_first(x: u32, first: Option<u32>, firsts: &mut IndexMap<u32, u32>)
    requires { IsSome (get nat_eq firsts.old x) }
    ensures first { (y : ℕ) → get nat_eq firsts.new y ≡ (if nat_eq x y then first else get nat_eq firsts.old y) }
    ensures room { spare firsts.old ≤ spare firsts.new }
{
    let Some(slot) = first else {
        firsts.swap_remove(&x);
        return;
    };
    if let Some(place) = firsts.get_mut(&x) {
        *place = slot;
    }
}

/// The objects that have a first writer, rising.
pub(crate) fn written(alloc: Global, firsts: &IndexMap<u32, u32>) -> Result<Vec<u32>, Memory>
    ensures { IfOk result (λ objects. Lists (λ x. IsSome (get nat_eq firsts.now x)) objects.items) }
{
    let mut objects = Vec::new(alloc);
    objects.extend_from_slice(firsts.keys().as_slice())?;
    objects.sort()?;
    Ok(objects)
}
