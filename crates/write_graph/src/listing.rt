ghost use Rattle.std.specs.Prelude.{◌≡◌, ℕ, ◌≤◌, ◌^◌, ◌++◌, ◌∷◌, [], Bool, IfOk, OnOk, length, if◌then◌else◌};
ghost use Rattle.write_graph.specs.Graph.{IsNodeNamed, NamesNode, Lists};
ghost use Rattle.write_graph.specs.Cells.{held_entries};
ghost use Rattle.write_graph.specs.Naming.{AreSlots};
ghost use Rattle.write_graph.specs.Listing.{IsLsnOf, IsWrittenBy, AreBelow, AreSlotsOf};

use crate::entry_table::Entries;
use crate::slot_names::slots_name_nodes;
use graph_nodes::SlotGraph;
use oper_core::Memory;
use std::alloc::Global;

/// The slots of the node that is named by the LSN.
pub(crate) fn slots_of(
    alloc: Global,
    n: u64,
    entries: &Entries,
    graph: &SlotGraph,
) -> Result<Vec<u32>, Memory>
    requires slots { AreSlots entries.now.items graph.now }
    requires count { length graph.now.node ≡ length entries.now.items }
    requires small { length entries.now.items ≤ 2 ^ 28 }
    requires name { NamesNode (held_entries graph.now.held entries.now.items) n }
    ensures { IfOk result (λ slots. (node : ℕ → Bool) → IsNodeNamed (held_entries graph.now.held entries.now.items) n node → AreSlotsOf entries.now.items graph.now n slots.items node) }
{
    slots_name_nodes();
    let slot = entries.slot_of(n);
    let mut slots = Vec::new(alloc);
    if graph.is_single(slot) {
        slots.push(slot)?;
        return Ok(slots);
    }
    slots.reserve(graph.len())?;
    graph.members(slot, &mut slots);
    Ok(slots)
}

/// The LSNs of the slots' entries, rising.
pub(crate) fn lsns_of(alloc: Global, slots: &[u32], entries: &Entries) -> Result<Vec<u64>, Memory>
    requires below { AreBelow slots.now entries.now.items }
    ensures { IfOk result (λ found. Lists (IsLsnOf entries.now.items slots.now) found.items) }
{
    let mut found = Vec::new(alloc);
    for slot in slots {
        found.push(entries.lsn(*slot))?;
    }
    found.sort()?;
    found.dedup();
    Ok(found)
}

/// The objects that the slots' entries write, rising.
pub(crate) fn written_by(
    alloc: Global,
    slots: &[u32],
    entries: &Entries,
) -> Result<Vec<u32>, Memory>
    requires below { AreBelow slots.now entries.now.items }
    ensures { IfOk result (λ objects. Lists (IsWrittenBy entries.now.items slots.now) objects.items) }
{
    let mut objects = Vec::new(alloc);
    for slot in slots {
        objects.extend_from_slice(entries.writes(*slot))?;
    }
    objects.sort()?;
    objects.dedup();
    Ok(objects)
}

/// Adds the LSN at the end, if it is to be kept.
pub(crate) fn push_if(x: u32, is_kept: bool, objects: &mut Vec<u32>) -> Result<(), Memory>
    ensures { OnOk result (objects.new.items ≡ objects.old.items ++ (if is_kept then x ∷ [] else [])) }
{
    if !is_kept {
        return Ok(());
    }
    objects.push(x)?;
    Ok(())
}
