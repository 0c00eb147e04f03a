ghost use Rattle.std.specs.Prelude.{◌≡◌, ◌<◌, ◌≤◌, ◌^◌, ◌++◌, ◌∷◌, [], All, OnOk, length};
ghost use Rattle.write_graph.specs.Graph.{lsns};
ghost use Rattle.write_graph.specs.Cells.{held_entries};
ghost use Rattle.write_graph.specs.Naming.{AreClimbing};

use crate::entry_table::Entries;
use crate::graph::WriteGraph;
use graph_nodes::SlotGraph;
use install_order::Entry;
use oper_core::Memory;

/// Adds the entries of the slots that are held to a graph without entries.
pub(crate) fn add_held(
    entries: &Entries,
    slots: &SlotGraph,
    graph: &mut WriteGraph,
) -> Result<(), Memory>
    requires climbing { AreClimbing slots.now.held (lsns entries.now.items) }
    requires count { length slots.now.node ≡ length entries.now.items }
    requires small { length entries.now.items ≤ 2 ^ 28 }
    requires none { graph.old.entries ≡ [] }
    ensures { OnOk result (graph.new.entries ≡ held_entries slots.now.held entries.now.items) }
{
    for slot in 0..entries.len() as u32 {
        if slots.is_held(slot) {
            add_entry(entries.copy(slot), graph)?;
        }
    }
    Ok(())
}

/// Adds the entry.
fn add_entry(entry: Entry, graph: &mut WriteGraph) -> Result<(), Memory>
    requires above { All (λ n. n < entry.lsn) (lsns graph.old.entries) }
    ensures { OnOk result (graph.new.entries ≡ graph.old.entries ++ entry ∷ []) }
{
    graph.reserve()?;
    graph.add(entry);
    Ok(())
}
