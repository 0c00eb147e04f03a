ghost use Rattle.std.specs.Prelude.{ℕ, Bool, List, slice_index};
ghost use Rattle.install_order.specs.declared.entry.Entry.{Entry as AnEntry};
ghost use Rattle.graph_nodes.specs.Named.{Graph, IsName};
ghost use Rattle.write_graph.specs.Graph.{lsns, IsNodeNamed, NamesNode};
ghost use Rattle.write_graph.specs.Cells.{held_entries};
ghost use Rattle.write_graph.specs.Naming.{AreSlots, IsSlotOf};

use install_order::{no_arc_is_no_edge, nodes_stand_for_nodes, representatives_tell_nodes};

/// The slots that name nodes stand for the LSNs that do.
pub(crate) fn slots_name_nodes()
    ensures slots { (entries : List AnEntry) (graph : Graph) (n : ℕ) (node : ℕ → Bool) → AreSlots entries graph →
        IsNodeNamed (held_entries graph.held entries) n node → IsSlotOf entries graph n node }
    ensures names { (entries : List AnEntry) (graph : Graph) (i : ℕ) → AreSlots entries graph → IsName graph i →
        NamesNode (held_entries graph.held entries) (slice_index (lsns entries) i) }
{
    representatives_tell_nodes();
    nodes_stand_for_nodes();
    no_arc_is_no_edge();
}
