ghost use Rattle.std.specs.Prelude.{◌≡◌, ◌++◌, List, OnOk, string_bytes};
ghost use Rattle.std.specs.List.{flat_map};
ghost use Rattle.write_graph.specs.Graph.{NamesMinimal};
ghost use Rattle.graph_view.specs.Nodes.{Node, AreNodes};
ghost use Rattle.graph_view.specs.Dot.{node_text};
ghost use Rattle.graph_view.specs.Taking.{TakesNode};

use crate::dot::push_node;
use oper_core::Memory;
use write_graph::{NodeNo, WriteGraph};

/// Adds the node to the text, and takes it out of the graph.
fn take_node(text: &mut String, graph: &mut WriteGraph, name: NodeNo) -> Result<(), Memory>
    requires { NamesMinimal graph.old.entries name }
    ensures { OnOk result (TakesNode graph.old.entries graph.new.entries name (string_bytes text.old) (string_bytes text.new)) }
{
    let members = graph.ops(name)?;
    let flush_set = graph.flush_set(name)?;
    push_node(text, name, members.as_slice(), flush_set.as_slice())?;
    graph.remove_minimal(name);
    Ok(())
}

/// Adds the nodes of the graph to the text, in the order in which they are installed, and takes them out of
/// the graph.
pub fn push_nodes(text: &mut String, graph: &mut WriteGraph) -> Result<(), Memory>
    ensures { OnOk result ((nodes : List Node) × AreNodes graph.old.entries nodes × (string_bytes text.new ≡ string_bytes text.old ++ flat_map node_text nodes)) }
{
    while let Some(name) = graph.minimal() {
        take_node(text, graph, name)?;
    }
    Ok(())
}
