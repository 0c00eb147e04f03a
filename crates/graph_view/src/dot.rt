ghost use Rattle.std.specs.Prelude.{◌≡◌, ◌++◌, OnOk, IfOk, string_bytes};
ghost use Rattle.std.specs.List.{flat_map};
ghost use Rattle.graph_view.specs.Dot.{object_text, flush_text, member_text, node_text, edge_text, edges_between, edges_from, IsGraph};

use crate::edges::has_edge;
use crate::kind::Kind;
use crate::nodes::push_nodes;
use install_order::Entry;
use oper_core::Memory;
use std::alloc::Global;
use std::fmt::Write;
use write_graph::WriteGraph;

/// Adds what is flushed with a node.
fn push_flush_set(text: &mut String, objects: &[u32]) -> Result<(), Memory>
    ensures { OnOk result (string_bytes text.new ≡ string_bytes text.old ++ flush_text objects.now) }
{
    if objects.is_empty() {
        write!(text, " nothing")?;
        return Ok(());
    }
    push_objects(text, objects)
}

/// Adds the objects.
fn push_objects(text: &mut String, objects: &[u32]) -> Result<(), Memory>
    ensures { OnOk result (string_bytes text.new ≡ string_bytes text.old ++ flat_map object_text objects.now) }
{
    for object in objects {
        write!(text, " {object}")?;
    }
    Ok(())
}

/// Adds the numbers of a node.
fn push_members(text: &mut String, members: &[u64]) -> Result<(), Memory>
    ensures { OnOk result (string_bytes text.new ≡ string_bytes text.old ++ flat_map member_text members.now) }
{
    for member in members {
        write!(text, " {member};")?;
    }
    Ok(())
}

/// Adds a node, from its least number, its numbers, and the objects that are flushed with it.
pub fn push_node(
    text: &mut String,
    name: u64,
    members: &[u64],
    flush_set: &[u32],
) -> Result<(), Memory>
    ensures { OnOk result (string_bytes text.new ≡ string_bytes text.old ++ node_text (record { name = name; members = members.now; flush_set = flush_set.now })) }
{
    write!(text, "  subgraph cluster_{name} {{ label=\"flushes")?;
    push_flush_set(text, flush_set)?;
    write!(text, "\";")?;
    push_members(text, members)?;
    write!(text, " }}\n")?;
    Ok(())
}

/// Adds the edge of the kind from the one number to the other, if there is one.
fn push_edge(
    text: &mut String,
    from: u64,
    to: u64,
    kind: Kind,
    entries: &[Entry],
) -> Result<(), Memory>
    ensures { OnOk result (string_bytes text.new ≡ string_bytes text.old ++ edge_text entries.now from to kind) }
{
    if has_edge(kind, from, to, entries) {
        write!(text, "  {from} -> {to} [{kind}];\n")?;
    }
    Ok(())
}

/// Adds the edges from the one number to the other.
fn push_between(text: &mut String, from: u64, to: u64, entries: &[Entry]) -> Result<(), Memory>
    ensures { OnOk result (string_bytes text.new ≡ string_bytes text.old ++ edges_between entries.now from to) }
{
    push_edge(text, from, to, Kind::ReadWrite, entries)?;
    push_edge(text, from, to, Kind::WriteWrite, entries)?;
    push_edge(text, from, to, Kind::LostVersion, entries)?;
    Ok(())
}

/// Adds the edges from the number.
fn push_from(text: &mut String, from: u64, entries: &[Entry]) -> Result<(), Memory>
    ensures { OnOk result (string_bytes text.new ≡ string_bytes text.old ++ edges_from entries.now from) }
{
    for to in entries {
        push_between(text, from, to.lsn, entries)?;
    }
    Ok(())
}

/// Adds all edges.
fn push_edges(text: &mut String, entries: &[Entry]) -> Result<(), Memory>
    ensures { OnOk result (string_bytes text.new ≡ string_bytes text.old ++ flat_map (λ e. edges_from entries.now e.lsn) entries.now) }
{
    for from in entries {
        push_from(text, from.lsn, entries)?;
    }
    Ok(())
}

/// The write graph of the entries in the DOT language. The graph's nodes are taken out of it.
pub fn dot_of(alloc: Global, entries: &[Entry], graph: &mut WriteGraph) -> Result<String, Memory>
    requires { graph.old.entries ≡ entries.now }
    ensures { IfOk result (λ text. IsGraph entries.now (string_bytes text)) }
{
    let mut text = String::new(alloc);
    write!(text, "digraph write_graph {{\n")?;
    push_nodes(&mut text, graph)?;
    push_edges(&mut text, entries)?;
    write!(text, "}}\n")?;
    Ok(text)
}
