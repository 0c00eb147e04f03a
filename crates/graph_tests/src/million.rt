ghost use Rattle.std.specs.Prelude.{◌≡◌, []};

use crate::adding::add;
use oper_core::Memory;
use std::alloc::Global;
use std::test::Fail;
use write_graph::WriteGraph;

#[test]
fn a_million_nodes_are_counted(rt: HostRuntime) -> Result<(), Fail> {
    assert!(rt; are_counted(rt.alloc(), 1_000_000)?);
    Ok(())
}

/// Whether there are always as many nodes as entries, while so many are added that each write an object of their own, and
/// while these are taken out from the last to the first.
fn are_counted(alloc: Global, count: u32) -> Result<bool, Memory> {
    let mut graph = WriteGraph::new(alloc)?;
    let coming = add_puts(&mut graph, count)?;
    Ok(coming & take_out(&mut graph, count))
}

/// Adds so many operations, each of which writes an object of its own, and answers whether each is one node more.
fn add_puts(graph: &mut WriteGraph, count: u32) -> Result<bool, Memory>
    requires { graph.old.entries ≡ [] }
{
    let mut good = true;
    for k in 0..count {
        add(graph, k as u64, (&[], &[k]))?;
        good = good & (graph.node_count() == k as u64 + 1);
    }
    Ok(good)
}

/// Takes so many nodes out, from the last to the first, and answers whether each is one node less.
fn take_out(graph: &mut WriteGraph, count: u32) -> bool {
    let mut good = true;
    for left in (0..count as u64).rev() {
        take_from(graph, left);
        good = good & (graph.node_count() == left);
    }
    good
}

/// Takes the minimal node with the least name at or above the number out, if there is one.
fn take_from(graph: &mut WriteGraph, n: u64) {
    let Some(name) = graph.minimal_from(n) else {
        return;
    };
    graph.remove_minimal(name);
}
