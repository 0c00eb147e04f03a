use graph_nodes::SlotGraph;
use oper_core::Memory;
use std::alloc::Global;
use std::test::Fail;

/// More slots than any test has.
const MOST: usize = 1_000_000;

#[test]
fn a_circle_is_one_node(rt: HostRuntime) -> Result<(), Fail> {
    assert!(rt; circle(rt.alloc())? == [false, true, true, false]);
    Ok(())
}

/// Whether three slots are one node before their arcs make a circle, and two pairs of them once they do, and whether a
/// fourth is then one with the first.
fn circle(alloc: Global) -> Result<[bool; 4], Memory> {
    let mut graph = with_slots(alloc, 4)?;
    set_arc(&mut graph, 0, 1);
    set_arc(&mut graph, 8, 2);
    let before = are_one(&graph, 0, 2);
    set_arc(&mut graph, 16, 0);
    Ok([
        before,
        are_one(&graph, 0, 2),
        are_one(&graph, 0, 1),
        are_one(&graph, 0, 3),
    ])
}

#[test]
fn what_a_removed_node_held_back_is_next(rt: HostRuntime) -> Result<(), Fail> {
    assert!(rt; next_of_three(rt.alloc())? == Some(1));
    Ok(())
}

/// Which node of a chain of three is minimal once the first was taken out.
fn next_of_three(alloc: Global) -> Result<Option<u32>, Memory> {
    let mut graph = with_slots(alloc, 3)?;
    set_arc(&mut graph, 0, 1);
    set_arc(&mut graph, 8, 2);
    if let Some(first) = graph.minimal_from(0) {
        graph.remove(first);
    }
    Ok(graph.minimal_from(0))
}

#[test]
fn no_arc_is_sought_along_a_long_chain(rt: HostRuntime) -> Result<(), Fail> {
    let nodes = [chain(rt.alloc())?, comb(rt.alloc())?];
    assert!(rt; nodes == [200_000; 2]);
    Ok(())
}

/// How many nodes a chain of 200,000 slots has, each with an arc to the next.
fn chain(alloc: Global) -> Result<usize, Memory> {
    let mut graph = with_slots(alloc, 200_000)?;
    for to in 1..200_000u32 {
        set_arc(&mut graph, 8 * (to - 1), to);
    }
    Ok(graph.node_count())
}

/// How many nodes a chain of 100,000 slots has, each with an arc to a slot of its own before there is one to it.
fn comb(alloc: Global) -> Result<usize, Memory> {
    let mut graph = with_slots(alloc, 200_000)?;
    for i in 1..100_000u32 {
        set_arc(&mut graph, 16 * i + 1, 2 * i + 1);
        set_arc(&mut graph, 16 * (i - 1), 2 * i);
    }
    Ok(graph.node_count())
}

#[test]
fn no_arc_is_sought_through_a_large_node(rt: HostRuntime) -> Result<(), Fail> {
    assert!(rt; ring(rt.alloc())? == 170_001);
    Ok(())
}

/// How many nodes there are of 200,000 slots, of which 10,000 are a ring, 10,000 have an arc into it and 10,000 one from it,
/// once each of these has an arc to one of those.
fn ring(alloc: Global) -> Result<usize, Memory> {
    let mut graph = with_slots(alloc, 200_000)?;
    for i in 0..10_000u32 {
        set_arc(&mut graph, 8 * i, (i + 1) % 10_000);
    }
    for i in 0..10_000u32 {
        set_arc(&mut graph, 8 * i + 1, 10_000 + i);
        set_arc(&mut graph, 8 * (20_000 + i), i);
    }
    for i in 0..10_000u32 {
        set_arc(&mut graph, 8 * (10_000 + i), 20_000 + i);
    }
    Ok(graph.node_count())
}

#[test]
fn no_arc_is_sought_far_where_one_search_is_cut(rt: HostRuntime) -> Result<(), Fail> {
    assert!(rt; tail(rt.alloc())? == 199_801);
    Ok(())
}

/// How many nodes there are of 200,000 slots, of which 200 are a ring, 1,000 have an arc from it and the others are a chain,
/// once each of the 1,000 has an arc to the head of the chain.
fn tail(alloc: Global) -> Result<usize, Memory> {
    let mut graph = with_slots(alloc, 200_000)?;
    for i in 0..200u32 {
        set_arc(&mut graph, 8 * i, (i + 1) % 200);
    }
    for to in 1_201..200_000u32 {
        set_arc(&mut graph, 8 * (to - 1), to);
    }
    for i in 0..1_000u32 {
        set_arc(&mut graph, 8 * (i / 5) + 1 + i % 5, 200 + i);
        set_arc(&mut graph, 8 * (200 + i), 1_200);
    }
    Ok(graph.node_count())
}

/// A graph of so many slots.
fn with_slots(alloc: Global, slots: u32) -> Result<SlotGraph, Memory> {
    let mut graph = SlotGraph::new(alloc);
    for _ in 0..slots {
        add(&mut graph)?;
    }
    Ok(graph)
}

/// Adds a slot.
fn add(graph: &mut SlotGraph) -> Result<(), Memory> {
    graph.make_room(1)?;
    if graph.len() < MOST {
        graph.add_slot();
    }
    Ok(())
}

/// Gives the cell its arc, where cell and slot are there and held, and the cell has none.
fn set_arc(graph: &mut SlotGraph, cell: u32, to: u32) {
    let slots = graph.len();
    if slots < MOST
        && (to as usize) < slots
        && (cell as usize) < 8 * slots
        && graph.is_held(cell / 8)
        && graph.is_held(to)
        && graph.arc(cell).is_none()
    {
        graph.insert(cell, to);
    }
}

/// Whether the two slots are there and are of one node.
fn are_one(graph: &SlotGraph, left: u32, right: u32) -> bool {
    let slots = graph.len();
    (left as usize) < slots && (right as usize) < slots && graph.node(left) == graph.node(right)
}
