ghost use Rattle.std.specs.Prelude.{◌≡◌, []};

use crate::adding::{Accesses, add};
use oper_core::Memory;
use std::alloc::Global;
use std::test::Fail;
use write_graph::{NodeNo, WriteGraph};

/// The numbers of a node, and the objects that it flushes.
type Node<'a> = (&'a [u64], &'a [u32]);

const PUT_0: Accesses<'static> = (&[], &[0]);

const PUT_1: Accesses<'static> = (&[], &[1]);

const COPY_0_1: Accesses<'static> = (&[0], &[1]);

const COPY_0_2: Accesses<'static> = (&[0], &[2]);

const COPY_0_3: Accesses<'static> = (&[0], &[3]);

const COPY_0_4: Accesses<'static> = (&[0], &[4]);

const COPY_1_0: Accesses<'static> = (&[1], &[0]);

const SWAP_0_1: Accesses<'static> = (&[0, 1], &[0, 1]);

const APPEND_0_1: Accesses<'static> = (&[0, 1], &[1]);

/// A graph of operations that are numbered from `first`, and what the calls answer.
#[derive(Clone, Copy)]
struct Row<'a> {
    first: u32,
    operations: &'a [Accesses<'a>],
    starts: &'a [(u32, u64)],
    minimal_from_2: Option<NodeNo>,
    nodes: &'a [Node<'a>],
}

const ROWS: [Row<'static>; 8] = [
    Row {
        first: 1,
        operations: &[PUT_0, COPY_0_1, PUT_0],
        starts: &[(0, 1), (1, 2)],
        minimal_from_2: Some(2),
        nodes: &[(&[2], &[1]), (&[1], &[]), (&[3], &[0])],
    },
    Row {
        first: 1,
        operations: &[COPY_0_1, COPY_1_0],
        starts: &[(0, 2), (1, 1)],
        minimal_from_2: None,
        nodes: &[(&[1], &[1]), (&[2], &[0])],
    },
    Row {
        first: 1,
        operations: &[COPY_0_1, COPY_1_0, PUT_1],
        starts: &[(0, 2), (1, 1)],
        minimal_from_2: None,
        nodes: &[(&[1, 2], &[0]), (&[3], &[1])],
    },
    Row {
        first: 1,
        operations: &[PUT_0, PUT_1, SWAP_0_1],
        starts: &[(0, 1), (1, 2)],
        minimal_from_2: None,
        nodes: &[(&[1, 2, 3], &[0, 1])],
    },
    Row {
        first: 1,
        operations: &[PUT_0, PUT_1, SWAP_0_1, PUT_1],
        starts: &[(0, 1), (1, 2)],
        minimal_from_2: None,
        nodes: &[(&[1, 2, 3], &[0]), (&[4], &[1])],
    },
    Row {
        first: 1,
        operations: &[PUT_1, APPEND_0_1],
        starts: &[(1, 1)],
        minimal_from_2: None,
        nodes: &[(&[1, 2], &[1])],
    },
    Row {
        first: 2,
        operations: &[PUT_1, SWAP_0_1, PUT_1],
        starts: &[(0, 3), (1, 2)],
        minimal_from_2: Some(2),
        nodes: &[(&[2, 3], &[0]), (&[4], &[1])],
    },
    Row {
        first: 1,
        operations: &[PUT_0, COPY_0_1, COPY_0_2, COPY_0_3, COPY_0_4, PUT_0],
        starts: &[(0, 1), (1, 2), (2, 3), (3, 4), (4, 5)],
        minimal_from_2: Some(2),
        nodes: &[
            (&[2], &[1]),
            (&[3], &[2]),
            (&[4], &[3]),
            (&[5], &[4]),
            (&[1], &[]),
            (&[6], &[0]),
        ],
    },
];

#[test]
fn answers_worked_tables(rt: HostRuntime) -> Result<(), Fail> {
    assert_eq!(rt; first_wrong(rt.alloc())?, None);
    Ok(())
}

/// The place of the first row that is answered otherwise; none where all are as they say.
fn first_wrong(alloc: Global) -> Result<Option<usize>, Memory> {
    for (i, row) in ROWS.iter().enumerate() {
        if !is_right(alloc, row)? {
            return Ok(Some(i));
        }
    }
    Ok(None)
}

fn is_right(alloc: Global, row: &Row) -> Result<bool, Memory> {
    let mut graph = WriteGraph::new(alloc)?;
    let added = add_all(&mut graph, row.first, row.operations);
    let answered = is_answered(&mut graph, row);
    Ok(added.is_ok() & answered.unwrap_or(false))
}

/// Whether the calls answer as the row says, while the graph is taken apart, node after node.
fn is_answered(graph: &mut WriteGraph, row: &Row) -> Result<bool, Memory> {
    let starts = graph.redo_starts()?;
    let counts = [graph.len(), graph.node_count()];
    let mut good = (counts == [row.operations.len() as u64, row.nodes.len() as u64])
        & (starts.as_slice() == row.starts)
        & (graph.minimal_from(2) == row.minimal_from_2);
    for (lsns, objects) in row.nodes {
        good = good & is_next(graph, lsns, objects)?;
    }
    Ok(good & graph.minimal().is_none() & (graph.len() == 0))
}

/// Takes the next node out, and answers whether it is this one.
fn is_next(graph: &mut WriteGraph, lsns: &[u64], objects: &[u32]) -> Result<bool, Memory> {
    let Some(name) = graph.minimal() else {
        return Ok(false);
    };
    let ops = graph.ops(name)?;
    let flushed = graph.flush_set(name)?;
    graph.remove_minimal(name);
    Ok((ops.as_slice() == lsns) & (flushed.as_slice() == objects))
}

/// Adds the operations, numbered from `first`, to a graph without entries.
fn add_all(graph: &mut WriteGraph, first: u32, operations: &[Accesses]) -> Result<(), Memory>
    requires { graph.old.entries ≡ [] }
{
    let mut lsn = first as u64;
    for operation in operations {
        add(graph, lsn, *operation)?;
        lsn += 1;
    }
    Ok(())
}
