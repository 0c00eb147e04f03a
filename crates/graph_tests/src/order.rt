// What no clause says: the worked tables, by the code itself.
use install_order::{Entry, closed, edge, exposed};
use oper_core::{Memory, Objs};
use std::alloc::Global;
use std::test::Fail;

/// The operations of the worked tables, by the objects that they access.
#[derive(Clone, Copy)]
enum Kind {
    Put(u32),
    Identity(u32),
    Copy(u32, u32),
    Append(u32, u32),
    Swap(u32, u32),
}

fn both(left: u32, right: u32) -> Objs {
    let mut objects = Objs::one(left);
    objects.push(right);
    objects
}

fn entry(lsn: u64, kind: Kind) -> Entry {
    let (reads, writes) = match kind {
        Kind::Put(x) | Kind::Identity(x) => (Objs::new(), Objs::one(x)),
        Kind::Copy(from, to) => (Objs::one(from), Objs::one(to)),
        Kind::Append(from, to) => (both(from, to), Objs::one(to)),
        Kind::Swap(left, right) => (both(left, right), both(left, right)),
    };
    Entry {
        lsn,
        reads,
        writes,
        identity: matches!(kind, Kind::Identity(_)),
    }
}

/// The operations as entries, numbered from `first`.
fn entries_of(alloc: Global, first: u32, kinds: &[Kind]) -> Result<Vec<Entry>, Memory> {
    let mut entries = Vec::new(alloc);
    for (place, kind) in kinds.iter().enumerate() {
        entries.push(entry(first as u64 + place as u64, *kind))?;
    }
    Ok(entries)
}

/// Operations, numbered from the first number, and all edges between them.
const EDGES: [(u32, &[Kind], &[(u64, u64)]); 11] = [
    (
        1,
        &[Kind::Put(0), Kind::Copy(0, 1), Kind::Put(0)],
        &[(1, 3), (2, 3), (2, 1)],
    ),
    (1, &[Kind::Copy(0, 1), Kind::Copy(1, 0)], &[(1, 2)]),
    (
        1,
        &[Kind::Copy(0, 1), Kind::Copy(1, 0), Kind::Put(1)],
        &[(1, 2), (2, 3), (1, 3), (2, 1)],
    ),
    (
        1,
        &[Kind::Put(0), Kind::Put(1), Kind::Swap(0, 1)],
        &[(1, 3), (2, 3), (3, 1), (3, 2)],
    ),
    (
        1,
        &[
            Kind::Put(0),
            Kind::Put(1),
            Kind::Swap(0, 1),
            Kind::Identity(1),
        ],
        &[(1, 3), (2, 3), (3, 1), (3, 2), (2, 4), (3, 4)],
    ),
    (1, &[Kind::Put(1), Kind::Append(0, 1)], &[(1, 2), (2, 1)]),
    (
        1,
        &[
            Kind::Put(0),
            Kind::Copy(0, 1),
            Kind::Copy(0, 2),
            Kind::Copy(0, 3),
            Kind::Copy(0, 4),
            Kind::Put(0),
        ],
        &[
            (1, 6),
            (2, 1),
            (2, 6),
            (3, 1),
            (3, 6),
            (4, 1),
            (4, 6),
            (5, 1),
            (5, 6),
        ],
    ),
    (
        1,
        &[Kind::Put(0), Kind::Put(0), Kind::Copy(0, 1), Kind::Put(0)],
        &[(1, 2), (1, 4), (2, 4), (3, 4), (3, 2)],
    ),
    (1, &[Kind::Put(0), Kind::Copy(0, 1)], &[]),
    (
        1,
        &[
            Kind::Swap(0, 1),
            Kind::Copy(2, 1),
            Kind::Copy(0, 2),
            Kind::Put(0),
        ],
        &[(1, 2), (2, 3), (3, 1), (1, 4), (3, 4)],
    ),
    (
        2,
        &[Kind::Copy(2, 1), Kind::Copy(0, 2), Kind::Put(0)],
        &[(2, 3), (3, 4)],
    ),
];

/// Whether `edge` finds exactly these edges between numbers below 8.
fn has_edges(entries: &[Entry], edges: &[(u64, u64)]) -> bool {
    (1..8).all(|a| has_edges_from(a, entries, edges))
}

fn has_edges_from(a: u64, entries: &[Entry], edges: &[(u64, u64)]) -> bool {
    (1..8).all(|b| edge(a, b, entries) == edges.iter().any(|e| e.0 == a && e.1 == b))
}

fn all_have_their_edges(alloc: Global) -> Result<bool, Memory> {
    for (first, kinds, edges) in EDGES {
        let entries = entries_of(alloc, first, kinds)?;
        if !has_edges(entries.as_slice(), edges) {
            return Ok(false);
        }
    }
    Ok(true)
}

#[test]
fn worked_edges(rt: HostRuntime) -> Result<(), Fail> {
    assert!(rt; all_have_their_edges(rt.alloc())?);
    Ok(())
}

const OVERWRITTEN: &[Kind] = &[Kind::Put(0), Kind::Copy(0, 1), Kind::Put(0)];

const SWAPPED: &[Kind] = &[Kind::Put(0), Kind::Put(1), Kind::Swap(0, 1)];

const APPENDED: &[Kind] = &[Kind::Put(1), Kind::Append(0, 1)];

/// Operations, the installed ones, whether they are closed, and which of the objects 0, 1 and 2 are exposed.
const SETS: [(&[Kind], &[u64], bool, [bool; 3]); 14] = [
    (OVERWRITTEN, &[], true, [false, false, true]),
    (OVERWRITTEN, &[1], true, [true, false, true]),
    (OVERWRITTEN, &[2], true, [false, true, true]),
    (OVERWRITTEN, &[3], false, [false, false, true]),
    (OVERWRITTEN, &[1, 3], false, [true, false, true]),
    (OVERWRITTEN, &[2, 3], false, [false, true, true]),
    (OVERWRITTEN, &[1, 2], true, [false, true, true]),
    (OVERWRITTEN, &[3, 2, 1], true, [true, true, true]),
    (SWAPPED, &[1], true, [true, false, true]),
    (SWAPPED, &[2, 1], true, [true, true, true]),
    (SWAPPED, &[3], false, [false, false, true]),
    (APPENDED, &[], true, [true, false, true]),
    (APPENDED, &[1], true, [true, true, true]),
    (APPENDED, &[2], false, [true, false, true]),
];

/// Whether the installed numbers are closed, and which of the first objects are exposed, as a row says.
fn is_as_said(
    entries: &[Entry],
    installed: &[u64],
    is_closed: bool,
    are_exposed: [bool; 3],
) -> bool {
    closed(installed, entries) == is_closed
        && exposed(0, installed, entries) == are_exposed[0]
        && exposed(1, installed, entries) == are_exposed[1]
        && exposed(2, installed, entries) == are_exposed[2]
}

fn all_are_as_said(alloc: Global) -> Result<bool, Memory> {
    for (kinds, installed, is_closed, are_exposed) in SETS {
        let entries = entries_of(alloc, 1, kinds)?;
        if !is_as_said(entries.as_slice(), installed, is_closed, are_exposed) {
            return Ok(false);
        }
    }
    Ok(true)
}

#[test]
fn worked_sets(rt: HostRuntime) -> Result<(), Fail> {
    assert!(rt; all_are_as_said(rt.alloc())?);
    Ok(())
}
