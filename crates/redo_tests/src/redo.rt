// A redo on a machine in memory: that it succeeds, and what it leaves in the graph, in the objects and in the slots.
use crate::logs::{BEHIND_THREE, CHECKED, LOGGED, SWAPPED, THREE_PUTS, with_block, with_slot};
use crate::redone::{ALL, Redone, begun, counts, hold, run_redo};
use disk_model::{Crash, FileNo, Machine, MemMachine};
use std::alloc::Global;
use std::test::Fail;

// Whether the slots of a machine have these values.
fn slots_hold(alloc: Global, mut machine: MemMachine, values: &[&[u8]]) -> Result<bool, Fail> {
    let (mut store, plan) = begun(alloc, &mut machine)?;
    let are_held = hold(&mut store, &mut machine, values);
    drop((store, plan, machine));
    Ok(are_held)
}

// Where a redo began, and how many entries and dirty objects it left.
type Left = (u64, [u64; 2]);

fn leaves(it: &Redone, left: Left) -> bool {
    it.ends && (it.start, counts(&it.store)) == left
}

// Whether a redo within this limit leaves this, the objects have these values, and the slots these.
fn gives(
    alloc: Global,
    machine: MemMachine,
    limit: usize,
    left: Left,
    values: [&[&[u8]]; 2],
) -> Result<bool, Fail> {
    let mut it = run_redo(alloc, machine, limit, ALL)?;
    let is_left = leaves(&it, left);
    let are_held = hold(&mut it.store, &mut it.machine, values[0]);
    let are_stable = slots_hold(alloc, it.into_machine().crash(Crash::Old), values[1])?;
    Ok(is_left & are_held & are_stable)
}

// A block of a log, how many objects may be dirty, what a redo leaves, and the values of the objects and in the slots then.
type Row = (
    &'static [u8],
    usize,
    Left,
    &'static [&'static [u8]],
    &'static [&'static [u8]],
);

const ROWS: [Row; 6] = [
    (
        THREE_PUTS,
        0,
        (1, [0, 0]),
        &[b"aa", b"bb", b"cc"],
        &[b"aa", b"bb", b"cc"],
    ),
    (
        THREE_PUTS,
        1,
        (1, [1, 1]),
        &[b"aa", b"bb", b"cc"],
        &[b"aa", b"bb", b""],
    ),
    (
        THREE_PUTS,
        2,
        (1, [1, 1]),
        &[b"aa", b"bb", b"cc"],
        &[b"aa", b"bb", b""],
    ),
    (
        THREE_PUTS,
        64,
        (1, [3, 3]),
        &[b"aa", b"bb", b"cc"],
        &[b"", b"", b""],
    ),
    // the node of a swap is not thin, so it is left
    (SWAPPED, 0, (1, [1, 2]), &[b"bb", b"aa"], &[b"aa", b"bb"]),
    // an identity write makes it thin
    (LOGGED, 0, (1, [0, 0]), &[b"bb", b"aa"], &[b"bb", b"aa"]),
];

#[test]
fn a_redo_gives_the_values_within_its_limit(rt: HostRuntime) -> Result<(), Fail> {
    for (block, limit, left, values, slots) in ROWS {
        let machine = with_block(rt.alloc(), block)?;
        let given = gives(rt.alloc(), machine, limit, left, [values, slots])?;
        assert!(rt; given, "limit {limit}, {values:?}");
    }
    Ok(())
}

// After the flush of one object of a swap: a block, what a redo leaves, and the values then.
type Healed = (&'static [u8], Left, &'static [&'static [u8]]);

const HEALED: [Healed; 2] = [
    // the swap puts the new value of object 0 into object 1
    (SWAPPED, (1, [2, 1]), &[b"bb", b"bb"]),
    (LOGGED, (1, [3, 1]), &[b"bb", b"aa"]),
];

// Whether a redo after the flush gives what the row says.
fn is_as_in(alloc: Global, row: Healed) -> Result<bool, Fail> {
    let (block, left, values) = row;
    let slots: &[&[u8]] = &[b"bb", b""];
    let machine = with_slot(alloc, block)?;
    gives(alloc, machine, 64, left, [values, slots])
}

#[test]
fn an_identity_write_heals_what_a_redo_got_wrong(rt: HostRuntime) -> Result<(), Fail> {
    for row in HEALED {
        assert!(rt; is_as_in(rt.alloc(), row)?, "{:?}", row.1);
    }
    Ok(())
}

// A store whose three puts are in the slots, and then an identity write of object 1 and a checkpoint that starts it there.
fn with_checkpoint(alloc: Global) -> Result<MemMachine, Fail> {
    let mut machine = run_redo(alloc, with_block(alloc, THREE_PUTS)?, 0, ALL)?.into_machine();
    let written = machine.write_at(FileNo::LogA, BEHIND_THREE, CHECKED);
    let left = machine.crash(Crash::New);
    written?;
    Ok(left)
}

// Whether the redo begins at the checkpoint's start, and the value of the identity write stands.
fn begins_at_the_start(alloc: Global) -> Result<bool, Fail> {
    let values: &[&[u8]] = &[b"aa", b"zz", b"cc"];
    let slots: &[&[u8]] = &[b"aa", b"bb", b"cc"];
    let machine = with_checkpoint(alloc)?;
    gives(alloc, machine, 64, (4, [1, 1]), [values, slots])
}

#[test]
fn a_checkpoint_says_where_a_redo_begins(rt: HostRuntime) -> Result<(), Fail> {
    assert!(rt; begins_at_the_start(rt.alloc())?);
    Ok(())
}
