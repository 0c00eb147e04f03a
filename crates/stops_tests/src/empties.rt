// Which empty object is next, after commands, a drain and a restart.
use crate::calls::{TUNING, drains, puts};
use crate::running::{Room, crashed};
use disk_model::{Crash, Machine, MemMachine};
use formats::Params;
use op_codec::AllOps;
use std::alloc::{AllocError, Global};
use std::test::Fail;
use store_engine::Engine;

const ROOM: Room = Room {
    sizes: [2048, 4096, 4096],
    calls: 400,
    bytes: 4096,
};

const SMALL: Params = Params {
    objects: 8,
    cap: 64,
    limit: 65536,
    more: false,
};

// The next empty objects from 0, 1, 2 and 8 on.
type Next = [Option<u32>; 4];

// An object, the value that is put into it, and the next empty objects then.
type Row = (u32, &'static [u8], Next);

// Objects 0 to 2 get values, and object 1 loses its own.
static FIRST: [Row; 4] = [
    (0, b"\xaa\xbb", [Some(1), Some(1), Some(2), None]),
    (1, b"\xaa\xbb", [Some(2), Some(2), Some(2), None]),
    (2, b"\xaa\xbb", [Some(3), Some(3), Some(3), None]),
    (1, b"", [Some(1), Some(1), Some(3), None]),
];

// All others get values.
static SECOND: [Row; 6] = [
    (1, b"\xcc", [Some(3), Some(3), Some(3), None]),
    (3, b"\xcc", [Some(4), Some(4), Some(4), None]),
    (4, b"\xcc", [Some(5), Some(5), Some(5), None]),
    (5, b"\xcc", [Some(6), Some(6), Some(6), None]),
    (6, b"\xcc", [Some(7), Some(7), Some(7), None]),
    (7, b"\xcc", [None, None, None, None]),
];

fn next_are(engine: &Engine<AllOps>, next: Next) -> bool {
    let found = [
        engine.next_empty(0),
        engine.next_empty(1),
        engine.next_empty(2),
        engine.next_empty(8),
    ];
    found == next
}

// Whether the puts of these rows are done, and the next empty objects are right after each.
fn follows<M: Machine>(
    alloc: Global,
    engine: &mut Engine<AllOps>,
    machine: &mut M,
    rows: &[Row],
) -> bool {
    let mut all = true;
    for (object, value, next) in rows {
        all &= puts(alloc, engine, machine, *object, value);
        all &= next_are(engine, *next);
    }
    all
}

// Whether they are right before the puts, after each, and after a drain.
fn drains_after<M: Machine>(
    alloc: Global,
    engine: &mut Engine<AllOps>,
    machine: &mut M,
    rows: &[Row],
    ends: [Next; 2],
) -> bool {
    let [before, after] = ends;
    let mut all = next_are(engine, before);
    all &= follows(alloc, engine, machine, rows);
    all &= drains(engine, machine);
    all & next_are(engine, after)
}

// Whether that is so from a restart on.
fn is_known<M: Machine>(alloc: Global, machine: &mut M, rows: &[Row], ends: [Next; 2]) -> bool {
    match Engine::<AllOps>::restart(alloc, machine, TUNING) {
        Ok(mut engine) => {
            let known = drains_after(alloc, &mut engine, machine, rows, ends);
            drop(engine);
            known
        }
        Err(_) => false,
    }
}

// A store without commands.
fn made(alloc: Global) -> Result<MemMachine, AllocError> {
    let mut machine = ROOM.machine(alloc, 0)?;
    let _ = Engine::<AllOps>::init(&mut machine, SMALL);
    Ok(machine)
}

// The next empty objects of a new store, with values in objects 0 and 2, and in all.
const NEW: Next = [Some(0), Some(1), Some(2), None];

const SOME: Next = [Some(1), Some(1), Some(3), None];

const NONE: Next = [None; 4];

// Whether it is so in a new store, and behind a crash.
fn stays_known(alloc: Global) -> Result<bool, AllocError> {
    let mut machine = made(alloc)?;
    let first = is_known(alloc, &mut machine, &FIRST, [NEW, SOME]);
    let mut left = crashed(machine, Crash::New);
    Ok(first & is_known(alloc, &mut left, &SECOND, [SOME, NONE]))
}

#[test]
fn the_next_empty_object_is_known(rt: HostRuntime) -> Result<(), Fail> {
    assert!(rt; stays_known(rt.alloc())?);
    Ok(())
}
