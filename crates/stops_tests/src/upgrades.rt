// An upgrade by a call of the engine: its file, its answers, and what the files stand for where it is stopped.
ghost use Rattle.std.specs.Prelude.{false};
ghost use Rattle.formats.specs.Objects.{IsInRange};

use crate::calls::{TUNING, does, drains, puts};
use crate::running::{Room, copied, crash_by, crashed};
use disk_model::{Crash, FileNo, Fuse, Machine, MemMachine};
use formats::Params;
use op_codec::{AllOps, plain_op};
use op_meaning::PlainOp;
use std::alloc::{AllocError, Global};
use std::test::Fail;
use store_engine::{Engine, UpgradeErr};

const ROOM: Room = Room {
    sizes: [5668, 4096, 4096],
    calls: 400,
    bytes: 16384,
};

const SMALL: Params = Params {
    objects: 8,
    cap: 64,
    limit: 65536,
    more: false,
};

const LARGE: Params = Params {
    objects: 16,
    cap: 128,
    limit: 65536,
    more: false,
};

// Objects, the values that are put into them, and whether all is installed then: objects 0 and 1 stand in their second slots,
// object 2 in its first one, the others have no pair.
static PUTS: [(u32, &[u8], bool); 5] = [
    (0, b"\xaa", false),
    (1, b"\xbb", false),
    (2, b"\xcc", true),
    (0, b"\xdd", false),
    (1, b"\xee", true),
];

// What objects 0 to 4 hold after that and a copy of object 0 to object 3.
static VALUES: [(u32, &[u8]); 5] = [
    (0, b"\xdd"),
    (1, b"\xee"),
    (2, b"\xcc"),
    (3, b"\xdd"),
    (4, b""),
];

// Whether the puts are done, and a copy, which is not installed.
fn fills<M: Machine>(alloc: Global, engine: &mut Engine<AllOps>, machine: &mut M) -> bool {
    let mut all = true;
    for (object, value, installed) in &PUTS {
        all &= puts(alloc, engine, machine, *object, value);
        all &= !*installed || drains(engine, machine);
    }
    let copy = plain_op(PlainOp::Copy { from: 0, to: 3 });
    all &= does(engine, machine, copy);
    all & forces(engine, machine)
}

// Whether all is forced.
fn forces<M: Machine>(engine: &mut Engine<AllOps>, machine: &mut M) -> bool {
    if engine.is_broken() {
        return false;
    }
    engine.force(machine).is_ok()
}

// Whether an engine is opened, and the commands are done.
fn is_filled<M: Machine>(alloc: Global, machine: &mut M) -> bool {
    match Engine::<AllOps>::restart(alloc, machine, TUNING) {
        Ok(mut engine) => {
            let filled = fills(alloc, &mut engine, machine);
            drop(engine);
            filled
        }
        Err(_) => false,
    }
}

// The smaller store after these commands.
fn made(alloc: Global) -> Result<MemMachine, AllocError> {
    let mut machine = ROOM.machine(alloc, 0)?;
    let _ = Engine::<AllOps>::init(&mut machine, SMALL);
    let _ = is_filled(alloc, &mut machine);
    Ok(crashed(machine, Crash::Old))
}

// Whether an object has a value.
fn holds<M: Machine>(
    engine: &mut Engine<AllOps>,
    machine: &mut M,
    object: u32,
    value: &[u8],
) -> bool {
    if engine.is_broken() {
        return false;
    }
    match engine.fetch(machine, object) {
        Ok(true) => engine.get(object) == value,
        _ => false,
    }
}

// Whether the first objects have their values.
fn hold<M: Machine>(engine: &mut Engine<AllOps>, machine: &mut M) -> bool {
    let mut all = engine.accepted() == 6;
    for (object, value) in &VALUES {
        all &= holds(engine, machine, *object, value);
    }
    all
}

// Whether the files stand for the commands.
fn stands<M: Machine>(alloc: Global, machine: &mut M) -> bool {
    match Engine::<AllOps>::restart(alloc, machine, TUNING) {
        Ok(mut engine) => {
            let all = hold(&mut engine, machine);
            drop(engine);
            all
        }
        Err(_) => false,
    }
}

// What an upgrade behind a restart answers; `Memory` where there is no restart.
fn upgrade<M: Machine>(alloc: Global, machine: &mut M, params: Params) -> Result<(), UpgradeErr>
    requires { IsInRange params }
{
    match Engine::<AllOps>::restart(alloc, machine, TUNING) {
        Ok(engine) => engine.upgrade(machine, params),
        Err(_) => Err(UpgradeErr::Memory),
    }
}

// Whether the files stand for the commands where an upgrade is stopped after so many calls, behind this crash.
fn stands_after(
    alloc: Global,
    store: &MemMachine,
    calls: u64,
    how: Crash,
) -> Result<bool, AllocError> {
    let mut fuse = Fuse::new(copied(alloc, ROOM, store, 0)?, calls);
    let _ = upgrade(alloc, &mut fuse, LARGE);
    let mut left = crashed(fuse.into_inner(), how);
    Ok(stands(alloc, &mut left))
}

// How many calls a restart and an upgrade take, where they are done; else none.
fn calls_of(alloc: Global, store: &MemMachine) -> Result<u64, AllocError> {
    let mut machine = copied(alloc, ROOM, store, 0)?;
    let before = machine.calls();
    let done = upgrade(alloc, &mut machine, LARGE).is_ok();
    let calls = machine.calls().saturating_sub(before);
    Ok(if done { calls } else { 0 })
}

#[test]
fn a_stopped_upgrade_keeps_the_commands(rt: HostRuntime) -> Result<(), Fail> {
    let store = made(rt.alloc())?;
    let calls = calls_of(rt.alloc(), &store)?;
    assert!(rt; calls > 0);
    for call in 0..=calls {
        for kind in 0..5u64 {
            let stands = stands_after(rt.alloc(), &store, call, crash_by(kind))?;
            assert!(rt; stands, "after {call}, {kind}");
        }
    }
    Ok(())
}

// N, CAP and LIMIT, as they stand behind the slots of the smaller store.
const NUMBERS: [u8; 12] = [0x10, 0, 0, 0, 0x80, 0, 0, 0, 0, 0, 1, 0];

// Whether the file is that of the larger store.
fn is_large(machine: &MemMachine) -> bool {
    let file = machine.bytes(FileNo::Objects);
    (file.len() == 5668) & (file.get(8) == Some(&0x32)) & (file.get(1264..1276) == Some(&NUMBERS))
}

// Whether the store is upgraded once, and a second time is of version 2 already.
fn is_upgraded(alloc: Global) -> Result<bool, AllocError> {
    let mut machine = made(alloc)?;
    let done = upgrade(alloc, &mut machine, LARGE).is_ok();
    let mut next = crashed(machine, Crash::Old);
    let large = is_large(&next) & stands(alloc, &mut next);
    let again = matches!(
        upgrade(alloc, &mut next, LARGE),
        Err(UpgradeErr::AlreadyTwo)
    );
    Ok(done & large & again & is_large(&next))
}

#[test]
fn a_store_is_upgraded_once(rt: HostRuntime) -> Result<(), Fail> {
    assert!(rt; is_upgraded(rt.alloc())?);
    Ok(())
}

// Whether these numbers are too small for the store, whose file stays as it was.
fn is_too_small(alloc: Global, objects: u32, cap: u32) -> Result<bool, AllocError>
    requires { IsInRange (record { objects = objects; cap = cap; limit = 65536; more = false }) }
{
    let mut machine = made(alloc)?;
    let params = Params {
        objects,
        cap,
        limit: 65536,
        more: false,
    };
    let refused = matches!(
        upgrade(alloc, &mut machine, params),
        Err(UpgradeErr::Smaller {
            objects: 8,
            cap: 64
        })
    );
    Ok(refused & (machine.bytes(FileNo::Objects).len() == 1188))
}

#[test]
fn a_smaller_store_is_refused(rt: HostRuntime) -> Result<(), Fail> {
    assert!(rt; is_too_small(rt.alloc(), 4, 64)?);
    assert!(rt; is_too_small(rt.alloc(), 8, 63)?);
    assert!(rt; is_too_small(rt.alloc(), 9, 16)?);
    Ok(())
}
