// A store of version 2 with long values: what a restart leaves dirty and what is kept cached, by the bytes that it may hold.
ghost use Rattle.std.specs.Prelude.{◌<◌};

use crate::logs::FIRST;
use crate::redone::counts;
use disk_model::{Crash, FileNo, Machine, MemMachine};
use log_records::RecordLog;
use op_codec::AllOps;
use oper_core::Bounds;
use restart::{Tuning, restart};
use running_store::Store;
use stable_objects::Slots;
use std::alloc::{AllocError, Global};
use std::test::Fail;

const BOUNDS: Bounds = Bounds {
    objects: 4,
    cap: 20_000,
    more: false,
};

// How long each value is; an object's value has its number in each byte.
const LONG: usize = 20_000;

// The record of a put of such a value.
fn push_put(alloc: Global, block: &mut Vec<u8>, object: u8) -> Result<(), AllocError> {
    let lsn = object.saturating_add(1);
    block.extend_from_slice(&[1, lsn, 0, 0, 0, 0, 0, 0, 0, 1, object])?;
    block.extend_from_slice(&[0, 0, 0, 0x20, 0x4e, 0, 0])?;
    let value = vec![in alloc; object; LONG]?;
    block.extend_from_slice(value.as_slice())
}

// A block of puts to the objects 0 to 2, and the closed gate after it.
fn three_puts(alloc: Global) -> Result<Vec<u8>, AllocError> {
    let mut block = Vec::new(alloc);
    block.extend_from_slice(&[1, 0x96, 0xea, 0, 0])?;
    for object in 0..3u8 {
        push_put(alloc, &mut block, object)?;
    }
    block.push(0)?;
    Ok(block)
}

// A store with this block in its log, and none of it in the slots.
fn with_puts(alloc: Global) -> Result<MemMachine, Fail> {
    let block = three_puts(alloc)?;
    let sizes = [262_144, 131_072, 16];
    let mut machine = MemMachine::new(alloc, sizes, 400, 524_288, Vec::new(alloc))?;
    RecordLog::<AllOps>::create(&mut machine)?;
    Slots::create(&mut machine, BOUNDS, 65_536)?;
    machine.write_at(FileNo::LogA, FIRST, block.as_slice())?;
    Ok(machine.crash(Crash::New))
}

// A restart that holds so many bytes of dirty values in its redo, and of clean ones after it; of each one object at least.
fn within(redo_bytes: usize, clean_bytes: usize) -> Tuning
    ensures { 0 < result.clean }
{
    Tuning {
        clean: 1,
        clean_bytes,
        redo_dirty: 1,
        redo_bytes,
        redo_most: 64,
        redo_waiting: 1 << 28,
        redo_round: 1,
    }
}

// Fetches an object, and answers how many calls that took.
fn fetch_calls(store: &mut Store<AllOps>, machine: &mut MemMachine, object: u32) -> u64 {
    let before = machine.calls();
    if !store.is_broken() && object < store.params().objects {
        let _ = store.fetch(machine, object);
    }
    machine.calls().saturating_sub(before)
}

// Whether these are the bytes of an object's value.
fn is_value(bytes: &[u8], object: u32) -> bool {
    bytes.len() == LONG && bytes.iter().all(|b| u32::from(*b) == object)
}

// Whether an object has its value.
fn holds(store: &mut Store<AllOps>, machine: &mut MemMachine, object: u32) -> bool {
    if store.is_broken() || object >= store.params().objects {
        return false;
    }
    match store.fetch(machine, object) {
        Ok(()) => is_value(store.objects().value(object), object),
        Err(_) => false,
    }
}

// Whether so many entries and dirty objects are left, and the objects 0 to 2 have their values.
fn is_whole(store: &mut Store<AllOps>, machine: &mut MemMachine, left: u64) -> bool {
    let mut whole = counts(store) == [left; 2];
    for object in 0..3u32 {
        whole &= holds(store, machine, object);
    }
    whole
}

// Whether a restart within so many bytes of dirty values leaves so many of them dirty, and all values as they were.
fn leaves(alloc: Global, machine: &mut MemMachine, bytes: usize, left: u64) -> bool {
    match restart::<AllOps, MemMachine>(alloc, machine, within(bytes, 0)) {
        Ok(mut store) => {
            let whole = is_whole(&mut store, machine, left);
            drop(store);
            whole
        }
        Err(_) => false,
    }
}

// How many bytes a redo may hold, and how many of the three objects it leaves dirty: where they are one too many it installs as
// many as it may hold.
const LEFT: [(usize, u64); 5] = [(0, 1), (39_999, 1), (40_000, 1), (59_999, 1), (60_000, 3)];

#[test]
fn a_redo_installs_where_dirty_values_have_too_many_bytes(rt: HostRuntime) -> Result<(), Fail> {
    for (bytes, left) in LEFT {
        let mut machine = with_puts(rt.alloc())?;
        assert!(rt;
            leaves(rt.alloc(), &mut machine, bytes, left),
            "{bytes} bytes"
        );
        let mut next = machine.crash(Crash::Old);
        assert!(rt;
            leaves(rt.alloc(), &mut next, 0, 1),
            "{bytes} bytes and a crash"
        );
    }
    Ok(())
}

// How many calls a second fetch of object 0 takes, behind one of object 1.
fn second_fetch(store: &mut Store<AllOps>, machine: &mut MemMachine) -> u64 {
    fetch_calls(store, machine, 0);
    fetch_calls(store, machine, 1);
    fetch_calls(store, machine, 0)
}

// Whether object 0 has to be read again then, where two of the three objects are clean and so many bytes of clean values are
// kept.
fn reads_again(alloc: Global, machine: &mut MemMachine, clean_bytes: usize) -> bool {
    match restart::<AllOps, MemMachine>(alloc, machine, within(0, clean_bytes)) {
        Ok(mut store) => {
            let calls = second_fetch(&mut store, machine);
            drop(store);
            calls > 0
        }
        Err(_) => false,
    }
}

// How many bytes of clean values are kept, and whether the second of two values drives out the first.
const KEPT: [(usize, bool); 3] = [(0, true), (39_999, true), (40_000, false)];

#[test]
fn as_many_clean_values_are_kept_as_have_so_many_bytes(rt: HostRuntime) -> Result<(), Fail> {
    for (bytes, again) in KEPT {
        let mut machine = with_puts(rt.alloc())?;
        let reads = reads_again(rt.alloc(), &mut machine, bytes);
        assert!(rt; reads == again, "{bytes} bytes");
    }
    Ok(())
}
