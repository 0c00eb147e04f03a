// A replacement stopped at each call, and worked bytes.
ghost use Rattle.std.specs.Prelude.{◌<◌, ◌≤◌, length};

use disk_model::{Crash, Failed, FileNo, Fuse, Machine, MemMachine};
use oper_core::Bounds;
use stable_objects::Slots;
use std::alloc::{AllocError, Global};
use std::test::Fail;

const BOUNDS: Bounds = Bounds {
    objects: 8,
    cap: 64,
    more: false,
};

const CRASHES: [Crash; 6] = [
    Crash::Old,
    Crash::New,
    Crash::Fill(0),
    Crash::Fill(1),
    Crash::Fill(7),
    Crash::Fill(255),
];

// The slots of object 0 after some of three values: a gate, the LSN, the length and the value.
const FIRST: [u8; 14] = [1, 1, 0, 0, 0, 0, 0, 0, 0, 1, 0, 0, 0, 0xaa];

const SECOND: [u8; 14] = [1, 2, 0, 0, 0, 0, 0, 0, 0, 1, 0, 0, 0, 0xbb];

const THIRD: [u8; 15] = [1, 0, 1, 0, 0, 0, 0, 0, 0, 2, 0, 0, 0, 0xcc, 0xcd];

// A store in use, on its machine.
#[derive(Drop)]
struct Store {
    machine: MemMachine,
    slots: Slots,
}

// A settled machine with a new store.
fn made(alloc: Global) -> Result<MemMachine, AllocError> {
    let mut machine = MemMachine::new(alloc, [2048, 0, 0], 128, 128, Vec::new(alloc))?;
    let _ = Slots::close(&mut machine);
    let _ = Slots::create(&mut machine, BOUNDS, 65536);
    Ok(machine.crash(Crash::New))
}

impl Store {
    fn new(alloc: Global) -> Result<Store, Fail> {
        let mut machine = made(alloc)?;
        let slots = Slots::load(alloc, &mut machine)?;
        Ok(Store { machine, slots })
    }

    // Gives object 0 a value. It reports how many calls that took, none where it is no call to make or the call failed.
    fn put(&mut self, lsn: u64, value: &[u8]) -> u64 {
        let before = self.machine.calls();
        if put(&mut self.slots, &mut self.machine, lsn, value) {
            self.machine.calls().saturating_sub(before)
        } else {
            0
        }
    }

    // Whether the objects file has these bytes at an offset.
    fn has(&self, at: usize, slot: &[u8]) -> bool {
        let bytes = self.machine.bytes(FileNo::Objects);
        at <= bytes.len() && bytes[at..].starts_with(slot)
    }
}

// Gives object 0 a value; false where that is no call to make, or the call fails.
fn put<M: Machine>(slots: &mut Slots, machine: &mut M, lsn: u64, value: &[u8]) -> bool {
    let params = slots.params();
    if params.objects == 0 || lsn >= 1 << 62 || value.len() > params.cap as usize {
        return false;
    }
    slots.lsn(0) < lsn && slots.replace(machine, 0, lsn, value).is_ok()
}

// Makes object 0 ready for a value, and then gives it; false where that is no call to make, or a call fails.
fn put_ready<M: Machine>(slots: &mut Slots, machine: &mut M, lsn: u64, value: &[u8]) -> bool {
    let params = slots.params();
    if params.objects == 0 || value.len() > params.cap as usize {
        return false;
    }
    make_ready(slots, machine, lsn, value).is_ok() && put(slots, machine, lsn, value)
}

// Closes the slot that doesn't hold object 0, and fills it, with a sync after each.
fn make_ready<M: Machine>(
    slots: &mut Slots,
    machine: &mut M,
    lsn: u64,
    value: &[u8],
) -> Result<(), Failed>
    requires object { 0 < slots.old.params.objects }
    requires short { length value.now ≤ slots.old.params.cap }
{
    slots.close_spare(machine, 0)?;
    machine.sync(FileNo::Objects)?;
    slots.fill_spare(machine, 0, lsn, value)?;
    machine.sync(FileNo::Objects)
}

// Whether values go into the slots by turns, and an open gate is closed before its slot is filled again.
fn takes_turns(store: &mut Store) -> bool {
    let calls = [store.put(1, &[0xaa]), store.put(2, &[0xbb])];
    let two = [store.has(32, &FIRST), store.has(109, &SECOND)];
    let third = store.put(256, &[0xcc, 0xcd]);
    let three = [store.has(32, &THIRD), store.has(109, &SECOND)];
    (calls == [6, 6]) & (third == 8) & ([two, three] == [[true; 2]; 2])
}

// The length that is known of an object, 0 where there is no such object.
fn length(slots: &Slots, object: u32) -> u32 {
    if object < slots.params().objects {
        slots.length(object)
    } else {
        0
    }
}

// The lengths that are known of object 0 before and after three values, and those of objects 0 and 1 once the file is loaded
// again, after the second value and after the third.
fn lengths(alloc: Global) -> Result<[u32; 8], Fail> {
    let mut store = Store::new(alloc)?;
    let none = length(&store.slots, 0);
    store.put(1, &[0xaa]);
    let one = length(&store.slots, 0);
    store.put(256, &[0xcc, 0xcd]);
    let two = length(&store.slots, 0);
    let again = Slots::load(alloc, &mut store.machine)?;
    store.put(300, &[]);
    let last = Slots::load(alloc, &mut store.machine)?;
    Ok([
        none,
        one,
        two,
        length(&store.slots, 0),
        length(&again, 0),
        length(&again, 1),
        length(&last, 0),
        length(&last, 1),
    ])
}

#[test]
fn lengths_are_known(rt: HostRuntime) -> Result<(), Fail> {
    assert!(rt; lengths(rt.alloc())? == [0, 1, 2, 0, 2, 0, 0, 0]);
    Ok(())
}

#[test]
fn values_go_into_the_slots_by_turns(rt: HostRuntime) -> Result<(), Fail> {
    let mut store = Store::new(rt.alloc())?;
    let right = takes_turns(&mut store);
    assert!(rt; right);
    Ok(())
}

// An object's LSN, and its value; the greatest number is no LSN.
fn read(slots: &Slots, machine: &mut MemMachine, object: u32, value: &mut Vec<u8>) -> u64 {
    if object < slots.params().objects {
        slots.read(machine, object, value).unwrap_or(u64::MAX)
    } else {
        u64::MAX
    }
}

// The LSN of object 0 and its byte, 0 where its value is empty, and whether the last object is empty.
fn seen(alloc: Global, machine: &mut MemMachine) -> Result<(u64, u8, bool), Fail> {
    let slots = Slots::load(alloc, machine)?;
    let mut value = Vec::new(alloc);
    let other = read(&slots, machine, 7, &mut value);
    let empty = (other == 0) & value.is_empty();
    let lsn = read(&slots, machine, 0, &mut value);
    Ok((lsn, value.as_slice().first().copied().unwrap_or(0), empty))
}

// The values, whose LSNs are counted from 1 on.
const VALUES: [u8; 3] = [0xaa, 0xbb, 0xcc];

// A store with the first of these values.
fn with_values(alloc: Global, count: u64) -> Result<Store, Fail> {
    let mut store = Store::new(alloc)?;
    for (lsn, value) in VALUES.iter().enumerate() {
        if (lsn as u64) < count {
            store.put(lsn as u64 + 1, &[*value]);
        }
    }
    Ok(store)
}

// Puts one more value through a machine that fails after some calls, perhaps into a slot that is made ready first. It reports
// whether the call succeeded, and what is seen after a crash.
fn stopped(
    alloc: Global,
    count: u64,
    ready: bool,
    calls: u64,
    how: Crash,
) -> Result<(bool, (u64, u8, bool)), Fail> {
    let store = with_values(alloc, count)?;
    let mut slots = store.slots;
    let mut fuse = Fuse::new(store.machine, calls);
    let value = if count == 1 { 0xbb } else { 0xcc };
    let lsn = count.saturating_add(1);
    let is_ok = match ready {
        true => put_ready(&mut slots, &mut fuse, lsn, &[value]),
        false => count < 3 && put(&mut slots, &mut fuse, lsn, &[value]),
    };
    let mut left = fuse.into_inner().crash(how);
    Ok((is_ok, seen(alloc, &mut left)?))
}

// Whether the gate stands open after a crash at the last sync.
fn opens(how: Crash) -> bool {
    how == Crash::New || how == Crash::Fill(1)
}

// Whether the last of two or three values, whose replacement takes so many calls, is there after a stop or the one before.
fn is_old_or_new(
    alloc: Global,
    count: u64,
    ready: bool,
    last: u64,
    calls: u64,
    how: Crash,
) -> Result<bool, Fail> {
    let (is_ok, seen) = stopped(alloc, count, ready, calls, how)?;
    let is_new = calls >= last || (calls + 1 == last && opens(how));
    let wanted = match (count, is_new) {
        (1, false) => (1, 0xaa, true),
        (1, true) | (2, false) => (2, 0xbb, true),
        _ => (3, 0xcc, true),
    };
    Ok(is_ok == (calls == last) && seen == wanted)
}

#[test]
fn a_value_is_old_or_new(rt: HostRuntime) -> Result<(), Fail> {
    for (count, ready, last) in [(1, false, 6), (2, false, 8), (1, true, 9), (2, true, 10)] {
        for calls in 0..=last {
            for how in CRASHES {
                assert!(rt;
                    is_old_or_new(rt.alloc(), count, ready, last, calls, how)?,
                    "{how:?} after {calls} of {last}"
                );
            }
        }
    }
    Ok(())
}
