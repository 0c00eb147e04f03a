// The objects file: that calls succeed, and worked bytes.
use disk_model::{Crash, FileNo, Fuse, Machine, MemMachine};
use oper_core::Bounds;
use stable_objects::{OpenErr, Slots};
use std::alloc::{AllocError, Global};
use std::test::Fail;

const BOUNDS: Bounds = Bounds {
    objects: 8,
    cap: 64,
    more: false,
};

const LIMIT: u32 = 65536;

// The gate, the magic, N, CAP and LIMIT.
const HEADER: [u8; 21] = [
    0x01, 0x52, 0x44, 0x4f, 0x4f, 0x42, 0x4a, 0x30, 0x31, 0x08, 0, 0, 0, 0x40, 0, 0, 0, 0, 0, 0x01,
    0,
];

fn empty(alloc: Global) -> Result<MemMachine, AllocError> {
    MemMachine::new(alloc, [2048, 0, 0], 256, 256, Vec::new(alloc))
}

// A machine whose objects file has a closed gate and nothing else.
fn closed(alloc: Global) -> Result<MemMachine, AllocError> {
    let mut machine = empty(alloc)?;
    let _ = Slots::close(&mut machine);
    Ok(machine)
}

fn store(alloc: Global) -> Result<MemMachine, AllocError> {
    let mut machine = closed(alloc)?;
    let _ = Slots::create(&mut machine, BOUNDS, LIMIT);
    Ok(machine)
}

type Write<'a> = (u64, &'a [u8]);

// Writes bytes at offsets of the objects file.
fn write_all(machine: &mut MemMachine, writes: &[Write<'_>]) -> bool {
    let mut all = true;
    for (at, bytes) in writes {
        all &= machine.write_at(FileNo::Objects, *at, bytes).is_ok();
    }
    all
}

// Whether the file of a new store has the header and else zeros, made by a write for each gate and one for the fields.
fn is_as_worked(machine: &MemMachine) -> bool {
    let bytes = machine.bytes(FileNo::Objects);
    let rest = bytes.strip_prefix(HEADER.as_slice()).unwrap_or(&[1]);
    (machine.calls() == 23) & (bytes.len() == 1188) & rest.iter().all(|b| *b == 0)
}

fn are_new(slots: &Slots) -> bool {
    (slots.bounds() == BOUNDS) & (slots.params().limit == LIMIT) & (slots.params().cap == 64)
}

// Whether a machine's file is loaded as that of a new store.
fn loads_new(alloc: Global, machine: &mut MemMachine) -> bool {
    match Slots::load(alloc, machine) {
        Ok(slots) => are_new(&slots),
        Err(_) => false,
    }
}

// Whether the store of a machine is opened until its gate is closed.
fn is_opened_until_closed(alloc: Global, machine: &mut MemMachine) -> bool {
    let opened = [
        Slots::begins(machine) == Ok(true),
        loads_new(alloc, machine),
    ];
    let closed = [
        Slots::close(machine) == Ok(()),
        Slots::begins(machine) == Ok(false),
        fault_of(alloc, machine).is_none(),
    ];
    (opened == [true; 2]) & (closed == [true; 3])
}

fn is_made(alloc: Global) -> Result<bool, AllocError> {
    let mut machine = store(alloc)?;
    let worked = is_as_worked(&machine);
    Ok(worked & is_opened_until_closed(alloc, &mut machine))
}

#[test]
fn makes_a_store(rt: HostRuntime) -> Result<(), Fail> {
    assert!(rt; is_made(rt.alloc())?);
    Ok(())
}

// An open slot that has the LSN 5 and two bytes.
const FIVE: [u8; 15] = [1, 5, 0, 0, 0, 0, 0, 0, 0, 2, 0, 0, 0, 0xaa, 0xbb];

// Bytes that are written at an offset of a new store's file, and where that is then damaged, or no store. The first slots
// of the objects begin at 32, 186 and so on, the second ones at 109, 263 and so on.
const FAULTS: [(u64, &[u8], Option<u64>); 15] = [
    (0, &[0], None),
    (0, &[7, 0], None),
    (1, &[0], Some(1)),
    (7, &[0, 0], Some(1)),
    (9, &[0], Some(9)),
    (9, &[0x01, 0x10], Some(9)),
    (12, &[1, 15], Some(9)),
    (13, &[15], Some(13)),
    (17, &[0x7f, 0x10, 0], Some(17)),
    (32, &[1], Some(33)),
    (109, &[1], Some(110)),
    (1187, &[1], Some(1188)),
    (32, &[1, 0, 0, 0, 0, 0, 0, 0, 0x40], Some(33)),
    (32, &[1, 1, 0, 0, 0, 0, 0, 0, 0, 65], Some(41)),
    (1187, &[1, 1, 0, 0, 0, 0, 0, 0, 0, 1, 0, 0, 0], Some(1196)),
];

// Why a machine's file is not loaded: the offset of the damage, or none where it is no store. 9,999 where it is loaded, or
// for another cause.
fn fault_of(alloc: Global, machine: &mut MemMachine) -> Option<u64> {
    match Slots::load(alloc, machine) {
        Err(OpenErr::NotAStore) => None,
        Err(OpenErr::Damaged { place, .. }) => Some(place),
        _ => Some(9999),
    }
}

// Why it is not loaded after these writes; 9,998 where one fails.
fn fault_after(alloc: Global, machine: &mut MemMachine, writes: &[Write<'_>]) -> Option<u64> {
    let written = write_all(machine, writes);
    let fault = fault_of(alloc, machine);
    if written { fault } else { Some(9998) }
}

// Why the file of a new store is not loaded after these writes.
fn fault_with(alloc: Global, writes: &[Write<'_>]) -> Result<Option<u64>, AllocError> {
    let mut machine = store(alloc)?;
    Ok(fault_after(alloc, &mut machine, writes))
}

#[test]
fn finds_the_first_fault(rt: HostRuntime) -> Result<(), Fail> {
    for (at, bytes, fault) in FAULTS {
        assert!(rt;
            fault_with(rt.alloc(), &[(at, bytes)])? == fault,
            "{bytes:?} at {at}"
        );
    }
    Ok(())
}

// Where a file is damaged that is one byte short.
fn fault_of_a_short_file(alloc: Global) -> Result<Option<u64>, AllocError> {
    let mut machine = empty(alloc)?;
    Ok(fault_after(alloc, &mut machine, &[(0, &HEADER), (1186, &[1])]))
}

// Where a file is damaged with an LSN in both slots of object 0; and whether another one mends that.
fn fault_of_an_lsn_twice(alloc: Global) -> Result<[Option<u64>; 2], AllocError> {
    Ok([
        fault_with(alloc, &[(32, &FIVE), (109, &FIVE)])?,
        fault_with(alloc, &[(32, &FIVE), (109, &FIVE), (110, &[6])])?,
    ])
}

#[test]
fn finds_a_short_file_and_an_lsn_twice(rt: HostRuntime) -> Result<(), Fail> {
    assert!(rt; fault_of_a_short_file(rt.alloc())? == Some(0));
    assert!(rt; fault_of_an_lsn_twice(rt.alloc())? == [Some(110), Some(9999)]);
    Ok(())
}

// An open slot of object 3, an older one of object 4 after a newer, and one at the file's end.
const SLOTS: [Write<'static>; 4] = [(571, &FIVE), (648, &[1, 9]), (725, &FIVE), (1187, &[1, 7])];

// A store with these slots.
fn with_slots(alloc: Global) -> Result<MemMachine, AllocError> {
    let mut machine = store(alloc)?;
    write_all(&mut machine, SLOTS.as_slice());
    Ok(machine)
}

// An object's LSN, and how many calls reading it takes. The greatest number is no LSN.
fn read(slots: &Slots, machine: &mut MemMachine, object: u32, into: &mut Vec<u8>) -> (u64, u64) {
    if object >= slots.params().objects {
        return (u64::MAX, 0);
    }
    let before = machine.calls();
    let lsn = slots.read(machine, object, into).unwrap_or(u64::MAX);
    (lsn, machine.calls().saturating_sub(before))
}

// Whether an object has this LSN and this value, read by so many calls.
fn is_read(alloc: Global, object: u32, lsn: u64, value: &[u8], calls: u64) -> Result<bool, Fail> {
    let mut machine = with_slots(alloc)?;
    let slots = Slots::load(alloc, &mut machine)?;
    let mut into = Vec::new(alloc);
    let found = read(&slots, &mut machine, object, &mut into);
    Ok((found == (lsn, calls)) & (into.as_slice() == value))
}

// Where the first open slot has an LSN of at least each of these numbers.
fn first_slots(alloc: Global) -> Result<[Option<u64>; 4], Fail> {
    let slots = Slots::load(alloc, &mut with_slots(alloc)?)?;
    Ok([
        slots.first_at(0),
        slots.first_at(5),
        slots.first_at(6),
        slots.first_at(10),
    ])
}

#[test]
fn reads_what_an_open_slot_holds(rt: HostRuntime) -> Result<(), Fail> {
    for (object, lsn, value, calls) in [
        (3, 5, [0xaa, 0xbb].as_slice(), 2),
        (4, 9, &[], 2),
        (2, 0, &[], 0),
        (7, 7, &[], 2),
    ] {
        assert!(rt;
            is_read(rt.alloc(), object, lsn, value, calls)?,
            "object {object}"
        );
    }
    assert!(rt; first_slots(rt.alloc())? == [Some(572), Some(572), Some(649), None]);
    Ok(())
}

// A store without values, the last gate of whose objects file stands at this offset.
fn large(alloc: Global, objects: u32, cap: u32, last: u64) -> Result<MemMachine, AllocError> {
    let mut machine = MemMachine::new(alloc, [1 << 20, 0, 0], 64, 64, Vec::new(alloc))?;
    let [objects, cap] = [objects.to_le_bytes(), cap.to_le_bytes()];
    write_all(
        &mut machine,
        &[(0, &HEADER), (9, &objects), (13, &cap), (last, &[0])],
    );
    Ok(machine)
}

// How many calls load such a store; 0 where it is not loaded.
fn calls_to_load(alloc: Global, objects: u32, cap: u32, last: u64) -> Result<u64, AllocError> {
    let mut machine = large(alloc, objects, cap, last)?;
    let before = machine.calls();
    let loaded = Slots::load(alloc, &mut machine).is_ok();
    let calls = machine.calls().saturating_sub(before);
    Ok(if loaded { calls } else { 0 })
}

// N, CAP, the place of the last gate, and the calls: four for the header, the numbers and the file's length, and the others
// for the heads, of which a read of 64 KiB gives 851 in the first row. In the last row each is read by itself.
const LOADS: [(u32, u32, u64, u64); 4] = [
    (4096, 64, 630739, 14),
    (8, 64, 1187, 5),
    (8, 4096, 61667, 5),
    (8, 4097, 61682, 20),
];

#[test]
fn loads_many_heads_by_one_call(rt: HostRuntime) -> Result<(), Fail> {
    for (objects, cap, last, calls) in LOADS {
        assert!(rt;
            calls_to_load(rt.alloc(), objects, cap, last)? == calls,
            "{objects} objects of {cap}"
        );
    }
    Ok(())
}

// What a crash leaves of a store whose making was stopped after so many calls.
fn stopped(alloc: Global, calls: u64, how: Crash) -> Result<MemMachine, AllocError> {
    let mut fuse = Fuse::new(closed(alloc)?, calls);
    let _ = Slots::create(&mut fuse, BOUNDS, LIMIT);
    Ok(fuse.into_inner().crash(how))
}

// Whether that begins a store and is one where it should, and else neither.
fn is_whole(alloc: Global, calls: u64, how: Crash, whole: bool) -> Result<bool, AllocError> {
    let mut left = stopped(alloc, calls, how)?;
    let begins = Slots::begins(&mut left) == Ok(whole);
    Ok(begins & (Slots::load(alloc, &mut left).is_ok() == whole))
}

#[test]
fn stops_at_each_call(rt: HostRuntime) -> Result<(), Fail> {
    for calls in 0..21 {
        for (how, opens) in [
            (Crash::Old, false),
            (Crash::New, true),
            (Crash::Fill(1), true),
            (Crash::Fill(7), false),
        ] {
            let whole = calls == 20 || (calls == 19 && opens);
            assert!(rt;
                is_whole(rt.alloc(), calls, how, whole)?,
                "{how:?} after {calls}"
            );
        }
    }
    Ok(())
}
