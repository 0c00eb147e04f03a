// The objects file in versions 2 and 3, and a file that is laid out and filled before it is opened: worked bytes and places.
ghost use Rattle.std.specs.Prelude.{◌≡◌, IsTrue, false};
ghost use Rattle.stable_objects.specs.Upgrades.Admitting.{IsSecond};
ghost use Rattle.stable_objects.specs.Upgrades.Larger.{IsFirst, IsLarger};

use disk_model::{FileNo, Machine, MemMachine};
use formats::Params;
use oper_core::Bounds;
use stable_objects::{OpenErr, Slots};
use std::alloc::{AllocError, Global};
use std::test::Fail;

const SMALL: Params = Params {
    objects: 8,
    cap: 64,
    limit: 65536,
    more: false,
};

const LARGE: Params = Params {
    objects: 16,
    cap: 128,
    limit: 65536,
    more: false,
};

// The greatest number of objects, each of the least length.
const MANY: Bounds = Bounds {
    objects: 65535,
    cap: 16,
    more: false,
};

// The gate, the magic with the version, and no smaller store.
const HEADER: [u8; 17] = [
    0x01, 0x52, 0x44, 0x4f, 0x4f, 0x42, 0x4a, 0x30, 0x32, 0, 0, 0, 0, 0, 0, 0, 0,
];

// N, CAP and LIMIT of the small store, as they stand at 32 in version 2.
const NUMBERS: [u8; 12] = [8, 0, 0, 0, 64, 0, 0, 0, 0, 0, 1, 0];

// The same in version 3.
const THIRD_NUMBERS: [u8; 12] = [8, 0, 0, 1, 64, 0, 0, 0, 0, 0, 1, 0];

// Those of the large one, in version 2.
const LARGE_NUMBERS: [u8; 12] = [0x10, 0, 0, 0, 0x80, 0, 0, 0, 0, 0, 1, 0];

fn empty(alloc: Global) -> Result<MemMachine, AllocError> {
    MemMachine::new(alloc, [8192, 0, 0], 256, 256, Vec::new(alloc))
}

type Write<'a> = (u64, &'a [u8]);

// Writes bytes at offsets of the objects file.
fn write_all(machine: &mut MemMachine, writes: &[Write<'_>]) -> bool {
    let mut all = true;
    for (at, bytes) in writes {
        all &= machine.write_at(FileNo::Objects, *at, bytes).is_ok();
    }
    all
}

// Where a machine's file is damaged: none where it is no store, 9,999 where it is loaded, or not for another cause.
fn fault_of(alloc: Global, machine: &mut MemMachine) -> Option<u64> {
    match Slots::load(alloc, machine) {
        Err(OpenErr::NotAStore) => None,
        Err(OpenErr::Damaged { place, .. }) => Some(place),
        _ => Some(9999),
    }
}

// A store of version 2 with the small numbers: its slots begin at 64, the last gate stands at 1219.
fn fault_with(alloc: Global, at: u64, bytes: &[u8]) -> Result<Option<u64>, AllocError> {
    let mut machine = empty(alloc)?;
    write_all(
        &mut machine,
        &[(0, &HEADER), (32, &NUMBERS), (1219, &[0]), (at, bytes)],
    );
    Ok(fault_of(alloc, &mut machine))
}

// Bytes at an offset of such a file, and where it is then damaged. With other bounds in the header the numbers stand
// further on: at 1264 behind 8 objects of 64 bytes, where this file ends.
const FAULTS: [(u64, &[u8], Option<u64>); 13] = [
    (0, &[0], None),
    (7, &[0], Some(1)),
    (9, &[1, 0x10], Some(9)),
    (13, &[1, 0x40], Some(13)),
    (9, &[8, 0, 0, 0, 64], Some(1264)),
    (17, &[0xff, 0xff, 0xff, 0xff], Some(9999)),
    (32, &[0], Some(32)),
    (32, &[0, 0, 1], Some(32)),
    (36, &[15], Some(36)),
    (36, &[1, 0, 0x10], Some(36)),
    (40, &[0x7f, 0x10, 0], Some(40)),
    (64, &[1], Some(65)),
    (1219, &[1, 1, 0, 0, 0, 0, 0, 0, 0, 1], Some(1228)),
];

#[test]
fn finds_the_first_fault_of_version_two(rt: HostRuntime) -> Result<(), Fail> {
    for (at, bytes, fault) in FAULTS {
        assert!(rt;
            fault_with(rt.alloc(), at, bytes)? == fault,
            "{bytes:?} at {at}"
        );
    }
    Ok(())
}

// Whether a file of version 2 is one of version 3, once this byte stands behind N: none where it is not loaded.
fn admits(alloc: Global, byte: u8) -> Result<Option<bool>, AllocError> {
    let mut machine = empty(alloc)?;
    write_all(
        &mut machine,
        &[(0, &HEADER), (32, &NUMBERS), (1219, &[0]), (35, &[byte])],
    );
    match Slots::load(alloc, &mut machine) {
        Ok(slots) => Ok(Some(slots.params().more)),
        Err(_) => Ok(None),
    }
}

// Each value of that byte is one of the two versions.
const BYTES: [(u8, bool); 5] = [(0, false), (1, true), (2, true), (0x80, true), (0xff, true)];

#[test]
fn tells_version_three_by_a_byte(rt: HostRuntime) -> Result<(), Fail> {
    for (byte, more) in BYTES {
        assert!(rt; admits(rt.alloc(), byte)? == Some(more), "{byte}");
    }
    Ok(())
}

// Whether a new store that admits more is one of version 3, in 1,220 bytes.
fn is_made_third(alloc: Global) -> Result<bool, AllocError> {
    let mut machine = empty(alloc)?;
    let bounds = Bounds {
        objects: 8,
        cap: 64,
        more: true,
    };
    let made = Slots::close(&mut machine).is_ok()
        & Slots::create(&mut machine, bounds, 65536).is_ok();
    let bytes = machine.bytes(FileNo::Objects);
    Ok(
        made & (bytes.len() == 1220)
            & (bytes.get(..17) == Some(HEADER.as_slice()))
            & (bytes.get(32..44) == Some(THIRD_NUMBERS.as_slice())),
    )
}

// Whether a store is of version 2.
fn may_admit(slots: &Slots) -> bool
    ensures second { IsTrue result → IsSecond slots.now }
    ensures fewer { IsTrue result → slots.now.params.more ≡ false }
{
    !slots.is_first() && !slots.params().more
}

// Whether a store of version 2 becomes one of version 3 by one byte.
fn is_admitted(alloc: Global) -> Result<bool, AllocError> {
    let mut machine = empty(alloc)?;
    write_all(&mut machine, &[(0, &HEADER), (32, &NUMBERS), (1219, &[0])]);
    let Ok(slots) = Slots::load(alloc, &mut machine) else {
        return Ok(false);
    };
    if !may_admit(&slots) {
        return Ok(false);
    }
    let admitted = slots.admit_more(&mut machine).is_ok();
    let bytes = machine.bytes(FileNo::Objects);
    Ok(
        admitted
            & (bytes.len() == 1220)
            & (bytes.get(..17) == Some(HEADER.as_slice()))
            & (bytes.get(32..44) == Some(THIRD_NUMBERS.as_slice())),
    )
}

#[test]
fn makes_a_store_of_version_three(rt: HostRuntime) -> Result<(), Fail> {
    assert!(rt; is_made_third(rt.alloc())?);
    assert!(rt; is_admitted(rt.alloc())?);
    Ok(())
}

// Where a file of version 2 is damaged whose header says a smaller store of N objects or CAP bytes more than the store has:
// behind 9 objects of 64 bytes the numbers stand at 1418, behind 8 of 65 at 1280.
fn fault_behind(
    alloc: Global,
    objects: u8,
    cap: u8,
    numbers: u64,
) -> Result<Option<u64>, AllocError> {
    let mut machine = empty(alloc)?;
    write_all(
        &mut machine,
        &[
            (0, &HEADER),
            (9, &[objects]),
            (13, &[cap]),
            (numbers, &NUMBERS),
            (4000, &[0]),
        ],
    );
    Ok(fault_of(alloc, &mut machine))
}

#[test]
fn finds_numbers_below_those_of_the_smaller_store(rt: HostRuntime) -> Result<(), Fail> {
    assert!(rt; fault_behind(rt.alloc(), 8, 64, 1264)? == Some(9999));
    assert!(rt; fault_behind(rt.alloc(), 9, 64, 1418)? == Some(1418));
    assert!(rt; fault_behind(rt.alloc(), 8, 65, 1280)? == Some(1284));
    Ok(())
}

// How long the file of a new store with the greatest number of objects is; 0 where it is not loaded.
fn length_of_many(alloc: Global) -> Result<usize, AllocError> {
    let mut machine = MemMachine::new(alloc, [1 << 22, 0, 0], 1 << 18, 1 << 18, Vec::new(alloc))?;
    let made = Slots::create(&mut machine, MANY, 4128).is_ok();
    let loaded = Slots::load(alloc, &mut machine).is_ok();
    Ok(if made & loaded {
        machine.bytes(FileNo::Objects).len()
    } else {
        0
    })
}

#[test]
fn makes_a_store_of_version_two(rt: HostRuntime) -> Result<(), Fail> {
    assert!(rt; length_of_many(rt.alloc())? == 3801066);
    Ok(())
}

// Whether a file that is laid out, filled and opened is read so: no store before, then object 3 has the pair.
fn is_filled(alloc: Global) -> Result<bool, AllocError> {
    let mut machine = empty(alloc)?;
    let layout = Slots::new_layout(SMALL);
    let laid = [
        Slots::close(&mut machine).is_ok(),
        Slots::lay_out(&mut machine, SMALL).is_ok(),
        Slots::put_first(&mut machine, layout, 3, 5, &[0xaa, 0xbb]).is_ok(),
        fault_of(alloc, &mut machine).is_none(),
        Slots::open(&mut machine).is_ok(),
    ];
    Ok((laid == [true; 5]) & holds(alloc, &mut machine, 3, 5, &[0xaa, 0xbb]))
}

// Whether an object of the file has this pair.
fn holds(alloc: Global, machine: &mut MemMachine, object: u32, lsn: u64, value: &[u8]) -> bool {
    let Ok(slots) = Slots::load(alloc, machine) else {
        return false;
    };
    if object >= slots.params().objects {
        return false;
    }
    let mut into = Vec::new(alloc);
    let found = slots.read(machine, object, &mut into) == Ok(lsn);
    found & (into.as_slice() == value)
}

#[test]
fn fills_a_file_before_it_is_opened(rt: HostRuntime) -> Result<(), Fail> {
    assert!(rt; is_filled(rt.alloc())?);
    Ok(())
}

// Whether a store of version 1 may be made one with these numbers.
fn may_grow(slots: &Slots, params: Params) -> bool
    ensures first { IsTrue result → IsFirst slots.now }
    ensures larger { IsTrue result → IsLarger slots.now.params params }
{
    let stored = slots.params();
    slots.is_first()
        && stored.objects <= params.objects
        && stored.cap <= params.cap
        && (params.more || !stored.more)
}

// Makes the small store larger in place, with one pair, and writes the version where asked to.
fn grow(alloc: Global, machine: &mut MemMachine, version: bool) -> bool {
    let made = Slots::close(machine).is_ok()
        & Slots::create(
            machine,
            Bounds {
                objects: 8,
                cap: 64,
                more: false,
            },
            65536,
        )
        .is_ok();
    let Ok(slots) = Slots::load(alloc, machine) else {
        return false;
    };
    let stored = slots.params();
    if !may_grow(&slots, LARGE) {
        return false;
    }
    let layout = slots.larger_layout(LARGE);
    let laid = slots.lay_out_larger(machine, LARGE).is_ok();
    let put = Slots::put_first(machine, layout, 0, 1, &[0xaa]).is_ok();
    let written = !version || Slots::become_second(machine).is_ok();
    made & (stored == SMALL) & laid & put & written
}

// Whether the store is the small one until the version is written, and then the large one: the numbers stand at 1264, and
// the file has 5,668 bytes.
fn is_larger(alloc: Global) -> Result<bool, AllocError> {
    let [mut before, mut after] = [empty(alloc)?, empty(alloc)?];
    let grown = grow(alloc, &mut before, false) & grow(alloc, &mut after, true);
    let bytes = after.bytes(FileNo::Objects);
    let worked = (bytes.len() == 5668) & (bytes.get(1264..1276) == Some(LARGE_NUMBERS.as_slice()));
    Ok(
        grown
            & worked
            & holds(alloc, &mut before, 0, 0, &[])
            & holds(alloc, &mut after, 0, 1, &[0xaa]),
    )
}

#[test]
fn makes_a_store_larger_in_place(rt: HostRuntime) -> Result<(), Fail> {
    assert!(rt; is_larger(rt.alloc())?);
    Ok(())
}
