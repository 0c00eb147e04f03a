// A store on a machine in memory, with a log that is given byte by byte.
use disk_model::{Crash, FileNo, Machine, MemMachine};
use log_records::RecordLog;
use op_codec::AllOps;
use oper_core::Bounds;
use stable_objects::Slots;
use std::alloc::Global;
use std::test::Fail;

pub const BOUNDS: Bounds = Bounds {
    objects: 4,
    cap: 16,
    more: false,
};

// A block of `put 0 aa`, `put 1 bb` and `put 2 cc`, and the closed gate after it.
pub const THREE_PUTS: &[u8] = &[
    1, 60, 0, 0, 0, // the gate, and the payload's length
    1, 1, 0, 0, 0, 0, 0, 0, 0, 1, 0, 0, 0, 0, 2, 0, 0, 0, b'a', b'a', // put 0 aa
    1, 2, 0, 0, 0, 0, 0, 0, 0, 1, 1, 0, 0, 0, 2, 0, 0, 0, b'b', b'b', // put 1 bb
    1, 3, 0, 0, 0, 0, 0, 0, 0, 1, 2, 0, 0, 0, 2, 0, 0, 0, b'c', b'c', // put 2 cc
    0,
];

// A block of `put 0 aa`, `put 1 bb` and `swap 0 1`, and the closed gate after it.
pub const SWAPPED: &[u8] = &[
    1, 58, 0, 0, 0, // the gate, and the payload's length
    1, 1, 0, 0, 0, 0, 0, 0, 0, 1, 0, 0, 0, 0, 2, 0, 0, 0, b'a', b'a', // put 0 aa
    1, 2, 0, 0, 0, 0, 0, 0, 0, 1, 1, 0, 0, 0, 2, 0, 0, 0, b'b', b'b', // put 1 bb
    1, 3, 0, 0, 0, 0, 0, 0, 0, 6, 0, 0, 0, 0, 1, 0, 0, 0, // swap 0 1
    0,
];

// The same, with an identity write of object 1 after the swap.
pub const LOGGED: &[u8] = &[
    1, 77, 0, 0, 0, // the gate, and the payload's length
    1, 1, 0, 0, 0, 0, 0, 0, 0, 1, 0, 0, 0, 0, 2, 0, 0, 0, b'a', b'a', // put 0 aa
    1, 2, 0, 0, 0, 0, 0, 0, 0, 1, 1, 0, 0, 0, 2, 0, 0, 0, b'b', b'b', // put 1 bb
    1, 3, 0, 0, 0, 0, 0, 0, 0, 6, 0, 0, 0, 0, 1, 0, 0, 0, // swap 0 1
    2, 4, 0, 0, 0, 0, 0, 0, 0, 1, 0, 0, 0, 2, 0, 0, 0, b'a', b'a', // the identity write
    0,
];

// After the three puts: a block of an identity write of object 1 and of a checkpoint with its redo start, and the closed gate.
pub const CHECKED: &[u8] = &[
    1, 44, 0, 0, 0, // the gate, and the payload's length
    2, 4, 0, 0, 0, 0, 0, 0, 0, 1, 0, 0, 0, 2, 0, 0, 0, b'z', b'z', // the identity write
    3, 5, 0, 0, 0, 0, 0, 0, 0, 1, 0, 0, 0, // the checkpoint: the next LSN, and how many redo starts
    1, 0, 0, 0, 4, 0, 0, 0, 0, 0, 0, 0, // object 1 from 4 on
    0,
];

// The place of the first block of a log, and that of the block after three puts.
pub const FIRST: u64 = 33;

pub const BEHIND_THREE: u64 = 98;

// The place of the first slot of object 0, and what it is after the swap.
const SLOT: u64 = 32;

const SWAPPED_SLOT: &[u8] = &[1, 3, 0, 0, 0, 0, 0, 0, 0, 2, 0, 0, 0, b'b', b'b'];

// A store of 4 objects with this block in its log, and none of it in the slots.
pub fn with_block(alloc: Global, block: &[u8]) -> Result<MemMachine, Fail> {
    let mut machine = MemMachine::new(alloc, [512, 8192, 16], 400, 16384, Vec::new(alloc))?;
    RecordLog::<AllOps>::create(&mut machine)?;
    Slots::create(&mut machine, BOUNDS, 4128)?;
    machine.write_at(FileNo::LogA, FIRST, block)?;
    Ok(machine.crash(Crash::New))
}

// The same, with the slot of object 0 as a flush after a swap leaves it.
pub fn with_slot(alloc: Global, block: &[u8]) -> Result<MemMachine, Fail> {
    let mut machine = with_block(alloc, block)?;
    machine.write_at(FileNo::Objects, SLOT, SWAPPED_SLOT)?;
    Ok(machine.crash(Crash::New))
}
