// What no clause says of memory that grows, and of a read past the end: that calls succeed, and worked cases.
use disk_model::{FileNo, GrowMem, Machine, read_padded, settle};
use std::alloc::{AllocError, Global};
use std::test::Fail;

// Each write of one file, with what the file holds after it.
const WRITES: [(u64, &[u8], &[u8]); 4] = [
    (3, b"ab", b"\0\0\0ab"),
    (0, b"xyz", b"xyzab"),
    (4, b"c", b"xyzac"),
    (7, b"", b"xyzac\0\0"),
];

// Whether the writes leave what they should, and the other files and what was said go with them.
fn grows(machine: &mut GrowMem) -> bool {
    let mut all = true;
    for (at, bytes, left) in WRITES {
        all &= machine.write_at(FileNo::LogA, at, bytes).is_ok();
        all &= machine.bytes(FileNo::LogA) == left;
    }
    let calls = [
        machine.say(b"o").is_ok(),
        machine.say(b"k").is_ok(),
        settle(machine).is_ok(),
        machine.size(FileNo::LogA) == Ok(7),
    ];
    let others = machine.bytes(FileNo::LogB).is_empty() & (machine.said() == b"ok".as_slice());
    all & (calls == [true; 4]) & others
}

#[test]
fn grows_as_it_is_written(rt: HostRuntime) -> Result<(), Fail> {
    let mut machine = GrowMem::new(rt.alloc())?;
    let right = grows(&mut machine);
    assert!(rt; right);
    Ok(())
}

// A write that no memory holds, between calls that succeed.
fn counts_what_fails(alloc: Global) -> Result<bool, AllocError> {
    let mut machine = GrowMem::new(alloc)?;
    let kept = machine.write_at(FileNo::Objects, 0, b"kept").is_ok();
    let far = machine.write_at(FileNo::Objects, u64::MAX, b"x").is_err();
    let long = machine.write_at(FileNo::Objects, 1 << 63, b"x").is_err();
    let bytes = machine.bytes(FileNo::Objects) == b"kept".as_slice();
    let faults = [machine.disk_faults(), machine.say_faults()];
    Ok(([kept, far, long, bytes] == [true; 4]) & (faults == [2, 0]))
}

#[test]
fn a_write_out_of_memory_is_counted(rt: HostRuntime) -> Result<(), Fail> {
    assert!(rt; counts_what_fails(rt.alloc())?);
    Ok(())
}

const READS: [(u64, [u8; 4]); 4] = [
    (0, *b"abcd"),
    (3, *b"de\0\0"),
    (5, [0; 4]),
    (u64::MAX, [0; 4]),
];

// Whether each read of a file with five bytes gives these bytes.
fn pads(machine: &mut GrowMem) -> bool {
    let mut all = machine.write_at(FileNo::LogB, 0, b"abcde").is_ok();
    for (at, bytes) in READS {
        let mut into = [9; 4];
        all &= read_padded(machine, FileNo::LogB, at, &mut into).is_ok();
        all &= into == bytes;
    }
    all
}

#[test]
fn a_read_past_the_end_gives_zeros(rt: HostRuntime) -> Result<(), Fail> {
    let mut machine = GrowMem::new(rt.alloc())?;
    let right = pads(&mut machine);
    assert!(rt; right);
    Ok(())
}
