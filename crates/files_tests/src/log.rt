// A log on a machine in memory: that calls succeed, and worked bytes.
use disk_model::{Crash, FileNo, Fuse, Machine, MemMachine};
use formats::ReadErr;
use log_blocks::{LogFile, PayloadReader};
use std::alloc::{AllocError, Global};
use std::test::Fail;

pub const NEW_LOG: [u8; 34] =
    *b"\x01RDOLOG01\x01\0\0\0\0\0\0\0\x01\0\0\0\0\0\0\0\0\0\0\0\0\0\0\0\0";

pub const CRASHES: [Crash; 6] = [
    Crash::Old,
    Crash::New,
    Crash::Fill(0),
    Crash::Fill(1),
    Crash::Fill(7),
    Crash::Fill(255),
];

pub fn empty_store(alloc: Global) -> Result<MemMachine, AllocError> {
    MemMachine::new(alloc, [64, 64, 64], 64, 512, Vec::new(alloc))
}

// A settled machine with a new log.
pub fn new_store(alloc: Global) -> Result<MemMachine, Fail> {
    let mut machine = empty_store(alloc)?;
    LogFile::create(&mut machine)?;
    Ok(machine.crash(Crash::New))
}

fn a_new_log_is_as_worked(alloc: Global) -> Result<bool, Fail> {
    let machine = new_store(alloc)?;
    Ok(
        machine.bytes(FileNo::LogA) == NEW_LOG.as_slice()
            && machine.bytes(FileNo::LogB) == [0].as_slice()
            && machine.bytes(FileNo::Objects).is_empty(),
    )
}

#[test]
fn a_new_log_has_34_bytes(rt: HostRuntime) -> Result<(), Fail> {
    assert!(rt; a_new_log_is_as_worked(rt.alloc())?);
    Ok(())
}

// Makes room for a short payload, and adds it. It reports by how much the log grows.
pub fn add(log: &mut LogFile, payload: &[u8]) -> Result<u64, Fail> {
    let before = log.used();
    log.make_room(payload.len() as u64)?;
    if before < 1 << 20 && payload.len() < 1 << 20 {
        log.push(payload);
    }
    Ok(log.used().saturating_sub(before))
}

// A log with the blocks `abc` and `d`, and by how much each of three payloads let it grow.
fn two_blocks(alloc: Global) -> Result<(MemMachine, [u64; 3]), Fail> {
    let mut machine = new_store(alloc)?;
    let mut log = LogFile::load(alloc, &mut machine)?;
    let first = add(&mut log, b"ab")?;
    let second = add(&mut log, b"c")?;
    log.force(&mut machine)?;
    let third = add(&mut log, b"d")?;
    log.force(&mut machine)?;
    Ok((machine, [first, second, third]))
}

// The place and the bytes of what a block holds.
type Block = (u64, Vec<u8>);

// The next block, of at most 64 KiB; none where none comes.
fn next_block(
    alloc: Global,
    reader: &mut PayloadReader,
    machine: &mut MemMachine,
) -> Result<Option<Block>, Fail> {
    if reader.remaining() > 0 || !reader.next_payload(machine)? {
        return Ok(None);
    }
    let place = reader.place();
    reader.read_more(machine)?;
    let bytes = reader.bytes().to_vec(alloc)?;
    let count = reader.bytes().len();
    reader.take(count);
    Ok(Some((place, bytes)))
}

// The first blocks of a log, at most three.
pub fn blocks_of(
    alloc: Global,
    log: &LogFile,
    machine: &mut MemMachine,
) -> Result<Vec<Block>, Fail> {
    let mut reader = log.reader(alloc, machine)?;
    let mut found = Vec::new(alloc);
    for _ in 0..3 {
        if let Some(block) = next_block(alloc, &mut reader, machine)? {
            found.push(block)?;
        }
    }
    Ok(found)
}

// Whether the two blocks are found again, each at its place.
fn two_blocks_are_found(alloc: Global) -> Result<bool, Fail> {
    let (mut machine, grown) = two_blocks(alloc)?;
    let log = LogFile::load(alloc, &mut machine)?;
    let found = blocks_of(alloc, &log, &mut machine)?;
    let [(first, abc), (second, d)] = found.as_slice() else {
        return Ok(false);
    };
    let is_first = *first == 38 && abc.as_slice() == b"abc".as_slice();
    let is_second = *second == 46 && d.as_slice() == b"d".as_slice();
    Ok(grown == [7, 1, 6] && log.used() == 47 && log.growth(3) == 8 && is_first && is_second)
}

#[test]
fn forced_payloads_are_read_back(rt: HostRuntime) -> Result<(), Fail> {
    assert!(rt; two_blocks_are_found(rt.alloc())?);
    Ok(())
}

// Whether a force that is stopped after some calls answers Ok, and how many blocks are there after a crash.
fn stopped(alloc: Global, calls: u64, how: Crash) -> Result<(bool, usize), Fail> {
    let mut machine = new_store(alloc)?;
    let mut log = LogFile::load(alloc, &mut machine)?;
    add(&mut log, b"abc")?;
    let mut fuse = Fuse::new(machine, calls);
    let is_ok = log.force(&mut fuse).is_ok();
    let mut left = fuse.into_inner().crash(how);
    let log = LogFile::load(alloc, &mut left)?;
    let found = blocks_of(alloc, &log, &mut left)?;
    Ok((is_ok, found.len()))
}

// The blocks after each crash, where a force is stopped after so many calls.
const STOPS: [[usize; 6]; 5] = [
    [0, 0, 0, 0, 0, 0],
    [0, 0, 0, 0, 0, 0],
    [0, 0, 0, 0, 0, 0],
    [0, 1, 0, 1, 0, 0],
    [1, 1, 1, 1, 1, 1],
];

#[test]
fn a_stopped_force_is_whole_or_absent(rt: HostRuntime) -> Result<(), Fail> {
    for (calls, row) in STOPS.iter().enumerate() {
        for (how, blocks) in CRASHES.iter().zip(row) {
            let left = stopped(rt.alloc(), calls as u64, *how)?;
            assert!(rt;
                left == (calls == 4, *blocks),
                "after {calls} calls, {how:?}"
            );
        }
    }
    Ok(())
}

// Whether a load says this file to be damaged at this offset, where a new log has these bytes at another one of log A, is
// cut there where there are none, and log B has these bytes.
fn is_damaged(
    alloc: Global,
    written: (u64, &[u8]),
    log_b: &[u8],
    fault: (FileNo, u64),
) -> Result<bool, Fail> {
    let mut machine = empty_store(alloc)?;
    let (at, bytes) = written;
    let front = if bytes.is_empty() { at.min(34) } else { 34 };
    machine.write_at(FileNo::LogA, 0, NEW_LOG.split_at(front as usize).0)?;
    machine.write_at(FileNo::LogA, at, bytes)?;
    machine.write_at(FileNo::LogB, 0, log_b)?;
    let (file, place) = fault;
    Ok(LogFile::load(alloc, &mut machine).err() == Some(ReadErr::Damaged { file, place }))
}

// What is written into a new log A, and where it is then damaged.
const LOG_A: [(u64, &[u8], u64); 17] = [
    (0, &[0], 0),
    (1, b"r", 1),
    (9, &[0], 9),
    (16, &[0x80], 9),
    (17, &[0], 17),
    (24, &[0x80], 17),
    (25, &[1], 25),
    (0, &[], 0),
    (8, &[], 1),
    (9, &[], 9),
    (17, &[], 17),
    (20, &[], 33),
    (33, &[], 33),
    (33, b"\x01", 34),
    (33, b"\x01\0\0\0\0ab", 34),
    (33, b"\x01\x02\0\0\0ab", 34),
    (33, b"\x01\x01\0\0\x40ab", 34),
];

// The bytes of log B beside a new log A, and where it is then damaged.
const LOG_B: [(&[u8], u64); 3] = [(b"", 0), (b"\x01", 1), (&NEW_LOG, 9)];

#[test]
fn a_wrong_log_is_damaged(rt: HostRuntime) -> Result<(), Fail> {
    for (at, bytes, place) in LOG_A {
        let damaged = is_damaged(rt.alloc(), (at, bytes), &[0], (FileNo::LogA, place))?;
        assert!(rt; damaged, "{bytes:?} at {at}");
    }
    for (log_b, place) in LOG_B {
        let damaged = is_damaged(rt.alloc(), (34, b""), log_b, (FileNo::LogB, place))?;
        assert!(rt; damaged, "{log_b:?}");
    }
    Ok(())
}
