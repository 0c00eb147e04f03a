// A log file that grows by small blocks is filled ahead by zeros.
use crate::log::{CRASHES, add};
use disk_model::{FileNo, Fuse, MemMachine};
use log_blocks::LogFile;
use std::alloc::Global;
use std::test::Fail;

// A log of so many blocks of six bytes each, forced one by one, in a file that may have so many bytes.
fn small_blocks(alloc: Global, count: u64, size: u64) -> Result<(MemMachine, LogFile), Fail> {
    let mut machine = MemMachine::new(alloc, [64, size, 64], 512, 1 << 18, Vec::new(alloc))?;
    LogFile::create(&mut machine)?;
    let mut log = LogFile::load(alloc, &mut machine)?;
    for _ in 0..count {
        add(&mut log, b"a")?;
        log.force(&mut machine)?;
    }
    Ok((machine, log))
}

// How long the file is after so many blocks, where the log ends, and how many calls failed.
fn lengths(alloc: Global, count: u64, size: u64) -> Result<(usize, u64, u64), Fail> {
    let (machine, log) = small_blocks(alloc, count, size)?;
    Ok((
        machine.bytes(FileNo::LogA).len(),
        log.used(),
        machine.disk_faults(),
    ))
}

#[test]
fn a_file_is_filled_ahead_after_sixteen_growths(rt: HostRuntime) -> Result<(), Fail> {
    let alloc = rt.alloc();
    assert!(rt; lengths(alloc, 16, 1 << 17)? == (130, 129, 0));
    assert!(rt; lengths(alloc, 17, 1 << 17)? == (65_666, 135, 0));
    assert!(rt; lengths(alloc, 40, 1 << 17)? == (65_666, 273, 0));
    Ok(())
}

#[test]
fn a_disk_that_is_full_refuses_zeros_and_takes_blocks(rt: HostRuntime) -> Result<(), Fail> {
    let alloc = rt.alloc();
    assert!(rt; lengths(alloc, 16, 256)? == (130, 129, 0));
    assert!(rt; lengths(alloc, 17, 256)? == (136, 135, 1));
    assert!(rt; lengths(alloc, 30, 256)? == (214, 213, 1));
    Ok(())
}

// Where the log ends after each crash, where the seventeenth force is stopped after so many calls: it writes zeros, the block
// and the gate, and syncs each.
const STOPS: [[u64; 6]; 7] = [
    [129, 129, 129, 129, 129, 129],
    [129, 129, 129, 129, 129, 129],
    [129, 129, 129, 129, 129, 129],
    [129, 129, 129, 129, 129, 129],
    [129, 129, 129, 129, 129, 129],
    [129, 135, 129, 135, 129, 129],
    [135, 135, 135, 135, 135, 135],
];

#[test]
fn a_stop_within_the_zeros_leaves_the_log(rt: HostRuntime) -> Result<(), Fail> {
    let alloc = rt.alloc();
    for (calls, row) in STOPS.iter().enumerate() {
        for (how, end) in CRASHES.iter().zip(row) {
            let (machine, mut log) = small_blocks(alloc, 16, 1 << 17)?;
            add(&mut log, b"a")?;
            let mut fuse = Fuse::new(machine, calls as u64);
            let is_ok = log.force(&mut fuse).is_ok();
            let mut left = fuse.into_inner().crash(*how);
            let used = LogFile::load(alloc, &mut left)?.used();
            assert!(rt;
                is_ok == (calls == 6) && used == *end,
                "after {calls} calls, {how:?}: {used}"
            );
        }
    }
    Ok(())
}
