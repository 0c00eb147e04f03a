// Copies of logs on another machine, and what the blocks of a log have from an LSN on.

use crate::records::{BOUNDS, counts, four_records, loaded, new_store};
use crate::shortening::shorten;
use dirty_page_table::Starts;
use disk_model::{Crash, FileNo, MemMachine};
use formats::ReadErr;
use log_records::RewriteErr;
use std::alloc::Global;
use std::test::Fail;

// Of a log: the base that the four records are cut to, or 0 for a new log; the file of its copy, and the counts of that.
type Row = (u64, &'static [u8], [u64; 4]);

const COPIES: [Row; 4] = [
    (
        0,
        b"\x01RDOLOG01\x02\0\0\0\0\0\0\0\x01\0\0\0\0\0\0\0\0\0\0\0\0\0\0\0\
            \x01\x0d\0\0\0\
            \x03\x01\0\0\0\0\0\0\0\0\0\0\0\
            \0",
        [51, 1, 0, 0],
    ),
    (
        1,
        b"\x01RDOLOG01\x02\0\0\0\0\0\0\0\x01\0\0\0\0\0\0\0\0\0\0\0\0\0\0\0\
            \x01\x3b\0\0\0\
            \x01\x01\0\0\0\0\0\0\0\x01\x02\0\0\0\x01\0\0\0a\
            \x02\x02\0\0\0\0\0\0\0\x01\0\0\0\x02\0\0\0ab\
            \x01\x03\0\0\0\0\0\0\0\x01\x03\0\0\0\x03\0\0\0abc\
            \0",
        [97, 4, 2, 2],
    ),
    (
        2,
        b"\x01RDOLOG01\x02\0\0\0\0\0\0\0\x02\0\0\0\0\0\0\0\x01\0\0\0\0\0\0\0\
            \x01\x28\0\0\0\
            \x02\x02\0\0\0\0\0\0\0\x01\0\0\0\x02\0\0\0ab\
            \x01\x03\0\0\0\0\0\0\0\x01\x03\0\0\0\x03\0\0\0abc\
            \0",
        [78, 4, 2, 2],
    ),
    (
        4,
        b"\x01RDOLOG01\x02\0\0\0\0\0\0\0\x04\0\0\0\0\0\0\0\x02\0\0\0\0\0\0\0\
            \x01\x0d\0\0\0\
            \x03\x04\0\0\0\0\0\0\0\0\0\0\0\
            \0",
        [51, 4, 2, 2],
    ),
];

// Cuts the log of a machine to a base.
fn cut(alloc: Global, machine: &mut MemMachine, base: u64) -> Result<(), RewriteErr> {
    let mut log = loaded(alloc, machine, BOUNDS)?;
    let shortened = shorten(&mut log, machine, base, Starts::new(Vec::new(alloc)));
    drop(log);
    shortened
}

// The machine of a row.
fn source(alloc: Global, base: u64) -> Result<MemMachine, Fail> {
    if base == 0 {
        return new_store(alloc);
    }
    let (mut machine, _) = four_records(alloc)?;
    if base > 1 {
        cut(alloc, &mut machine, base)?;
    }
    Ok(machine)
}

// The counts of a machine's log.
fn counts_in(alloc: Global, machine: &mut MemMachine) -> Result<[u64; 4], ReadErr> {
    let log = loaded(alloc, machine, BOUNDS)?;
    let found = counts(&log);
    drop(log);
    Ok(found)
}

// Whether the copy is this file, and its log has these counts after a crash.
fn is_copied(alloc: Global, row: Row) -> Result<bool, Fail> {
    let (base, file, wanted) = row;
    let mut machine = source(alloc, base)?;
    let mut target = new_store(alloc)?;
    let log = loaded(alloc, &mut machine, BOUNDS)?;
    let copied = log.copy_to(&mut machine, &mut target);
    drop(log);
    let mut left = target.crash(Crash::Old);
    let is_file = left.bytes(FileNo::LogB) == file;
    let found = counts_in(alloc, &mut left);
    drop(left);
    copied?;
    Ok(is_file & (found? == wanted))
}

#[test]
fn a_copy_is_as_worked(rt: HostRuntime) -> Result<(), Fail> {
    for row in COPIES {
        assert!(rt; is_copied(rt.alloc(), row)?, "from {}", row.0);
    }
    Ok(())
}

// What the blocks of a row's log have from an LSN on, each after a stroke.
const BLOCKS: [(u64, u64, &[u8]); 6] = [
    (0, 1, b""),
    (
        1,
        1,
        b"|\x01\x01\0\0\0\0\0\0\0\x01\x02\0\0\0\x01\0\0\0a\
            \x02\x02\0\0\0\0\0\0\0\x01\0\0\0\x02\0\0\0ab\
            |\x01\x03\0\0\0\0\0\0\0\x01\x03\0\0\0\x03\0\0\0abc",
    ),
    (
        1,
        2,
        b"|\x02\x02\0\0\0\0\0\0\0\x01\0\0\0\x02\0\0\0ab\
            |\x01\x03\0\0\0\0\0\0\0\x01\x03\0\0\0\x03\0\0\0abc",
    ),
    (1, 3, b"|\x01\x03\0\0\0\0\0\0\0\x01\x03\0\0\0\x03\0\0\0abc"),
    (1, 4, b""),
    (4, 1, b""),
];

// What the blocks of a machine's log have from an LSN on.
fn blocks_in(alloc: Global, machine: &mut MemMachine, from: u64) -> Result<Vec<u8>, Fail> {
    let log = loaded(alloc, machine, BOUNDS)?;
    let mut reader = log.block_reader(machine, from)?;
    let mut block = Vec::new(alloc);
    let mut all = Vec::new(alloc);
    while reader.next_block(machine, &mut block)? {
        all.push(b'|')?;
        all.extend_from_slice(&block)?;
    }
    Ok(all)
}

fn has_blocks(alloc: Global, base: u64, from: u64, wanted: &[u8]) -> Result<bool, Fail> {
    let mut machine = source(alloc, base)?;
    let found = blocks_in(alloc, &mut machine, from);
    drop(machine);
    Ok(found?.as_slice() == wanted)
}

#[test]
fn blocks_are_read_from_an_lsn_on(rt: HostRuntime) -> Result<(), Fail> {
    for (base, from, wanted) in BLOCKS {
        assert!(rt;
            has_blocks(rt.alloc(), base, from, wanted)?,
            "{base} from {from}"
        );
    }
    Ok(())
}
