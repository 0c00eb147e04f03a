// A rewrite of the log of four records: the new file's bytes, and what is found in it.
ghost use Rattle.std.specs.Prelude.{◌≡◌, []};

use crate::log::{NEW_LOG, empty_store};
use crate::records::{BOUNDS, counts, four_records, loaded};
use dirty_page_table::{DirtyPageTable, Starts};
use disk_model::{Crash, FileNo, Machine, MemMachine};
use formats::{MAX_LOG, ReadErr};
use log_records::{RecordLog, RewriteErr};
use op_meaning::PlainOp;
use std::alloc::Global;
use std::test::Fail;

// A base, the file of the new log, and the counts of that log.
type Row = (u64, &'static [u8], [u64; 4]);

const REWRITTEN: [Row; 2] = [
    (
        2,
        b"\x01RDOLOG01\x02\0\0\0\0\0\0\0\x02\0\0\0\0\0\0\0\x01\0\0\0\0\0\0\0\
            \x01\x35\0\0\0\
            \x02\x02\0\0\0\0\0\0\0\x01\0\0\0\x02\0\0\0ab\
            \x01\x03\0\0\0\0\0\0\0\x01\x03\0\0\0\x03\0\0\0abc\
            \x03\x04\0\0\0\0\0\0\0\0\0\0\0\
            \0",
        [91, 4, 2, 2],
    ),
    (
        4,
        b"\x01RDOLOG01\x02\0\0\0\0\0\0\0\x04\0\0\0\0\0\0\0\x02\0\0\0\0\0\0\0\
            \x01\x0d\0\0\0\
            \x03\x04\0\0\0\0\0\0\0\0\0\0\0\
            \0",
        [51, 4, 2, 2],
    ),
];

// Puts a log from a base on, with an empty checkpoint for its end, in the place of this one, where it has that base and
// nothing waits.
pub fn shorten<M: Machine>(
    log: &mut RecordLog<PlainOp>,
    machine: &mut M,
    base: u64,
    starts: Starts,
) -> Result<(), RewriteErr>
    requires { starts ≡ [] }
{
    let next = log.next();
    if log.buffered() == 0 && log.base() <= base && base <= next {
        log.rewrite(machine, base, DirtyPageTable { next, starts }, MAX_LOG)?;
    }
    Ok(())
}

// The counts of a machine's log.
fn counts_in(alloc: Global, machine: &mut MemMachine) -> Result<[u64; 4], ReadErr> {
    let log = loaded(alloc, machine, BOUNDS)?;
    let found = counts(&log);
    drop(log);
    Ok(found)
}

// Whether a rewrite from a base on makes this file, and its log has these counts, at once and after a crash.
fn is_as_worked(alloc: Global, row: Row) -> Result<bool, Fail> {
    let (base, file, wanted) = row;
    let (mut machine, _) = four_records(alloc)?;
    let mut log = loaded(alloc, &mut machine, BOUNDS)?;
    let shortened = shorten(&mut log, &mut machine, base, Starts::new(Vec::new(alloc)));
    let at_once = counts(&log);
    drop(log);
    let mut left = machine.crash(Crash::Old);
    let is_file = left.bytes(FileNo::LogB) == file;
    let found = counts_in(alloc, &mut left);
    drop(left);
    shortened?;
    Ok(is_file & ([at_once, found?] == [wanted; 2]))
}

#[test]
fn a_rewritten_log_is_as_worked(rt: HostRuntime) -> Result<(), Fail> {
    for row in REWRITTEN {
        assert!(rt; is_as_worked(rt.alloc(), row)?, "from {}", row.0);
    }
    Ok(())
}

// Whether a log of the last epoch is not rewritten for that.
fn fails_at_the_last_epoch(alloc: Global) -> Result<bool, Fail> {
    let mut machine = empty_store(alloc)?;
    let mut bytes = NEW_LOG;
    bytes[9] = 0;
    bytes[16] = 0x40;
    machine.write_at(FileNo::LogA, 0, &bytes)?;
    machine.write_at(FileNo::LogB, 0, &[0])?;
    let mut log = loaded(alloc, &mut machine, BOUNDS)?;
    let fault = shorten(&mut log, &mut machine, 1, Starts::new(Vec::new(alloc))).err();
    drop(log);
    Ok(fault == Some(RewriteErr::Exhausted { epoch: 1 << 62 }))
}

#[test]
fn no_epoch_comes_after_the_last(rt: HostRuntime) -> Result<(), Fail> {
    assert!(rt; fails_at_the_last_epoch(rt.alloc())?);
    Ok(())
}
