// A script of which one call fails: the status, the count that rises, what is said, and what is found after it.
use crate::acts::{does, stopped};
use crate::found::{stands_still, within};
use crate::inits::made;
use crate::running::{COPYING, after, copied, crash_by, end_by, run_failing};
use crate::scripts::{Script, scripts};
use crate::trials::{Trial, lost};
use disk_model::{Crash, MemMachine};
use redo_shell::Status;
use std::alloc::{AllocError, Global};
use std::test::Fail;

// A copy of a store, on which this call of a script fails, and the status and how many reads failed; 0 is no call.
fn failing(
    alloc: Global,
    script: &Script,
    store: &MemMachine,
    call: u64,
) -> Result<(MemMachine, (Status, u64)), AllocError> {
    let mut machine = copied(alloc, script.room, store, call)?;
    let ended = does(alloc, &mut machine, script.act);
    Ok((machine, ended))
}

// Whether a script of which no call fails makes calls, and says all that it has to.
pub fn is_whole(alloc: Global, script: &Script, store: &MemMachine) -> Result<bool, AllocError> {
    let (left, ended) = failing(alloc, script, store, 0)?;
    let calls = left.calls() > COPYING;
    Ok(calls & (ended == (Status::Done, 0)) & (left.said() == script.said))
}

// Whether the status is that of the one call that failed, and no read failed.
fn is_of_the_fault(machine: &MemMachine, ended: (Status, u64)) -> bool {
    match (machine.disk_faults(), machine.say_faults()) {
        (1, 0) => ended == (Status::DiskFault, 0),
        (0, 1) => ended == (Status::SayFault, 0),
        _ => false,
    }
}

// Whether a script that is stopped at this call says the same: nothing was said from the failing call on.
fn says_the_same(
    alloc: Global,
    script: &Script,
    store: &MemMachine,
    call: u64,
    said: &[u8],
) -> Result<bool, AllocError> {
    let machine = copied(alloc, script.room, store, 0)?;
    let once = stopped(alloc, machine, call.saturating_sub(1), script.act);
    Ok(once.said() == said)
}

// Whether the failing call is answered so.
fn is_told(
    alloc: Global,
    script: &Script,
    store: &MemMachine,
    call: u64,
) -> Result<bool, AllocError> {
    let (left, ended) = failing(alloc, script, store, call)?;
    let same = says_the_same(alloc, script, store, call, left.said()).unwrap_or(false);
    Ok(is_of_the_fault(&left, ended) & same)
}

// Whether what was forced is found after it.
fn keeps(
    alloc: Global,
    script: &Script,
    store: &MemMachine,
    call: u64,
    ends: (Option<Crash>, Crash),
) -> Result<bool, AllocError> {
    let (left, _) = failing(alloc, script, store, call)?;
    let bounds = within(script, left.said());
    Ok(stands_still(alloc, after(left, ends.0), script, bounds, ends.1))
}

// Whether the failing call is answered so, and what was forced is found after it, however it ends.
pub fn is_refused(
    alloc: Global,
    script: &Script,
    store: &MemMachine,
    call: u64,
) -> Result<bool, AllocError> {
    let mut all = is_told(alloc, script, store, call)?;
    for end in 0..6u64 {
        let ends = (end_by(end), crash_by(call));
        all &= keeps(alloc, script, store, call, ends)?;
    }
    Ok(all)
}

#[test]
fn each_call_is_refused(rt: HostRuntime) -> Result<(), Fail> {
    for (row, script) in scripts().iter().enumerate() {
        let lost = lost(rt.alloc(), script, Trial::Fault)?;
        assert!(rt; lost.is_none(), "script {row}, call {lost:?}");
    }
    Ok(())
}

// The status and the counts of failed reads, disk calls and writes of the output where this read of the input fails, and
// whether nothing is said.
fn reads_once(alloc: Global, read: u64) -> Result<((Status, u64), [u64; 2], bool), AllocError> {
    let mut machine = made(alloc)?;
    let ended = run_failing(alloc, &mut machine, "redo run", b"put 0 aa\n", read);
    let counts = [machine.disk_faults(), machine.say_faults()];
    Ok((ended, counts, machine.said().is_empty()))
}

#[test]
fn a_read_is_refused(rt: HostRuntime) -> Result<(), Fail> {
    assert!(rt; reads_once(rt.alloc(), 1)? == ((Status::ReadFault, 1), [0, 0], true));
    Ok(())
}
