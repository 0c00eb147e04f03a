// A script that is stopped at each call, and another process after it that is stopped too.
use crate::acts::{Act, calls_of, stopped};
use crate::found::{stands, stands_still, within};
use crate::inits::made;
use crate::running::{after, copied, crash_by, crashed, end_by, run};
use crate::scripts::{Script, scripts};
use crate::trials::{Trial, calls_on, lost};
use disk_model::{Crash, MemMachine};
use std::alloc::{AllocError, Global};
use std::test::Fail;

// A script that is stopped after so many calls.
fn cut(
    alloc: Global,
    script: &Script,
    store: &MemMachine,
    calls: u64,
) -> Result<MemMachine, AllocError> {
    let machine = copied(alloc, script.room, store, 0)?;
    Ok(stopped(alloc, machine, calls, script.act))
}

// Whether a script that is stopped so keeps what was forced, and has no more than was accepted.
fn keeps(
    alloc: Global,
    script: &Script,
    store: &MemMachine,
    calls: u64,
    ends: (Option<Crash>, Crash),
) -> Result<bool, AllocError> {
    let once = cut(alloc, script, store, calls)?;
    let bounds = within(script, once.said());
    Ok(stands_still(alloc, after(once, ends.0), script, bounds, ends.1))
}

const DUMP: Act = Act::Program("redo dump", b"");

// Whether it does where its process is killed, and a dump after it, which begins with a sync of each file, is stopped too.
fn keeps_killed(
    alloc: Global,
    script: &Script,
    store: &MemMachine,
    calls: [u64; 2],
    how: Crash,
) -> Result<bool, AllocError> {
    let once = cut(alloc, script, store, calls[0])?;
    let bounds = within(script, once.said());
    let twice = stopped(alloc, once, calls[1], DUMP);
    Ok(stands(alloc, crashed(twice, how), script, bounds))
}

// Whether a script that is stopped after so many calls keeps what was forced, however it ends.
pub fn keeps_once(
    alloc: Global,
    script: &Script,
    store: &MemMachine,
    calls: u64,
) -> Result<bool, AllocError> {
    let mut all = true;
    for end in 0..6u64 {
        let ends = (end_by(end), crash_by(calls));
        all &= keeps(alloc, script, store, calls, ends)?;
    }
    for turn in 0..20u64 {
        let stops = [calls, turn / 5];
        all &= keeps_killed(alloc, script, store, stops, crash_by(turn))?;
    }
    Ok(all)
}

#[test]
fn a_stopped_script_keeps_what_was_forced(rt: HostRuntime) -> Result<(), Fail> {
    for (row, script) in scripts().iter().enumerate() {
        let lost = lost(rt.alloc(), script, Trial::Stop)?;
        assert!(rt; lost.is_none(), "script {row}, after {lost:?}");
    }
    Ok(())
}

// A process after a script, and how many of the five kinds of crash are tried after each stop of it, one after the other.
type Second = (Act, u64);

// Whether files stand for as many commands after a process that is stopped after so many calls, and a crash.
fn stands_behind(
    alloc: Global,
    script: &Script,
    left: &MemMachine,
    bounds: (usize, usize),
    second: Second,
    calls: u64,
) -> Result<bool, AllocError> {
    let mut all = true;
    for kind in 0..second.1 {
        let machine = copied(alloc, script.room, left, 0)?;
        let twice = stopped(alloc, machine, calls, second.0);
        let how = crash_by(calls.saturating_add(kind));
        all &= stands(alloc, crashed(twice, how), script, bounds);
    }
    Ok(all)
}

// Whether they do after each stop of it.
fn stands_behind_each(
    alloc: Global,
    script: &Script,
    left: &MemMachine,
    bounds: (usize, usize),
    second: Second,
) -> Result<bool, AllocError> {
    let calls = calls_on(alloc, script, left, second.0)?;
    let mut all = true;
    for call in 0..=calls {
        all &= stands_behind(alloc, script, left, bounds, second, call)?;
    }
    Ok(all)
}

// Whether a script that is stopped so, with a crash, keeps what was forced after each stop of another process.
fn keeps_after(
    alloc: Global,
    script: &Script,
    store: &MemMachine,
    stop: (u64, Crash),
    second: Second,
) -> Result<bool, AllocError> {
    let once = cut(alloc, script, store, stop.0)?;
    let bounds = within(script, once.said());
    let left = crashed(once, stop.1);
    stands_behind_each(alloc, script, &left, bounds, second)
}

// Whether it does after a dump that is stopped, each with every kind of crash.
pub fn keeps_twice(
    alloc: Global,
    script: &Script,
    store: &MemMachine,
    calls: u64,
) -> Result<bool, AllocError> {
    let mut all = true;
    for kind in 0..5u64 {
        all &= keeps_after(alloc, script, store, (calls, crash_by(kind)), (DUMP, 5))?;
    }
    Ok(all)
}

// Whether it does after another process that is stopped, with the kinds of crash in turn.
pub fn keeps_after_other(
    alloc: Global,
    script: &Script,
    store: &MemMachine,
    calls: u64,
    other: Act,
) -> Result<bool, AllocError> {
    keeps_after(alloc, script, store, (calls, crash_by(calls)), (other, 1))
}

// The first script in even or in odd rows of which a stopped dump loses something, and after how many calls.
fn lost_by_a_dump(alloc: Global, odd: usize) -> Result<Option<(usize, u64)>, AllocError> {
    for (row, script) in scripts().iter().enumerate() {
        if row % 2 == odd {
            if let Some(calls) = lost(alloc, script, Trial::Dump)? {
                return Ok(Some((row, calls)));
            }
        }
    }
    Ok(None)
}

// One test of all scripts would take most of the time that a test has.
#[test]
fn a_stopped_dump_keeps_what_was_forced(rt: HostRuntime) -> Result<(), Fail> {
    let lost = lost_by_a_dump(rt.alloc(), 0)?;
    assert!(rt; lost.is_none(), "script and calls: {lost:?}");
    Ok(())
}

#[test]
fn a_dump_stopped_elsewhere_keeps_what_was_forced(rt: HostRuntime) -> Result<(), Fail> {
    let lost = lost_by_a_dump(rt.alloc(), 1)?;
    assert!(rt; lost.is_none(), "script and calls: {lost:?}");
    Ok(())
}

// What other processes do after a script: a run without lines, an `init`, and restarts that install.
const OTHERS: [Act; 4] = [
    Act::Program("redo run", b""),
    Act::Program("redo init 8 64 65536", b""),
    Act::Restart(0),
    Act::Restart(1),
];

#[test]
fn another_stopped_process_keeps_what_was_forced(rt: HostRuntime) -> Result<(), Fail> {
    for other in OTHERS {
        for (row, script) in scripts().iter().enumerate() {
            let lost = lost(rt.alloc(), script, Trial::Other(other))?;
            assert!(rt; lost.is_none(), "script {row}, after {lost:?}");
        }
    }
    Ok(())
}

const GATE_SCRIPT: Act = Act::Program("redo run", b"put 0 aa\nget 0\nforce\n");

// A run that is stopped in the write that opens the gate of its block: the calls after it are a sync and the answer.
fn stopped_in_the_gate(alloc: Global) -> Result<MemMachine, AllocError> {
    let calls = calls_of(alloc, &mut made(alloc)?, GATE_SCRIPT).saturating_sub(2);
    Ok(stopped(alloc, made(alloc)?, calls, GATE_SCRIPT))
}

// Whether nothing of `forced` is said then, and the next run after a crash has this value.
fn torn_gate_leaves(alloc: Global, how: Crash, value: &[u8]) -> Result<bool, AllocError> {
    let left = stopped_in_the_gate(alloc)?;
    let said = left.said() == b"ok\naa\n".as_slice();
    let mut next = crashed(left, how);
    run(alloc, &mut next, "redo run", b"get 0\n");
    Ok(said & (next.said() == value))
}

const GATES: [(Crash, &[u8]); 4] = [
    (Crash::Old, b"-\n"),
    (Crash::Fill(7), b"-\n"),
    (Crash::Fill(1), b"aa\n"),
    (Crash::New, b"aa\n"),
];

#[test]
fn a_torn_gate_is_open_or_closed(rt: HostRuntime) -> Result<(), Fail> {
    for (how, value) in GATES {
        assert!(rt; torn_gate_leaves(rt.alloc(), how, value)?, "{how:?}");
    }
    Ok(())
}
