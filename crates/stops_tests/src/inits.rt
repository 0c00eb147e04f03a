// `init` that is stopped, and run again.
use crate::acts::{Act, calls_of, stopped};
use crate::running::{Room, after, copied, crash_by, crashed, end_by, run};
use disk_model::{Crash, FileNo, MemMachine};
use redo_shell::Status;
use std::alloc::{AllocError, Global};
use std::test::Fail;

const WORDS: &str = "redo init 8 64 65536";

const INIT: Act = Act::Program(WORDS, b"");

const ROOM: Room = Room {
    sizes: [1264, 4096, 4096],
    calls: 400,
    bytes: 4096,
};

fn empty_folder(alloc: Global) -> Result<MemMachine, AllocError> {
    ROOM.machine(alloc, 0)
}

// A settled machine with a store.
pub fn made(alloc: Global) -> Result<MemMachine, AllocError> {
    let mut machine = empty_folder(alloc)?;
    run(alloc, &mut machine, WORDS, b"");
    Ok(crashed(machine, Crash::Old))
}

fn made_or_found(begins: bool) -> Status {
    if begins {
        Status::AlreadyStore
    } else {
        Status::Done
    }
}

// Whether `init` makes a store, or finds one if the gate in front of the magic is open, and a run after a crash finds the
// store new.
fn is_made(alloc: Global, mut left: MemMachine, how: Crash) -> bool {
    let begins = left.bytes(FileNo::Objects).starts_with(b"\x01RDOOBJ01");
    let (status, _) = run(alloc, &mut left, WORDS, b"");
    let mut next = crashed(left, how);
    let (done, _) = run(alloc, &mut next, "redo run", b"force\nget 7\n");
    let made = status == made_or_found(begins);
    made & (done == Status::Done) & (next.said() == b"forced 0\n-\n".as_slice())
}

// Whether that is so after two that were stopped after so many calls.
fn is_made_behind(
    alloc: Global,
    calls: [u64; 2],
    ends: (Option<Crash>, Option<Crash>),
    how: Crash,
) -> Result<bool, AllocError> {
    let once = stopped(alloc, empty_folder(alloc)?, calls[0], INIT);
    let twice = stopped(alloc, after(once, ends.0), calls[1], INIT);
    Ok(is_made(alloc, after(twice, ends.1), how))
}

// Whether that is so for a second stop at each of so many calls, with each end in turn.
fn is_made_twice(alloc: Global, first: u64, more: u64) -> Result<bool, AllocError> {
    let mut all = true;
    for second in 0..more {
        let turn = first.saturating_add(second);
        let ends = (end_by(turn), end_by(second));
        all &= is_made_behind(alloc, [first, second], ends, crash_by(turn))?;
    }
    Ok(all)
}

#[test]
fn a_stopped_init_is_run_again(rt: HostRuntime) -> Result<(), Fail> {
    let calls = calls_of(rt.alloc(), &mut empty_folder(rt.alloc())?, INIT);
    for first in 0..calls {
        assert!(rt; is_made_twice(rt.alloc(), first, calls)?, "after {first}");
    }
    Ok(())
}

fn have_same_files(one: &MemMachine, other: &MemMachine) -> bool {
    let mut same = true;
    for file in [FileNo::Objects, FileNo::LogA, FileNo::LogB] {
        same &= one.bytes(file) == other.bytes(file);
    }
    same
}

// Whether `init` says that there is a store, and leaves the files of it.
fn is_kept_on(alloc: Global, store: &MemMachine) -> Result<bool, AllocError> {
    let mut again = copied(alloc, ROOM, store, 0)?;
    let (status, _) = run(alloc, &mut again, WORDS, b"");
    let said = again.said() == b"already a store\n".as_slice();
    Ok(said & have_same_files(store, &again) & (status == Status::AlreadyStore))
}

fn is_kept(alloc: Global) -> Result<bool, AllocError> {
    let store = made(alloc)?;
    is_kept_on(alloc, &store)
}

#[test]
fn a_store_is_kept(rt: HostRuntime) -> Result<(), Fail> {
    assert!(rt; is_kept(rt.alloc())?);
    Ok(())
}
