// A backup that is stopped at each call to the machine of the store, or to its own.
use crate::acts::Act;
use crate::found::{stands, within};
use crate::running::{Room, crash_by, crashed, run, run_beside};
use crate::scripts::{Script, new_store};
use disk_model::{Crash, Fuse, MemMachine};
use redo_shell::Status;
use std::alloc::{AllocError, Global};
use std::test::Fail;

const ROOM: Room = Room {
    sizes: [1264, 4096, 4096],
    calls: 400,
    bytes: 16384,
};

const LINES: &[u8] =
    b"put 0 aa\nput 1 bb\nbstart\nbcopy 1\nswap 0 1\ninstall\nbcopy 7\nbfinish\nget 0\n";

// What is said up to the start of the backup, and up to its end.
const STARTED: &[u8] = b"ok\nok\nok\n";

const SAVED: &[u8] = b"ok\nok\nok\ncopied 1\nok\nok\ncopied 8\nsaved 3\n";

static SCRIPT: Script = Script {
    room: ROOM,
    init: "redo init 8 64 65536",
    before: b"",
    act: Act::Program("redo run", LINES),
    said: b"ok\nok\nok\ncopied 1\nok\nok\ncopied 8\nsaved 3\nbb\n",
    within: &[
        (0, 1),
        (0, 2),
        (0, 2),
        (2, 2),
        (2, 3),
        (2, 3),
        (3, 3),
        (3, 3),
        (3, 3),
        (3, 3),
    ],
    dumps: &[
        b"commands 0\n",
        b"0 aa\ncommands 1\n",
        b"0 aa\n1 bb\ncommands 2\n",
        b"0 bb\n1 aa\ncommands 3\n",
    ],
};

/// Whose calls are stopped.
#[derive(Clone, Copy)]
enum Side {
    Store,
    Backup,
}

// How many calls of the store and of the backup are passed on where those of one are stopped.
fn passed(side: Side, calls: u64) -> [u64; 2] {
    match side {
        Side::Store => [calls, u64::MAX],
        Side::Backup => [u64::MAX, calls],
    }
}

// How the run ends, and what it leaves of the store and of the backup, where so many calls of each are passed on.
fn cut(alloc: Global, calls: [u64; 2]) -> Result<(Status, MemMachine, MemMachine), AllocError> {
    let empty = ROOM.machine(alloc, 0)?;
    let mut store = Fuse::new(new_store(alloc, &SCRIPT)?, calls[0]);
    let mut backup = Fuse::new(empty, calls[1]);
    let status = run_beside(alloc, &mut store, &mut backup, "redo run", LINES);
    Ok((status, store.into_inner(), backup.into_inner()))
}

// How many calls a run makes that is not stopped, and whether it says all that it has to.
fn calls_of(alloc: Global, side: Side) -> Result<(u64, bool), AllocError> {
    let (status, store, backup) = cut(alloc, [u64::MAX; 2])?;
    let calls = match side {
        Side::Store => store.calls(),
        Side::Backup => backup.calls(),
    };
    Ok((
        calls,
        (status == Status::Done) & (store.said() == SCRIPT.said),
    ))
}

// Whether the files of a backup are no store, or stand for all commands, which they do where that was said. Where not even
// its start was said, their first bytes may be torn.
fn is_none_or_whole(alloc: Global, mut left: MemMachine, said: &[u8]) -> bool {
    let (status, _) = run(alloc, &mut left, "redo dump", b"");
    let torn = (status == Status::Damaged) & !said.starts_with(STARTED);
    let none = (torn | (status == Status::NotAStore)) & !said.starts_with(SAVED);
    let whole = (status == Status::Done) & (left.said() == b"0 bb\n1 aa\ncommands 3\n".as_slice());
    none | whole
}

// Whether that is so after a stop with a crash, and the store has what was forced, and no more than was accepted.
fn keeps(alloc: Global, calls: [u64; 2], how: Crash) -> Result<bool, AllocError> {
    let (_, store, backup) = cut(alloc, calls)?;
    let bounds = within(&SCRIPT, store.said());
    let whole = is_none_or_whole(alloc, crashed(backup, how), store.said());
    Ok(whole & stands(alloc, crashed(store, how), &SCRIPT, bounds))
}

// The first number of calls after which a stop loses something.
fn lost(alloc: Global, side: Side) -> Result<Option<u64>, AllocError> {
    let (calls, whole) = calls_of(alloc, side)?;
    if !whole {
        return Ok(Some(calls));
    }
    for call in 0..=calls {
        for kind in 0..5u64 {
            if !keeps(alloc, passed(side, call), crash_by(kind))? {
                return Ok(Some(call));
            }
        }
    }
    Ok(None)
}

#[test]
fn a_stopped_backup_is_none_or_whole(rt: HostRuntime) -> Result<(), Fail> {
    for side in [Side::Store, Side::Backup] {
        let lost = lost(rt.alloc(), side)?;
        assert!(rt; lost.is_none(), "after {lost:?}");
    }
    Ok(())
}

// Whether a run of which a call of the backup fails ends with the status of that, and says nothing of its line.
fn is_told(alloc: Global, call: u64) -> Result<bool, AllocError> {
    let (status, store, backup) = cut(alloc, passed(Side::Backup, call))?;
    let said = SAVED.starts_with(store.said()) & (store.said().len() < SAVED.len());
    Ok((status == Status::BackupFault) & said & (backup.calls() == call))
}

#[test]
fn a_fault_of_a_backup_is_told(rt: HostRuntime) -> Result<(), Fail> {
    let (calls, _) = calls_of(rt.alloc(), Side::Backup)?;
    for call in 0..calls {
        assert!(rt; is_told(rt.alloc(), call)?, "after {call} calls");
    }
    Ok(())
}
