// Rounds of a drain that are stopped: whichever gates of a round a crash leaves open, a restart finds all commands.
use crate::acts::{Act, calls_of, stopped};
use crate::inits::made;
use crate::running::{Room, copied, crashed, run};
use disk_model::{Crash, FileNo, Machine, MemMachine};
use std::alloc::{AllocError, Global};
use std::test::Fail;

const ROOM: Room = Room {
    sizes: [1264, 4096, 4096],
    calls: 400,
    bytes: 16384,
};

// The puts of the objects 1 to 5 and the copy wait for no other. The first put of object 0 waits for the copy, which reads what
// it wrote, and the second for both.
const LINES: &[u8] = b"put 0 a0a0a0a0a0a0a0a0\n\
    put 1 a1a1a1a1a1a1a1a1\n\
    put 2 a2a2a2a2a2a2a2a2\n\
    put 3 a3a3a3a3a3a3a3a3\n\
    put 4 a4a4a4a4a4a4a4a4\n\
    put 5 a5a5a5a5a5a5a5a5\n\
    copy 0 6\n\
    put 0 b0b0b0b0b0b0b0b0\n";

const HELD: &[u8] = b"0 b0b0b0b0b0b0b0b0\n\
    1 a1a1a1a1a1a1a1a1\n\
    2 a2a2a2a2a2a2a2a2\n\
    3 a3a3a3a3a3a3a3a3\n\
    4 a4a4a4a4a4a4a4a4\n\
    5 a5a5a5a5a5a5a5a5\n\
    6 a0a0a0a0a0a0a0a0\n\
    commands 8\n";

const DRAINED: Act = Act::Program("redo run", b"drain\n");

// A store of these commands, of which none is installed.
fn waiting(alloc: Global) -> Result<MemMachine, AllocError> {
    let mut machine = copied(alloc, ROOM, &made(alloc)?, 0)?;
    run(alloc, &mut machine, "redo run", LINES);
    Ok(crashed(machine, Crash::New))
}

// What is left of it where a drain is stopped after so many calls.
fn left(
    alloc: Global,
    store: &MemMachine,
    calls: u64,
    how: Crash,
) -> Result<MemMachine, AllocError> {
    let machine = copied(alloc, ROOM, store, 0)?;
    Ok(crashed(stopped(alloc, machine, calls, DRAINED), how))
}

// The bytes of the objects file that are others in the second machine, with their places.
fn changed(
    alloc: Global,
    old: &MemMachine,
    new: &MemMachine,
) -> Result<Vec<(u64, u8)>, AllocError> {
    let before = old.bytes(FileNo::Objects);
    let mut bytes = Vec::new(alloc);
    for (place, byte) in new.bytes(FileNo::Objects).iter().enumerate() {
        if before.get(place) != Some(byte) {
            bytes.push((place as u64, *byte))?;
        }
    }
    Ok(bytes)
}

// How many subsets so many bytes have.
fn subsets(bytes: &[(u64, u8)]) -> u64 {
    let mut count = 1u64;
    for _ in bytes {
        count = count.saturating_mul(2);
    }
    count
}

// Whether a machine in which a subset of these bytes is set has the values of all commands: those whose bit is 1, from the
// lowest on.
fn holds(
    alloc: Global,
    old: &MemMachine,
    bytes: &[(u64, u8)],
    which: u64,
) -> Result<bool, AllocError> {
    let mut machine = copied(alloc, ROOM, old, 0)?;
    let mut rest = which;
    for (place, byte) in bytes {
        if rest % 2 == 1 {
            let _ = machine.write_at(FileNo::Objects, *place, &[*byte]);
        }
        rest /= 2;
    }
    let mut next = crashed(machine, Crash::New);
    run(alloc, &mut next, "redo dump", b"");
    Ok(next.said() == HELD)
}

// Whether each subset of the gates that are opened since the last sync may be left after so many calls, and how many subsets
// were tried: none where a slot is filled, of which more bytes than six change.
fn holds_by_any(alloc: Global, store: &MemMachine, calls: u64) -> Result<(bool, u64), AllocError> {
    let old = left(alloc, store, calls, Crash::Old)?;
    let new = left(alloc, store, calls, Crash::New)?;
    let bytes = changed(alloc, &old, &new)?;
    if bytes.is_empty() || bytes.len() > 6 {
        return Ok((true, 0));
    }
    let count = subsets(bytes.as_slice());
    let mut all = true;
    for which in 0..count {
        all &= holds(alloc, &old, bytes.as_slice(), which)?;
    }
    Ok((all, count))
}

// Whether that is so at each stop, and how many subsets were tried.
fn holds_at_each(alloc: Global) -> Result<(bool, u64), AllocError> {
    let store = waiting(alloc)?;
    let calls = calls_of(alloc, &mut copied(alloc, ROOM, &store, 0)?, DRAINED);
    let mut all = true;
    let mut tried = 0u64;
    for call in 0..=calls {
        let (held, more) = holds_by_any(alloc, &store, call)?;
        all &= held;
        tried = tried.saturating_add(more);
    }
    Ok((all, tried))
}

// The first round has six gates, which are opened one after the other: of the first n there are 2^n subsets, 126 in all.
const SUBSETS: u64 = 126;

#[test]
fn any_gates_of_a_round_may_be_left_open(rt: HostRuntime) -> Result<(), Fail> {
    let (held, tried) = holds_at_each(rt.alloc())?;
    assert!(rt; held && tried >= SUBSETS, "{held}, {tried}");
    Ok(())
}
