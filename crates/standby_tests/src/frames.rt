// What an engine says of its log from a number on, and a standby that follows just that.
use crate::standbys::{SMALL, TUNING, follows};
use disk_model::GrowMem;
use op_meaning::PlainOp;
use oper_core::{ByteList, Memory};
use std::alloc::Global;
use std::test::Fail;
use store_engine::{Engine, ShipErr};

// Puts, each of which is forced.
static PUTS: [(u32, &[u8]); 3] = [(0, b"\xaa"), (1, b"\xbb"), (0, b"\xcc\xdd")];

fn put(alloc: Global, object: u32, value: &[u8]) -> Result<PlainOp, Memory> {
    let value = ByteList::new(value.to_vec(alloc)?);
    Ok(PlainOp::Put { object, value })
}

// Whether a put is done and forced.
fn puts(
    alloc: Global,
    engine: &mut Engine<PlainOp>,
    machine: &mut GrowMem,
    object: u32,
    value: &[u8],
) -> bool {
    let Ok(op) = put(alloc, object, value) else {
        return false;
    };
    if engine.is_broken() {
        return false;
    }
    let done = engine.exec(machine, op).is_ok();
    if engine.is_broken() {
        return false;
    }
    done & engine.force(machine).is_ok()
}

// The frames from a number on, or the number where the log begins.
fn frames_of(
    engine: &mut Engine<PlainOp>,
    machine: &mut GrowMem,
    from: u64,
    into: &mut Vec<u8>,
) -> Option<u64> {
    if engine.is_broken() {
        return Some(0);
    }
    match engine.frames(machine, from, into) {
        Ok(()) => None,
        Err(ShipErr::Gone { base }) => Some(base),
        Err(_) => Some(0),
    }
}

// The same, of a new store after the puts.
fn shipped(alloc: Global, machine: &mut GrowMem, from: u64, into: &mut Vec<u8>) -> Option<u64> {
    let _ = Engine::<PlainOp>::init(machine, SMALL);
    let Ok(mut engine) = Engine::<PlainOp>::restart(alloc, machine, TUNING) else {
        return Some(0);
    };
    let mut done = true;
    for (object, value) in PUTS {
        done &= puts(alloc, &mut engine, machine, object, value);
    }
    let base = frames_of(&mut engine, machine, from, into);
    drop(engine);
    if done { base } else { Some(0) }
}

// From a number on: the number where the log begins, if it begins later, and the frames.
static ROWS: [(u64, Option<u64>, &[u8]); 4] = [
    (0, Some(1), b""),
    (
        1,
        None,
        b"\x13\0\0\0\x01\x01\0\0\0\0\0\0\0\x01\0\0\0\0\x01\0\0\0\xaa\
          \x13\0\0\0\x01\x02\0\0\0\0\0\0\0\x01\x01\0\0\0\x01\0\0\0\xbb\
          \x14\0\0\0\x01\x03\0\0\0\0\0\0\0\x01\0\0\0\0\x02\0\0\0\xcc\xdd",
    ),
    (
        3,
        None,
        b"\x14\0\0\0\x01\x03\0\0\0\0\0\0\0\x01\0\0\0\0\x02\0\0\0\xcc\xdd",
    ),
    (4, None, b""),
];

fn ships(alloc: Global, from: u64, base: Option<u64>, wanted: &[u8]) -> Result<bool, Fail> {
    let mut machine = GrowMem::new(alloc)?;
    let mut into = Vec::new(alloc);
    let found = shipped(alloc, &mut machine, from, &mut into);
    Ok((found == base) & (into.as_slice() == wanted))
}

#[test]
fn a_log_is_shipped_from_an_lsn_on(rt: HostRuntime) -> Result<(), Fail> {
    for (from, base, wanted) in ROWS {
        assert!(rt; ships(rt.alloc(), from, base, wanted)?, "from {from}");
    }
    Ok(())
}

// Whether a new standby that follows the whole log accepts its commands.
fn is_followed(alloc: Global) -> Result<bool, Fail> {
    let mut machine = GrowMem::new(alloc)?;
    let mut stream = Vec::new(alloc);
    let _ = shipped(alloc, &mut machine, 1, &mut stream);
    drop(machine);
    let seen = follows(alloc, stream.as_slice(), 7)?;
    Ok(seen == [0, 3, 0, u64::MAX, 70, 0, 3, 0])
}

#[test]
fn a_shipped_log_is_followed(rt: HostRuntime) -> Result<(), Fail> {
    assert!(rt; is_followed(rt.alloc())?);
    Ok(())
}
