// A store follows the log of another one.
use crate::running::{new_store, run, run_in_pieces};
use disk_model::{Crash, MemMachine};
use redo_shell::Status;
use std::alloc::{AllocError, Global};
use std::test::Fail;

// The frame of the record of `put 0 aa`.
const PUT: &[u8] = b"\x13\0\0\0\x01\x01\0\0\0\0\0\0\0\x01\0\0\0\0\x01\0\0\0\xaa";

// Scripts, the words of a shipment after them, its status, and all that it says.
const SHIPPED: [(&[u8], &str, Status, &[u8]); 6] = [
    (b"put 0 aa\n", "redo ship 1", Status::Done, PUT),
    (b"put 0 aa\n", "redo ship 2", Status::Done, b""),
    (b"put 0 aa\n", "redo ship 5", Status::Done, b""),
    (b"", "redo ship 1", Status::Done, b""),
    (
        b"put 0 aa\ndrain\ntrim\n",
        "redo ship 1",
        Status::Gone,
        b"gone 2\n",
    ),
    (b"put 0 aa\ndrain\ntrim\n", "redo ship 2", Status::Done, b""),
];

fn is_shipped(
    alloc: Global,
    script: &[u8],
    words: &str,
    status: Status,
    said: &[u8],
) -> Result<bool, AllocError> {
    let mut store = new_store(alloc)?;
    run(alloc, &mut store, "redo run", script);
    let mut machine = store.crash(Crash::Old);
    let ended = run(alloc, &mut machine, words, b"");
    Ok((ended == status) & (machine.said() == said))
}

#[test]
fn logs_are_shipped(rt: HostRuntime) -> Result<(), Fail> {
    for (row, (script, words, status, said)) in SHIPPED.iter().enumerate() {
        assert!(rt;
            is_shipped(rt.alloc(), script, words, *status, said)?,
            "row {row}"
        );
    }
    Ok(())
}

// Streams that a new store follows, the status, what is said, and what the next `get 0` says.
const FOLLOWED: [(&[u8], Status, &[u8], &[u8]); 10] = [
    (b"", Status::Done, b"followed 0\n", b"-\n"),
    (PUT, Status::Done, b"followed 1\n", b"aa\n"),
    // The same twice over.
    (
        b"\x13\0\0\0\x01\x01\0\0\0\0\0\0\0\x01\0\0\0\0\x01\0\0\0\xaa\x13\0\0\0\x01\x01\0\0\0\0\0\0\0\x01\0\0\0\0\x01\0\0\0\xaa",
        Status::Done,
        b"followed 1\n",
        b"aa\n",
    ),
    // Without its last byte.
    (
        b"\x13\0\0\0\x01\x01\0\0\0\0\0\0\0\x01\0\0\0\0\x01\0\0\0",
        Status::BadStream,
        b"stream Short 0\n",
        b"-\n",
    ),
    // With number 2.
    (
        b"\x13\0\0\0\x01\x02\0\0\0\0\0\0\0\x01\0\0\0\0\x01\0\0\0\xaa",
        Status::BadStream,
        b"stream Gap 1 2\n",
        b"-\n",
    ),
    // `cut 0 1 5` of an empty object.
    (
        b"\x16\0\0\0\x01\x01\0\0\0\0\0\0\0\x04\0\0\0\0\x01\0\0\0\x05\0\0\0",
        Status::BadStream,
        b"stream Differs 1\n",
        b"-\n",
    ),
    // `copy 3 3`, which no log has.
    (
        b"\x12\0\0\0\x01\x01\0\0\0\0\0\0\0\x02\x03\0\0\0\x03\0\0\0",
        Status::BadStream,
        b"stream BadFrame 4\n",
        b"-\n",
    ),
    (
        b"\0\0\0\0",
        Status::BadStream,
        b"stream BadFrame 0\n",
        b"-\n",
    ),
    // No record begins the second frame; the first one stays.
    (
        b"\x13\0\0\0\x01\x01\0\0\0\0\0\0\0\x01\0\0\0\0\x01\0\0\0\xaa\x01\0\0\0\x09",
        Status::BadStream,
        b"stream BadFrame 27\n",
        b"aa\n",
    ),
    // The stream ends within the length of the second.
    (
        b"\x13\0\0\0\x01\x01\0\0\0\0\0\0\0\x01\0\0\0\0\x01\0\0\0\xaa\x13\0",
        Status::BadStream,
        b"stream Short 23\n",
        b"aa\n",
    ),
];

fn is_followed(
    alloc: Global,
    row: &(&[u8], Status, &[u8], &[u8]),
    size: usize,
) -> Result<bool, AllocError> {
    let (stream, status, said, value) = *row;
    let mut store = new_store(alloc)?;
    let ended = run_in_pieces(alloc, &mut store, "redo follow", stream, size);
    let answered = (ended == status) & (store.said() == said);
    let mut left = store.crash(Crash::Old);
    run(alloc, &mut left, "redo run", b"get 0\n");
    Ok(answered & (left.said() == value))
}

#[test]
fn streams_are_followed(rt: HostRuntime) -> Result<(), Fail> {
    for (row, stream) in FOLLOWED.iter().enumerate() {
        for size in [1, 3, 100] {
            assert!(rt; is_followed(rt.alloc(), stream, size)?, "row {row}");
        }
    }
    Ok(())
}

// What a dump of these files says after a crash.
fn dump(alloc: Global, store: MemMachine) -> Result<Vec<u8>, AllocError> {
    let mut left = store.crash(Crash::Old);
    run(alloc, &mut left, "redo dump", b"");
    left.said().to_vec(alloc)
}

// Whether a new store that follows all of a log has what the store of the log has.
fn has_the_same(alloc: Global, script: &[u8], size: usize) -> Result<bool, AllocError> {
    let mut store = new_store(alloc)?;
    run(alloc, &mut store, "redo run", script);
    let mut primary = store.crash(Crash::Old);
    run(alloc, &mut primary, "redo ship 1", b"");
    let mut standby = new_store(alloc)?;
    let status = run_in_pieces(alloc, &mut standby, "redo follow", primary.said(), size);
    let same = dump(alloc, standby)?.as_slice() == dump(alloc, primary)?.as_slice();
    Ok((status == Status::Done) & same)
}

// Scripts whose logs have identity writes, checkpoints and groups too.
const SCRIPTS: [&[u8]; 3] = [
    b"put 0 aa\nput 1 bb\nswap 0 1\ninstall\ncheckpoint\nput 2 cc\n",
    b"begin\nput 0 aa\ncopy 0 1\nend\nforce\nappend 0 1\nsort 0 2 1\n",
    b"put 7 00112233\ncut 7 6 2\nforce\nput 7 aa\ncopy 6 5\ndrain\n",
];

#[test]
fn a_standby_has_what_its_store_has(rt: HostRuntime) -> Result<(), Fail> {
    for (row, script) in SCRIPTS.iter().enumerate() {
        assert!(rt; has_the_same(rt.alloc(), script, 1)?, "row {row}");
        assert!(rt; has_the_same(rt.alloc(), script, 100)?, "row {row}");
    }
    Ok(())
}
