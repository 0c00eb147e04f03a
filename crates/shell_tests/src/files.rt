// The bytes of the files, and bytes that were written by hand: what the next run says of them.
use crate::running::{new_store, run};
use disk_model::{Crash, FileNo, Machine};
use redo_shell::Status;
use std::alloc::{AllocError, Global};
use std::test::Fail;

const NEW_LOG: [u8; 34] = *b"\x01RDOLOG01\x01\0\0\0\0\0\0\0\x01\0\0\0\0\0\0\0\0\0\0\0\0\0\0\0\0";

const BLOCK: [u8; 25] = *b"\x01\x13\0\0\0\x01\x01\0\0\0\0\0\0\0\x01\0\0\0\0\x01\0\0\0\xaa\0";

// The block of an empty checkpoint, which a restart logs, and its closed gate after it.
const CHECK: [u8; 19] = *b"\x01\x0d\0\0\0\x03\x01\0\0\0\0\0\0\0\0\0\0\0\0";

fn a_new_store_is_as_worked(alloc: Global) -> Result<bool, AllocError> {
    let machine = new_store(alloc)?;
    let objects = machine.bytes(FileNo::Objects);
    let header = objects.starts_with(b"\x01RDOOBJ01\x08\0\0\0\x40\0\0\0\0\0\x01\0");
    let log_a = machine.bytes(FileNo::LogA) == NEW_LOG.as_slice();
    let log_b = machine.bytes(FileNo::LogB) == [0].as_slice();
    Ok(header & log_a & log_b & (objects.len() == 1188))
}

fn a_log_of_one_checkpoint_is_as_worked(alloc: Global) -> Result<bool, AllocError> {
    let mut machine = new_store(alloc)?;
    run(alloc, &mut machine, "redo run", b"");
    let log = machine.bytes(FileNo::LogA);
    let header = log.starts_with(NEW_LOG.split_at(33).0);
    Ok(header & (log.len() == 52) & log.ends_with(CHECK.as_slice()))
}

fn a_log_of_one_put_is_as_worked(alloc: Global) -> Result<bool, AllocError> {
    let mut machine = new_store(alloc)?;
    run(alloc, &mut machine, "redo run", b"put 0 aa\n");
    let log = machine.bytes(FileNo::LogA);
    let header = log.starts_with(NEW_LOG.split_at(33).0);
    Ok(header & (log.len() == 76) & log.ends_with(BLOCK.as_slice()))
}

// The store of 8 objects of 64 bytes gets 16 of 128: behind its slots stand the numbers, and then the slots of the larger one.
fn a_larger_store_is_as_worked(alloc: Global) -> Result<bool, AllocError> {
    let mut machine = new_store(alloc)?;
    run(alloc, &mut machine, "redo run", b"put 0 aa\n");
    run(alloc, &mut machine, "redo upgrade 16 128 65536", b"");
    let objects = machine.bytes(FileNo::Objects);
    let header = objects.starts_with(b"\x01RDOOBJ02\x08\0\0\0\x40\0\0\0");
    let (_, numbers) = objects.split_at(1264.min(objects.len()));
    Ok(header & numbers.starts_with(b"\x10\0\0\0\x80\0\0\0\0\0\x01\0") & (objects.len() == 5668))
}

#[test]
fn files_have_these_bytes(rt: HostRuntime) -> Result<(), Fail> {
    assert!(rt; a_new_store_is_as_worked(rt.alloc())?);
    assert!(rt; a_log_of_one_checkpoint_is_as_worked(rt.alloc())?);
    assert!(rt; a_log_of_one_put_is_as_worked(rt.alloc())?);
    assert!(rt; a_larger_store_is_as_worked(rt.alloc())?);
    Ok(())
}

// A script, an offset of the objects file with bytes that are then written there, words, and the status and the answers
// of a run with these words and `get 0`. At 32 is the first slot of object 0.
const WRITTEN: [(&[u8], (u64, &[u8]), &str, (Status, &[u8])); 3] = [
    (
        b"put 0 aa\n",
        (32, b"\x01\x01\0\0\0\0\0\0\0\x01\0\0\0\xbb"),
        "redo run",
        (Status::Done, b"bb\n"),
    ),
    (
        b"put 0 aa\n",
        (32, b"\x01\x01\0\0\0\0\0\0\0\x01\0\0\0\xbb"),
        "redo dump",
        (Status::Done, b"0 bb\ncommands 1\n"),
    ),
    (
        b"",
        (0, b"\x07"),
        "redo run",
        (Status::NotAStore, b"not a store\n"),
    ),
];

fn written_says(
    alloc: Global,
    script: &[u8],
    written: (u64, &[u8]),
    words: &str,
    wanted: (Status, &[u8]),
) -> Result<bool, AllocError> {
    let mut before = new_store(alloc)?;
    run(alloc, &mut before, "redo run", script);
    let mut machine = before.crash(Crash::Old);
    let done = machine
        .write_at(FileNo::Objects, written.0, written.1)
        .is_ok();
    let status = run(alloc, &mut machine, words, b"get 0\n");
    Ok(done & (status == wanted.0) & (machine.said() == wanted.1))
}

#[test]
fn written_bytes_are_read(rt: HostRuntime) -> Result<(), Fail> {
    for (script, written, words, wanted) in WRITTEN {
        assert!(rt; written_says(rt.alloc(), script, written, words, wanted)?);
    }
    Ok(())
}
