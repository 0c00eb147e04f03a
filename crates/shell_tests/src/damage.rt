// Files of a new store with bytes that were changed by hand: the file and the offset that a run then says to be damaged.
use crate::running::{empty_folder, new_store, run};
use disk_model::FileNo::{LogA, LogB, Objects};
use disk_model::{FileNo, Machine, MemMachine};
use redo_shell::Status;
use std::alloc::{AllocError, Global};
use std::test::Fail;

// A file, an offset of it, and the bytes that are written there.
type Change = (FileNo, u64, &'static [u8]);

const NEW_LOG: &[u8] = b"\x01RDOLOG01\x01\0\0\0\0\0\0\0\x01\0\0\0\0\0\0\0\0\0\0\0\0\0\0\0\0";

// What is changed, all other bytes being those of a new store with 8 objects of 64 bytes, and what is printed. The slots of
// object 0 are at 32 and 109. In the last three rows two checks fail.
const DAMAGED: [(&[Change], &[u8]); 22] = [
    (&[(Objects, 1, b"\0")], b"damaged objects 1\n"),
    (&[(Objects, 9, b"\0\0\0\0")], b"damaged objects 9\n"),
    (&[(Objects, 9, b"\x01\x10\0\0")], b"damaged objects 9\n"),
    (&[(Objects, 13, b"\x0f\0\0\0")], b"damaged objects 13\n"),
    (&[(Objects, 17, b"\x7f\x10\0\0")], b"damaged objects 17\n"),
    (
        &[(Objects, 32, b"\x01\0\0\0\0\0\0\0\0")],
        b"damaged objects 33\n",
    ),
    (
        &[
            (Objects, 32, b"\x01\x01\0\0\0\0\0\0\0\0\0\0\0"),
            (Objects, 109, b"\x01\x01\0\0\0\0\0\0\0\0\0\0\0"),
        ],
        b"damaged objects 110\n",
    ),
    (
        &[(Objects, 32, b"\x01\x01\0\0\0\0\0\0\0\0\0\0\0")],
        b"damaged objects 33\n",
    ),
    (
        &[(Objects, 32, b"\x01\x01\0\0\0\0\0\0\0\x41\0\0\0")],
        b"damaged objects 41\n",
    ),
    (&[(LogA, 0, b"\x07")], b"damaged log_a 0\n"),
    (&[(LogA, 9, b"\0")], b"damaged log_a 9\n"),
    (&[(LogA, 17, b"\0")], b"damaged log_a 17\n"),
    (&[(LogA, 25, b"\x01")], b"damaged log_a 25\n"),
    (&[(LogB, 0, NEW_LOG)], b"damaged log_b 9\n"),
    (&[(LogA, 33, b"\x01")], b"damaged log_a 34\n"),
    (
        &[(LogA, 33, b"\x01\xff\xff\xff\x3f\0")],
        b"damaged log_a 34\n",
    ),
    (
        &[(LogA, 33, b"\x01\x01\0\0\0\x09\0")],
        b"damaged log_a 38\n",
    ),
    (
        &[(
            LogA,
            33,
            b"\x01\x13\0\0\0\x01\x02\0\0\0\0\0\0\0\x01\0\0\0\0\x01\0\0\0\xaa\0",
        )],
        b"damaged log_a 38\n",
    ),
    (
        &[(
            LogA,
            33,
            b"\x01\x13\0\0\0\x01\x01\0\0\0\0\0\0\0\x01\x08\0\0\0\x01\0\0\0\xaa\0",
        )],
        b"damaged log_a 38\n",
    ),
    (
        &[(Objects, 9, b"\0\0\0\0"), (Objects, 13, b"\x0f\0\0\0")],
        b"damaged objects 9\n",
    ),
    (
        &[(LogA, 33, b"\x01\x01\0\0\0\x09\x01")],
        b"damaged log_a 40\n",
    ),
    (
        &[
            (Objects, 32, b"\x01\x01\0\0\0\0\0\0\0\0\0\0\0"),
            (LogA, 33, b"\x01\x01\0\0\0\x09\0"),
        ],
        b"damaged log_a 38\n",
    ),
];

// Whether a run on these files says this, and ends with the status of damaged files.
fn is_said(alloc: Global, mut machine: MemMachine, said: &[u8]) -> bool {
    let status = run(alloc, &mut machine, "redo run", b"");
    (status == Status::Damaged) & (machine.said() == said)
}

// Whether it is said of this store with these changes.
fn damage_is_said(alloc: Global, mut machine: MemMachine, changes: &[Change], said: &[u8]) -> bool {
    let mut done = true;
    for (file, at, bytes) in changes {
        done &= machine.write_at(*file, *at, bytes).is_ok();
    }
    done & is_said(alloc, machine, said)
}

#[test]
fn the_first_fault_is_said(rt: HostRuntime) -> Result<(), Fail> {
    for (row, (changes, said)) in DAMAGED.iter().enumerate() {
        let machine = new_store(rt.alloc())?;
        assert!(rt;
            damage_is_said(rt.alloc(), machine, changes, said),
            "row {row}"
        );
    }
    Ok(())
}

// What makes a new store one of version 2 with the same numbers: the version and no smaller store, the numbers at 32, and a
// file that reaches to the last gate. The slots of object 0 are at 64 and 141.
static SECOND: [Change; 3] = [
    (Objects, 8, b"2\0\0\0\0\0\0\0\0"),
    (Objects, 32, b"\x08\0\0\0\x40\0\0\0\0\0\x01\0"),
    (Objects, 1219, b"\0"),
];

// What is changed in such a store, and what is printed. Behind 8 objects of 64 bytes the numbers stand at 1264.
static DAMAGED_SECOND: [(&[Change], &[u8]); 10] = [
    (&[(Objects, 9, b"\x01\x10\0\0")], b"damaged objects 9\n"),
    (&[(Objects, 13, b"\x01\x40\0\0")], b"damaged objects 13\n"),
    (
        &[(Objects, 9, b"\x08\0\0\0\x40\0\0\0")],
        b"damaged objects 1264\n",
    ),
    (&[(Objects, 32, b"\0\0\0\0")], b"damaged objects 32\n"),
    (&[(Objects, 36, b"\x0f\0\0\0")], b"damaged objects 36\n"),
    (&[(Objects, 40, b"\x7f\x10\0\0")], b"damaged objects 40\n"),
    (&[(Objects, 36, b"\x80\0\0\0")], b"damaged objects 0\n"),
    (
        &[(Objects, 64, b"\x01\0\0\0\0\0\0\0\0")],
        b"damaged objects 65\n",
    ),
    (
        &[(Objects, 64, b"\x01\x01\0\0\0\0\0\0\0\x41\0\0\0")],
        b"damaged objects 73\n",
    ),
    (
        &[
            (Objects, 64, b"\x01\x01\0\0\0\0\0\0\0\0\0\0\0"),
            (Objects, 141, b"\x01\x01\0\0\0\0\0\0\0\0\0\0\0"),
        ],
        b"damaged objects 142\n",
    ),
];

// A store of version 2 without commands.
fn new_second(alloc: Global) -> Result<MemMachine, AllocError> {
    let mut machine = new_store(alloc)?;
    for (file, at, bytes) in &SECOND {
        let _ = machine.write_at(*file, *at, bytes);
    }
    Ok(machine)
}

#[test]
fn the_first_fault_of_version_two_is_said(rt: HostRuntime) -> Result<(), Fail> {
    for (row, (changes, said)) in DAMAGED_SECOND.iter().enumerate() {
        let machine = new_second(rt.alloc())?;
        assert!(rt;
            damage_is_said(rt.alloc(), machine, changes, said),
            "row {row}"
        );
    }
    Ok(())
}

// A file of a new store that is cut at this offset, and what is printed.
const CUT: [(FileNo, usize, &[u8]); 3] = [
    (Objects, 1187, b"damaged objects 0\n"),
    (LogA, 33, b"damaged log_a 33\n"),
    (LogB, 0, b"damaged log_b 0\n"),
];

// The files of a new store, of which this one is cut.
fn cut_store(alloc: Global, cut: FileNo, at: usize) -> Result<MemMachine, AllocError> {
    let store = new_store(alloc)?;
    let mut machine = empty_folder(alloc)?;
    for file in [Objects, LogA, LogB] {
        let bytes = store.bytes(file);
        let end = if file == cut { at } else { bytes.len() };
        let _ = machine.write_at(file, 0, bytes.get(..end).unwrap_or(b"?"));
    }
    Ok(machine)
}

#[test]
fn a_cut_file_is_damaged(rt: HostRuntime) -> Result<(), Fail> {
    for (file, at, said) in CUT {
        let machine = cut_store(rt.alloc(), file, at)?;
        assert!(rt; is_said(rt.alloc(), machine, said), "{file:?} cut at {at}");
    }
    Ok(())
}
