// The pieces in which a log is read: records across two of them, records longer than one, and several blocks.

use crate::records::{loaded, with_lsn};
use disk_model::{FileNo, Machine, MemMachine};
use formats::Record;
use log_records::RecordLog;
use op_meaning::PlainOp;
use oper_core::Bounds;
use std::alloc::Global;
use std::test::Fail;

const BOUNDS: Bounds = Bounds {
    objects: 1,
    cap: 1 << 18,
    more: false,
};

// Blocks, each with the lengths of its puts' values. The code of a put has 18 bytes more, and a piece 65,536.
type Blocks = &'static [&'static [usize]];

const LOGS: [(Blocks, &str); 6] = [
    (&[&[65_000, 1_000, 3]], "a record across two pieces"),
    (&[&[2, 200_000, 3]], "a record longer than three pieces"),
    (
        &[&[65_518, 1], &[2]],
        "a record that ends where its piece does",
    ),
    (&[&[65_517], &[65_519, 1]], "one byte less, and one more"),
    (&[&[7; 6_000]], "a payload of three pieces"),
    (
        &[&[1], &[2, 70_000, 65_000], &[3], &[131_072], &[0, 4]],
        "several blocks",
    ),
];

// The byte of a put's value at a place in it.
fn byte_at(lsn: u64, place: usize) -> u8 {
    ((lsn % 251 + place as u64 % 251) % 251) as u8
}

// Appends the code of a put with this LSN and a value of so many bytes.
fn put_code(out: &mut Vec<u8>, lsn: u64, length: usize) -> Result<(), Fail> {
    out.push(1)?;
    out.extend_from_slice(&lsn.to_le_bytes())?;
    out.extend_from_slice(b"\x01\0\0\0\0")?;
    out.extend_from_slice(&u32::try_from(length).unwrap_or(0).to_le_bytes())?;
    for place in 0..length {
        out.push(byte_at(lsn, place))?;
    }
    Ok(())
}

// Appends the block of puts with values of these lengths, the first of which has this LSN.
fn put_block(alloc: Global, out: &mut Vec<u8>, first: u64, lengths: &[usize]) -> Result<(), Fail> {
    let mut payload = Vec::new(alloc);
    for (length, lsn) in lengths.iter().zip(first..u64::MAX) {
        put_code(&mut payload, lsn, *length)?;
    }
    out.push(1)?;
    out.extend_from_slice(&u32::try_from(payload.len()).unwrap_or(0).to_le_bytes())?;
    out.extend_from_slice(&payload)?;
    Ok(())
}

// The lengths of all values, in their order.
fn lengths_of(alloc: Global, blocks: Blocks) -> Result<Vec<usize>, Fail> {
    let mut all = Vec::new(alloc);
    for block in blocks {
        all.extend_from_slice(block)?;
    }
    Ok(all)
}

// A machine with a log of these blocks.
fn with_blocks(alloc: Global, blocks: Blocks) -> Result<MemMachine, Fail> {
    let mut bytes = Vec::new(alloc);
    let mut next = 1u64;
    for block in blocks {
        put_block(alloc, &mut bytes, next, block)?;
        next = next.saturating_add(block.len() as u64);
    }
    bytes.push(0)?;
    let mut machine = MemMachine::new(alloc, [64, 1 << 20, 64], 1 << 10, 1 << 20, Vec::new(alloc))?;
    RecordLog::<PlainOp>::create(&mut machine)?;
    machine.write_at(FileNo::LogA, 33, &bytes)?;
    Ok(machine)
}

// Whether a record is the put with this LSN, with its value of so many bytes.
fn is_put(record: &Record<PlainOp>, lsn: u64, length: usize) -> bool {
    let Record::Command(n, PlainOp::Put { object, value }) = record else {
        return false;
    };
    let value = value.as_slice();
    let mut is = *n == lsn && *object == 0 && value.len() == length;
    for (place, byte) in value.iter().enumerate() {
        is &= *byte == byte_at(lsn, place);
    }
    is
}

// Whether records are the puts with values of these lengths, the first of which has this LSN.
fn are_puts(records: &[Record<PlainOp>], first: u64, lengths: &[usize]) -> bool {
    let mut are = records.len() == lengths.len();
    for ((record, length), lsn) in records.iter().zip(lengths).zip(first..u64::MAX) {
        are &= is_put(record, lsn, *length);
    }
    are
}

// Whether a log of these blocks is loaded, and all its puts are found, and those from the second on.
fn are_read(alloc: Global, blocks: Blocks) -> Result<[bool; 3], Fail> {
    let lengths = lengths_of(alloc, blocks)?;
    let mut machine = with_blocks(alloc, blocks)?;
    let log = loaded(alloc, &mut machine, BOUNDS)?;
    let is_loaded = log.accepted() == lengths.len() as u64;
    let all = log.stable(&mut machine)?;
    let last = with_lsn(alloc, &log, &mut machine, 2)?;
    let behind = lengths.get(1..).unwrap_or(&[]);
    Ok([
        is_loaded,
        are_puts(&all, 1, &lengths),
        are_puts(&last, 2, behind),
    ])
}

#[test]
fn records_are_read_across_pieces_and_blocks(rt: HostRuntime) -> Result<(), Fail> {
    for (blocks, why) in LOGS {
        assert!(rt; are_read(rt.alloc(), blocks)? == [true; 3], "{why}");
    }
    Ok(())
}
