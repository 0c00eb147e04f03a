// Streams that are compared with the log of a store before they are followed, and what is said of them.
use crate::standbys::{NO_ANSWER, TUNING, Told, feed, made};
use disk_model::GrowMem;
use op_meaning::PlainOp;
use standby_node::{CompareErr, Standby};
use std::alloc::{AllocError, Global};
use std::test::Fail;

// The log of the store: a put to object 0, and one to object 1.
static OWN: &[u8] = b"\x13\0\0\0\x01\x01\0\0\0\0\0\0\0\x01\0\0\0\0\x01\0\0\0\xaa\
      \x13\0\0\0\x01\x02\0\0\0\0\0\0\0\x01\x01\0\0\0\x01\0\0\0\xbb";

// A stream, and what is said of it.
static STREAMS: [(&[u8], Told); 8] = [
    // Its own records, in one frame, and one more behind them.
    (
        b"\x26\0\0\0\x01\x01\0\0\0\0\0\0\0\x01\0\0\0\0\x01\0\0\0\xaa\
          \x01\x02\0\0\0\0\0\0\0\x01\x01\0\0\0\x01\0\0\0\xbb\
          \x13\0\0\0\x01\x03\0\0\0\0\0\0\0\x01\0\0\0\0\x01\0\0\0\xcc",
        [0, 0, 0],
    ),
    // Behind its log.
    (
        b"\x13\0\0\0\x01\x07\0\0\0\0\0\0\0\x01\0\0\0\0\x01\0\0\0\xcc",
        [0, 0, 0],
    ),
    // Another value, alone and behind its own record.
    (
        b"\x13\0\0\0\x01\x01\0\0\0\0\0\0\0\x01\0\0\0\0\x01\0\0\0\xab",
        [1, 1, 0],
    ),
    (
        b"\x26\0\0\0\x01\x01\0\0\0\0\0\0\0\x01\0\0\0\0\x01\0\0\0\xaa\
          \x01\x02\0\0\0\0\0\0\0\x01\x01\0\0\0\x01\0\0\0\xbc",
        [1, 2, 0],
    ),
    // An identity write of the value that its command has put.
    (
        b"\x12\0\0\0\x02\x01\0\0\0\0\0\0\0\0\0\0\0\x01\0\0\0\xaa",
        [1, 1, 0],
    ),
    // One LSN twice behind its log, each time with another value.
    (
        b"\x13\0\0\0\x01\x03\0\0\0\0\0\0\0\x01\0\0\0\0\x01\0\0\0\xcc\
          \x13\0\0\0\x01\x03\0\0\0\0\0\0\0\x01\0\0\0\0\x01\0\0\0\xcd",
        [1, 3, 0],
    ),
    // Below its first record.
    (
        b"\x13\0\0\0\x01\0\0\0\0\0\0\0\0\x01\0\0\0\0\x01\0\0\0\xaa",
        [2, 0, 0],
    ),
    // A length that no payload has: what stands behind it is not compared.
    (
        b"\0\0\0\0\x13\0\0\0\x01\x01\0\0\0\0\0\0\0\x01\0\0\0\0\x01\0\0\0\xab",
        [0, 0, 0],
    ),
];

fn told(answer: Result<(), CompareErr>) -> Told {
    match answer {
        Ok(()) => [0, 0, 0],
        Err(CompareErr::Differs { lsn }) => [1, lsn, 0],
        Err(CompareErr::Unknown { lsn }) => [2, lsn, 0],
        Err(CompareErr::Memory) => NO_ANSWER,
    }
}

// What is said of a stream that comes in two pieces, the first of them so long.
fn compare(
    standby: &mut Standby<PlainOp>,
    machine: &mut GrowMem,
    stream: &[u8],
    first: usize,
) -> Told {
    if standby.is_broken() || first > stream.len() {
        return NO_ANSWER;
    }
    let Ok(mut mirror) = standby.mirror(machine) else {
        return NO_ANSWER;
    };
    if let Err(cause) = mirror.take::<PlainOp>(&stream[..first]) {
        return told(Err(cause));
    }
    told(mirror.take::<PlainOp>(&stream[first..]))
}

// Whether that is said of a stream, wherever it is cut in two.
fn is_told(alloc: Global, stream: &[u8], wanted: Told) -> Result<bool, AllocError> {
    let mut machine = made(alloc)?;
    let Ok(mut standby) = Standby::attach(alloc, &mut machine, TUNING) else {
        return Ok(false);
    };
    let mut all = feed(&mut standby, &mut machine, OWN)[0] == 0;
    for first in 0..stream.len() {
        all &= compare(&mut standby, &mut machine, stream, first) == wanted;
    }
    drop(standby);
    Ok(all)
}

#[test]
fn streams_are_compared_in_any_pieces(rt: HostRuntime) -> Result<(), Fail> {
    for (row, (stream, wanted)) in STREAMS.iter().enumerate() {
        assert!(rt; is_told(rt.alloc(), stream, *wanted)?, "row {row}");
    }
    Ok(())
}
