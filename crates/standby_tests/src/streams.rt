// Streams, and what a standby of a new store says of them.
use crate::standbys::{Seen, follows};
use std::alloc::{AllocError, Global};
use std::test::Fail;

const NONE: u64 = u64::MAX;

// A stream, and what is said of it.
static STREAMS: [(&[u8], Seen); 15] = [
    // One frame, the same twice, and three, of which the last has two records.
    (
        b"\x13\0\0\0\x01\x01\0\0\0\0\0\0\0\x01\0\0\0\0\x01\0\0\0\xaa",
        [0, 1, 0, NONE, 23, 0, 1, 0],
    ),
    (
        b"\x13\0\0\0\x01\x01\0\0\0\0\0\0\0\x01\0\0\0\0\x01\0\0\0\xaa\
          \x13\0\0\0\x01\x01\0\0\0\0\0\0\0\x01\0\0\0\0\x01\0\0\0\xaa",
        [0, 1, 0, NONE, 46, 0, 1, 0],
    ),
    (
        b"\x13\0\0\0\x01\x01\0\0\0\0\0\0\0\x01\0\0\0\0\x01\0\0\0\xaa\
          \x12\0\0\0\x02\x02\0\0\0\0\0\0\0\0\0\0\0\x01\0\0\0\xaa\
          \x26\0\0\0\x01\x03\0\0\0\0\0\0\0\x01\0\0\0\0\x01\0\0\0\xbb\
          \x01\x04\0\0\0\0\0\0\0\x01\x01\0\0\0\x01\0\0\0\xbb",
        [0, 3, 0, NONE, 87, 0, 3, 0],
    ),
    // Within a frame, and within its length.
    (
        b"\x13\0\0\0\x01\x01\0\0\0\0\0\0\0\x01\0\0\0\0\x01\0\0\0",
        [0, 0, 0, 0, 22, 0, 0, 0],
    ),
    (
        b"\x13\0\0\0\x01\x01\0\0\0\0\0\0\0\x01\0\0\0\0\x01\0\0\0\xaa\x13\0",
        [0, 1, 0, 23, 25, 0, 1, 0],
    ),
    // Lengths that no payload has.
    (b"\0\0\0\0", [1, 0, 0, 0, 4, 4, 0, 0]),
    (b"\x01\0\0\x40", [1, 0, 0, 0, 4, 4, 0, 0]),
    // A checkpoint, a number of 2^62, an object that is not there, a kind that is none.
    (
        b"\x0d\0\0\0\x03\x01\0\0\0\0\0\0\0\0\0\0\0",
        [1, 4, 0, 0, 17, 4, 0, 0],
    ),
    (
        b"\x13\0\0\0\x01\0\0\0\0\0\0\0\x40\x01\0\0\0\0\x01\0\0\0\xaa",
        [1, 4, 0, 0, 23, 4, 0, 0],
    ),
    (
        b"\x13\0\0\0\x01\x01\0\0\0\0\0\0\0\x01\x04\0\0\0\x01\0\0\0\xaa",
        [1, 4, 0, 0, 23, 4, 0, 0],
    ),
    (b"\x01\0\0\0\x04", [1, 4, 0, 0, 5, 4, 0, 0]),
    // A record that runs past its frame.
    (
        b"\x12\0\0\0\x01\x01\0\0\0\0\0\0\0\x01\0\0\0\0\x01\0\0\0",
        [1, 4, 0, 0, 22, 4, 0, 0],
    ),
    // A number that leaves a gap, alone and behind a record of its frame.
    (
        b"\x13\0\0\0\x01\x02\0\0\0\0\0\0\0\x01\0\0\0\0\x01\0\0\0\xaa",
        [2, 1, 2, 0, 23, 4, 0, 0],
    ),
    (
        b"\x26\0\0\0\x01\x01\0\0\0\0\0\0\0\x01\0\0\0\0\x01\0\0\0\xaa\
          \x01\x03\0\0\0\0\0\0\0\x01\0\0\0\0\x01\0\0\0\xbb",
        [2, 2, 3, 0, 42, 4, 0, 0],
    ),
    // An identity write of another value.
    (
        b"\x12\0\0\0\x02\x01\0\0\0\0\0\0\0\0\0\0\0\x01\0\0\0\xbb",
        [3, 1, 0, 0, 22, 4, 0, 0],
    ),
];

// Whether a stream is followed so, in pieces of so many bytes.
fn is_followed(alloc: Global, stream: &[u8], seen: Seen) -> Result<bool, AllocError> {
    let whole = follows(alloc, stream, 1000)? == seen;
    let threes = follows(alloc, stream, 3)? == seen;
    let bytes = follows(alloc, stream, 1)? == seen;
    Ok(whole & threes & bytes)
}

#[test]
fn streams_are_followed_in_any_pieces(rt: HostRuntime) -> Result<(), Fail> {
    for (row, (stream, seen)) in STREAMS.iter().enumerate() {
        assert!(rt; is_followed(rt.alloc(), stream, *seen)?, "row {row}");
    }
    Ok(())
}
