// The operations on a hash file, and bytes that are its directories and buckets.
use crate::codes::codes_among;
use crate::commands::first_wrong;
use crate::rows::Row;
use hash_ops::{Bucket, Directory, HashOp, hash};
use key_entries::Short;
use oper_core::{Bounds, Oper, Refusal};
use std::alloc::Global;
use std::test::Fail;

const FULL: &[u8] =
    b"\x04\x01\x07\x01a\x01x\x01b\x01x\x01c\x01x\x01d\x01x\x01e\x01x\x01f\x01x\x01g\x01x";

const DEEPEST: &[u8] =
    b"\x03\x06\x06\0\0\0\x06\0\0\0\x06\0\0\0\x06\0\0\0\x06\0\0\0\x06\0\0\0\x06\0\0\0\x06\0\0\0\x06\0\0\0\x06\0\0\0\x06\0\0\0\x06\0\0\0\x06\0\0\0\x06\0\0\0\x06\0\0\0\x06\0\0\0\x06\0\0\0\x06\0\0\0\x06\0\0\0\x06\0\0\0\x06\0\0\0\x06\0\0\0\x06\0\0\0\x06\0\0\0\x06\0\0\0\x06\0\0\0\x06\0\0\0\x06\0\0\0\x06\0\0\0\x06\0\0\0\x06\0\0\0\x06\0\0\0\x06\0\0\0\x06\0\0\0\x06\0\0\0\x06\0\0\0\x06\0\0\0\x06\0\0\0\x06\0\0\0\x06\0\0\0\x06\0\0\0\x06\0\0\0\x06\0\0\0\x06\0\0\0\x06\0\0\0\x06\0\0\0\x06\0\0\0\x06\0\0\0\x06\0\0\0\x06\0\0\0\x06\0\0\0\x06\0\0\0\x06\0\0\0\x06\0\0\0\x06\0\0\0\x06\0\0\0\x06\0\0\0\x06\0\0\0\x06\0\0\0\x06\0\0\0\x06\0\0\0\x06\0\0\0\x06\0\0\0\x06\0\0\0";

// On the directory 5, the bucket 6 or 8 and the new bucket 7.
const HASHES: &[Row] = &[
    // A file begins.
    (
        b"\x11\x05\0\0\0\x06\0\0\0",
        1024,
        &[],
        Ok(()),
        &[b"\x03\0\x06\0\0\0", b"\x04\0\0"],
    ),
    (
        b"\x11\x05\0\0\0\x06\0\0\0",
        1023,
        &[],
        Err(Refusal::TooLarge),
        &[b"", b""],
    ),
    // A put into no pairs, beside others, with a new value, into a bucket that is full.
    (
        b"\x12\x06\0\0\0\x01a\x02xy",
        1024,
        &[b"\x04\0\0"],
        Ok(()),
        &[b"\x04\0\x01\x01a\x02xy"],
    ),
    (
        b"\x12\x06\0\0\0\x02ab\x01w",
        1024,
        &[b"\x04\x02\x02\x01a\x01x\x01b\x01y"],
        Ok(()),
        &[b"\x04\x02\x03\x01a\x01x\x02ab\x01w\x01b\x01y"],
    ),
    (
        b"\x12\x06\0\0\0\x01d\x03new",
        1024,
        &[FULL],
        Ok(()),
        &[b"\x04\x01\x07\x01a\x01x\x01b\x01x\x01c\x01x\x01d\x03new\x01e\x01x\x01f\x01x\x01g\x01x"],
    ),
    (
        b"\x12\x06\0\0\0\x01h\x01x",
        1024,
        &[FULL],
        Err(Refusal::NodeFull),
        &[b""],
    ),
    // No bucket, which is said before a value that is too short for one.
    (
        b"\x12\x06\0\0\0\x01a\x01x",
        1024,
        &[b""],
        Err(Refusal::NotNode),
        &[b""],
    ),
    (
        b"\x12\x06\0\0\0\x01a\x01x",
        1023,
        &[b"\x01\0"],
        Err(Refusal::NotNode),
        &[b""],
    ),
    (
        b"\x12\x06\0\0\0\x01a\x01x",
        1023,
        &[b"\x04\0\0"],
        Err(Refusal::TooLarge),
        &[b""],
    ),
    // A delete of a key that is there, of another, from no bucket.
    (
        b"\x13\x06\0\0\0\x01a",
        1024,
        &[b"\x04\x02\x02\x01a\x01x\x01b\x01y"],
        Ok(()),
        &[b"\x04\x02\x01\x01b\x01y"],
    ),
    (
        b"\x13\x06\0\0\0\x01c",
        1024,
        &[b"\x04\x02\x02\x01a\x01x\x01b\x01y"],
        Err(Refusal::NoKey),
        &[b""],
    ),
    (
        b"\x13\x06\0\0\0\x01c",
        1024,
        &[b""],
        Err(Refusal::NotNode),
        &[b""],
    ),
    (
        b"\x13\x06\0\0\0\x01a",
        1023,
        &[b"\x04\x02\x02\x01a\x01x\x01b\x01y"],
        Err(Refusal::TooLarge),
        &[b""],
    ),
    // The first split: the directory doubles, and each pair goes by the last bit of its number.
    (
        b"\x14\x05\0\0\0\x06\0\0\0\x07\0\0\0",
        1024,
        &[
            b"\x03\0\x06\0\0\0",
            b"\x04\0\x03\x01a\x01x\x02ab\x01w\x01b\x01y",
        ],
        Ok(()),
        &[
            b"\x03\x01\x06\0\0\0\x07\0\0\0",
            b"\x04\x01\x01\x01b\x01y",
            b"\x04\x01\x02\x01a\x01x\x02ab\x01w",
        ],
    ),
    // A bucket that is as deep as the directory, which doubles: an entry of the upper half is one of the lower half.
    (
        b"\x14\x05\0\0\0\x08\0\0\0\x07\0\0\0",
        1024,
        &[
            b"\x03\x01\x06\0\0\0\x08\0\0\0",
            b"\x04\x01\x02\x01a\x01x\x01c\x01z",
        ],
        Ok(()),
        &[
            b"\x03\x02\x06\0\0\0\x08\0\0\0\x06\0\0\0\x07\0\0\0",
            b"\x04\x02\x01\x01a\x01x",
            b"\x04\x02\x01\x01c\x01z",
        ],
    ),
    // One that is not as deep: the directory stays as deep as it is.
    (
        b"\x14\x05\0\0\0\x06\0\0\0\x07\0\0\0",
        1024,
        &[
            b"\x03\x02\x06\0\0\0\x08\0\0\0\x06\0\0\0\x08\0\0\0",
            b"\x04\x01\x02\x01b\x01y\x01d\x01z",
        ],
        Ok(()),
        &[
            b"\x03\x02\x06\0\0\0\x08\0\0\0\x07\0\0\0\x08\0\0\0",
            b"\x04\x02\x01\x01d\x01z",
            b"\x04\x02\x01\x01b\x01y",
        ],
    ),
    // All pairs in one half.
    (
        b"\x14\x05\0\0\0\x06\0\0\0\x07\0\0\0",
        1024,
        &[b"\x03\0\x06\0\0\0", b"\x04\0\x02\x01b\x01y\x01d\x01z"],
        Ok(()),
        &[
            b"\x03\x01\x06\0\0\0\x07\0\0\0",
            b"\x04\x01\x02\x01b\x01y\x01d\x01z",
            b"\x04\x01\0",
        ],
    ),
    // No directory, a directory that names others, no bucket, a bucket that is deeper.
    (
        b"\x14\x05\0\0\0\x06\0\0\0\x07\0\0\0",
        1024,
        &[b"", b"\x04\0\0"],
        Err(Refusal::NotNode),
        &[b"", b"", b""],
    ),
    (
        b"\x14\x05\0\0\0\x06\0\0\0\x07\0\0\0",
        1024,
        &[b"\x03\0\x09\0\0\0", b"\x04\0\0"],
        Err(Refusal::NotNode),
        &[b"", b"", b""],
    ),
    (
        b"\x14\x05\0\0\0\x06\0\0\0\x07\0\0\0",
        1024,
        &[b"\x03\0\x06\0\0\0", b""],
        Err(Refusal::NotNode),
        &[b"", b"", b""],
    ),
    (
        b"\x14\x05\0\0\0\x06\0\0\0\x07\0\0\0",
        1024,
        &[b"\x03\0\x06\0\0\0", b"\x04\x01\0"],
        Err(Refusal::NotNode),
        &[b"", b"", b""],
    ),
    // The greatest depth, and a value that is too short.
    (
        b"\x14\x05\0\0\0\x06\0\0\0\x07\0\0\0",
        1024,
        &[DEEPEST, b"\x04\x06\0"],
        Err(Refusal::NodeFull),
        &[b"", b"", b""],
    ),
    (
        b"\x14\x05\0\0\0\x06\0\0\0\x07\0\0\0",
        1023,
        &[DEEPEST, b"\x04\x06\0"],
        Err(Refusal::NodeFull),
        &[b"", b"", b""],
    ),
    (
        b"\x14\x05\0\0\0\x06\0\0\0\x07\0\0\0",
        1023,
        &[b"\x03\0\x06\0\0\0", b"\x04\0\0"],
        Err(Refusal::TooLarge),
        &[b"", b"", b""],
    ),
];

const NO_CODES: &[(&[u8], &str)] = &[
    (
        b"\x11\x03\0\0\0\x03\0\0\0",
        "a directory that is its own bucket",
    ),
    (b"\x11\x03\0\0\0\x08\0\0\0", "no such bucket"),
    (b"\x12\x08\0\0\0\x01a\x0212", "no such bucket for a put"),
    (b"\x12\x07\0\0\0\0\x0212", "an empty key"),
    (b"\x12\x07\0\0\0\x01a\x0312", "a cut value"),
    (
        b"\x13\x06\0\0\0\x210123456789abcdef0123456789abcdef0",
        "a long key",
    ),
    (b"\x14\x01\0\0\0\x02\0\0\0\x03\0\0", "a cut object"),
    (
        b"\x14\x01\0\0\0\x02\0\0\0\x02\0\0\0",
        "the old bucket as the new one",
    ),
];

// Three objects, what is said of a beginning in the first two, and of a split of all.
const TRIPLES: [(u32, u32, u32, Result<(), Refusal>, Result<(), Refusal>); 5] = [
    (1, 2, 7, Ok(()), Ok(())),
    (1, 1, 7, Err(Refusal::Same), Err(Refusal::Same)),
    (1, 2, 1, Ok(()), Err(Refusal::Same)),
    (1, 1, 8, Err(Refusal::Same), Err(Refusal::NoObject)),
    (8, 1, 1, Err(Refusal::NoObject), Err(Refusal::NoObject)),
];

const EIGHT: Bounds = Bounds {
    objects: 8,
    cap: 3,
    more: false,
};

fn is_said(
    directory: u32,
    bucket: u32,
    new: u32,
    begun: Result<(), Refusal>,
    split: Result<(), Refusal>,
) -> bool {
    let init = HashOp::Init { directory, bucket };
    let halves = HashOp::Split {
        directory,
        bucket,
        new,
    };
    (init.shape(EIGHT) == begun) & (halves.shape(EIGHT) == split)
}

fn shapes_are_right() -> bool {
    let mut good = true;
    for (directory, bucket, new, begun, split) in TRIPLES {
        good = good && is_said(directory, bucket, new, begun, split);
    }
    good
}

// Bytes that are a directory, and bytes that are none.
const DIRECTORIES: &[(&[u8], &str)] = &[
    (b"\x03\0\x05\0\0\0", "one entry"),
    (b"\x03\x01\x05\0\0\0\x05\0\0\0", "a bucket twice"),
    (DEEPEST, "the greatest depth"),
];

const NO_DIRECTORIES: &[(&[u8], &str)] = &[
    (b"", "nothing"),
    (b"\x03", "no depth"),
    (b"\x03\0", "no entry"),
    (b"\x02\0\x05\0\0\0", "kind 2"),
    (b"\x03\0\x05\0\0", "a cut entry"),
    (b"\x03\0\x05\0\0\0\0", "a byte behind"),
    (b"\x03\x01\x05\0\0\0", "an entry too few"),
    (b"\x03\0\x05\0\0\0\x05\0\0\0", "an entry too many"),
    (b"\x03\x07\x05\0\0\0", "depth 7"),
];

// Bytes that are a bucket, and bytes that are none.
const BUCKETS: &[(&[u8], &str)] = &[
    (b"\x04\0\0", "no pairs"),
    (b"\x04\x06\x01\x01a\x01x", "the greatest depth"),
    (FULL, "seven pairs"),
];

const NO_BUCKETS: &[(&[u8], &str)] = &[
    (b"", "nothing"),
    (b"\x04\0", "no count"),
    (b"\x01\0\0", "kind 1"),
    (b"\x04\x07\0", "depth 7"),
    (b"\x04\0\x01", "a pair too few"),
    (b"\x04\0\0\0", "a byte behind"),
    (b"\x04\0\x01\0\x01x", "an empty key"),
    (b"\x04\0\x02\x01a\x01x\x01a\x01y", "a key twice"),
    (b"\x04\0\x02\x01b\x01x\x01a\x01y", "keys that fall"),
    (
        b"\x04\0\x08\x01a\x01x\x01b\x01x\x01c\x01x\x01d\x01x\x01e\x01x\x01f\x01x\x01g\x01x\x01h\x01x",
        "eight pairs",
    ),
];

// The bytes are read, and written again as they are.
fn is_directory(alloc: Global, bytes: &[u8]) -> bool {
    match Directory::read(bytes) {
        Some(directory) => match directory.bytes(alloc) {
            Ok(out) => out.as_slice() == bytes,
            Err(_) => false,
        },
        None => false,
    }
}

fn is_bucket(alloc: Global, bytes: &[u8]) -> bool {
    match Bucket::read(bytes) {
        Some(bucket) => match bucket.bytes(alloc) {
            Ok(out) => out.as_slice() == bytes,
            Err(_) => false,
        },
        None => false,
    }
}

fn directories_among(alloc: Global, rows: &[(&[u8], &str)]) -> usize {
    rows.iter().filter(|row| is_directory(alloc, row.0)).count()
}

fn buckets_among(alloc: Global, rows: &[(&[u8], &str)]) -> usize {
    rows.iter().filter(|row| is_bucket(alloc, row.0)).count()
}

// How many of the bytes are read.
fn are_read(alloc: Global) -> [usize; 4] {
    [
        directories_among(alloc, DIRECTORIES),
        directories_among(alloc, NO_DIRECTORIES),
        buckets_among(alloc, BUCKETS),
        buckets_among(alloc, NO_BUCKETS),
    ]
}

fn has_number(key: &[u8], number: u32) -> bool {
    match Short::new(key) {
        Some(key) => hash(key) == number,
        None => false,
    }
}

fn numbers_are_right() -> bool {
    has_number(b"a", 97) & has_number(b"ab", 3105) & has_number(&[0xff; 8], 3963989888)
}

#[test]
fn hash_files_begin_change_and_split(rt: HostRuntime) -> Result<(), Fail> {
    assert_eq!(rt; first_wrong(rt.alloc(), HASHES)?, None);
    Ok(())
}

#[test]
fn other_bytes_are_no_operation_on_a_hash_file(rt: HostRuntime) {
    assert_eq!(rt; codes_among(rt.alloc(), NO_CODES), 0);
}

#[test]
fn a_split_names_three_objects(rt: HostRuntime) {
    assert!(rt; shapes_are_right());
}

#[test]
fn a_directory_and_a_bucket_are_read_exactly_where_the_bytes_are_one(rt: HostRuntime) {
    assert_eq!(rt; are_read(rt.alloc()), [3, 0, 3, 0]);
}

#[test]
fn a_key_has_its_number(rt: HostRuntime) {
    assert!(rt; numbers_are_right());
}
