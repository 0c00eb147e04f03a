// Bytes that begin with no code, and objects that no command has.
use app_program::ProgramOp;
use btree_ops::NodeOp;
use op_codec::AllOps;
use op_meaning::PlainOp;
use oper_core::{Bounds, Oper, Refusal};
use std::alloc::Global;

const EIGHT: Bounds = Bounds {
    objects: 8,
    cap: 3,
    more: false,
};

const NO_CODES: &[(&[u8], &str)] = &[
    (b"", "nothing"),
    (b"\0\x03\0\0\0\x01\0\0\0\x02\0\0\0", "the tag 0"),
    (b"\x20\x03\0\0\0\x01\0\0\0\x02\0\0\0", "the tag 32"),
    (b"\x01\0\0\0\0\0\0\0", "a cut head"),
    (b"\x01\0\0\0\0\x01\0\0\0", "a cut value"),
    (b"\x01\x08\0\0\0\x01\0\0\0\xaa", "no such object"),
    (b"\x01\0\0\0\0\x04\0\0\0abcd", "a value over the cap"),
    (b"\x01\0\0\0\0\xff\xff\xff\xff\xaa", "an absurd length"),
    (b"\x02\x03\0\0\0\x01\0\0", "a cut copy"),
    (b"\x03\x08\0\0\0\x01\0\0\0", "no such first object"),
    (b"\x04\x03\0\0\0\x01\0\0\0\x02\0\0", "a cut cut"),
    (
        b"\x05\x01\0\0\0\x08\0\0\0\x01\0\0\0",
        "no such second object",
    ),
    (b"\x06\x03\0\0\0\x03\0\0\0", "one object twice"),
    (b"\x07\x08\0\0\0", "no such application"),
    (
        b"\x08\x03\0\0\0\x03\0\0\0",
        "an application that reads itself",
    ),
    (b"\x09\x03\0\0\0\x01\0\0", "a cut write"),
    (b"\x0a\x08\0\0\0\x01a\x0212", "no such node"),
    (b"\x0a\x07\0\0\0\0\x0212", "an empty key"),
    (
        b"\x0a\x07\0\0\0\x01a\x0312",
        "a value cut in a node's entry",
    ),
    (
        b"\x0b\x06\0\0\0\x210123456789abcdef0123456789abcdef0",
        "a long key",
    ),
    (b"\x0c\x01\0\0\0\x02\0\0\0\x03\0\0", "a cut object"),
    (b"\x0c\x01\0\0\0\x02\0\0\0\x02\0\0\0", "one node twice"),
    (b"\x0d\x01\0\0\0\x02\0\0\0\x01\0\0\0", "the root twice"),
    (b"\x0e\x03\0\0\0\x01\0\0", "a cut program"),
    (
        b"\x0e\x03\0\0\0\x03\0\0\0",
        "an application that is its own program",
    ),
    (b"\x0f\x08\0\0\0\x01\0\0\0", "no such machine"),
    (b"\x10\x01\0\0\0\x08\0\0\0", "no object for the output"),
];

/// Whether the bytes are read as no command of a store without pages.
pub fn is_no_code(alloc: Global, bytes: &[u8]) -> bool {
    match AllOps::decode(alloc, EIGHT, bytes) {
        Ok(None) => true,
        _ => false,
    }
}

// Two objects, and what is said of a command that has both.
const PAIRS: [(u32, u32, Result<(), Refusal>); 5] = [
    (3, 2, Ok(())),
    (3, 3, Err(Refusal::Same)),
    (0, 8, Err(Refusal::NoObject)),
    (8, 0, Err(Refusal::NoObject)),
    (8, 8, Err(Refusal::NoObject)),
];

// Three objects, and what is said of a split of them.
const TRIPLES: [(u32, u32, u32, Result<(), Refusal>); 4] = [
    (1, 2, 7, Ok(())),
    (1, 1, 8, Err(Refusal::NoObject)),
    (1, 2, 1, Err(Refusal::Same)),
    (2, 1, 1, Err(Refusal::Same)),
];

fn is_said_of_pairs(from: u32, to: u32, want: Result<(), Refusal>) -> bool {
    [
        PlainOp::Copy { from, to }.shape(EIGHT),
        PlainOp::Append { from, to }.shape(EIGHT),
        PlainOp::Cut { from, to, place: 9 }.shape(EIGHT),
        PlainOp::Sort { from, to, width: 0 }.shape(EIGHT),
        PlainOp::Swap {
            first: from,
            second: to,
        }
        .shape(EIGHT),
    ] == [want; 5]
        && is_said_of_programs(from, to, want)
}

fn is_said_of_programs(app: u32, other: u32, want: Result<(), Refusal>) -> bool {
    [
        ProgramOp::Step {
            app,
            program: other,
        }
        .shape(EIGHT),
        ProgramOp::Feed { app, from: other }.shape(EIGHT),
        ProgramOp::Drain { app, to: other }.shape(EIGHT),
    ] == [want; 3]
}

fn is_said_of_splits(one: u32, two: u32, three: u32, want: Result<(), Refusal>) -> bool {
    let child = NodeOp::SplitChild {
        parent: one,
        child: two,
        new: three,
    };
    let root = NodeOp::SplitRoot {
        root: one,
        left: two,
        right: three,
    };
    [child.shape(EIGHT), root.shape(EIGHT)] == [want; 2]
}

fn shapes_are_right() -> bool {
    let mut good = true;
    for (from, to, want) in PAIRS {
        good = good && is_said_of_pairs(from, to, want);
    }
    for (one, two, three, want) in TRIPLES {
        good = good && is_said_of_splits(one, two, three, want);
    }
    good
}

/// How many of the bytes are read as a command.
pub fn codes_among(alloc: Global, rows: &[(&[u8], &str)]) -> usize {
    rows.iter().filter(|row| !is_no_code(alloc, row.0)).count()
}

#[test]
fn other_bytes_are_no_code(rt: HostRuntime) {
    assert_eq!(rt; codes_among(rt.alloc(), NO_CODES), 0);
}

#[test]
fn objects_are_there_and_apart(rt: HostRuntime) {
    assert!(rt; shapes_are_right());
}
