// Bytes that are nodes, and short lists of bytes.
use crate::rows::{FULL, INNER, PAIR};
use btree_ops::Node;
use key_entries::Short;
use std::alloc::Global;

fn is_kept(bytes: &[u8]) -> bool {
    match Short::new(bytes) {
        Some(short) => short.as_slice() == bytes,
        None => false,
    }
}

fn are_in_order(lower: &[u8], upper: &[u8]) -> bool {
    match (Short::new(lower), Short::new(upper)) {
        (Some(lower), Some(upper)) => lower < upper,
        _ => false,
    }
}

fn short_lists_are_right() -> bool {
    let none = Short::new(b"").is_none()
        && Short::new(b"0123456789abcdef0123456789abcdef0").is_none();
    let kept = is_kept(b"a") && is_kept(b"0123456789abcdef0123456789abcdef");
    let order = are_in_order(b"aa", b"b") && are_in_order(b"a", b"aa");
    none && kept && order && Short::default().as_slice() == [0].as_slice()
}

#[test]
fn short_lists_have_1_to_32_bytes_in_their_order(rt: HostRuntime) {
    assert!(rt; short_lists_are_right());
}

// Bytes that are a node.
const NODES: [(&[u8], &str); 6] = [
    (b"\x01\0", "a leaf without pairs"),
    (PAIR, "a pair"),
    (FULL, "seven pairs"),
    (INNER, "a separator"),
    (
        b"\x01\x02\x02aa\x01x\x01b\x01y",
        "a longer key before a greater one",
    ),
    (
        b"\x02\x02\0\0\0\0\x01a\0\0\0\0\x02ab\xff\xff\xff\xff",
        "equal children",
    ),
];

// Bytes that are none.
const OTHERS: [(&[u8], &str); 15] = [
    (b"", "nothing"),
    (b"\x01", "no count"),
    (b"\0\0", "kind 0"),
    (b"\x03\x01\x01a\x011", "kind 3"),
    (b"\x02\0\x05\0\0\0", "an inner node without separators"),
    (b"\x01\x01\0\x011", "an empty key"),
    (b"\x01\x01\x01a\0", "an empty value"),
    (
        b"\x01\x01\x210123456789abcdef0123456789abcdef0\x011",
        "a key of 33 bytes",
    ),
    (b"\x01\x02\x01a\x011\x01a\x012", "a key twice"),
    (b"\x01\x02\x01b\x011\x02aa\x012", "keys that fall"),
    (b"\x01\x01\x01a\x021", "a cut value"),
    (b"\x01\x02\x01a\x011", "a pair too few"),
    (b"\x01\x01\x01a\x011\0", "a byte behind"),
    (b"\x02\x01\x05\0\0\0\x01m\x06\0\0", "a cut child"),
    (
        b"\x01\x08\x01a\x011\x01b\x012\x01c\x013\x01d\x014\x01e\x015\x01f\x016\x01g\x017\x01h\x018",
        "eight pairs",
    ),
];

// The bytes are read, and written again as they are.
fn is_node(alloc: Global, bytes: &[u8]) -> bool {
    match Node::read(bytes) {
        Some(node) => match node.bytes(alloc) {
            Ok(out) => out.as_slice() == bytes,
            Err(_) => false,
        },
        None => false,
    }
}

fn nodes_are_read(alloc: Global) -> bool {
    let mut good = true;
    for (bytes, _what) in NODES {
        good = good && is_node(alloc, bytes);
    }
    for (bytes, _what) in OTHERS {
        good = good && Node::read(bytes).is_none();
    }
    good
}

#[test]
fn a_node_is_read_exactly_where_the_bytes_are_one(rt: HostRuntime) {
    assert!(rt; nodes_are_read(rt.alloc()));
}

// The bytes of a node of seven entries whose keys all have 32 bytes, with these bytes in front and after each key.
fn longest(alloc: Global, front: &[u8], beside: &[u8]) -> Option<Vec<u8>> {
    let mut out = front.to_vec(alloc).ok()?;
    for key in b"abcdefg".iter() {
        out.push(32).ok()?;
        out.extend_from_slice(&[*key; 32]).ok()?;
        out.extend_from_slice(beside).ok()?;
    }
    Some(out)
}

fn is_whole(alloc: Global, bytes: Option<Vec<u8>>, length: usize) -> bool {
    match bytes {
        Some(bytes) => bytes.len() == length && is_node(alloc, bytes.as_slice()),
        None => false,
    }
}

fn longest_nodes_are_read(alloc: Global) -> bool {
    let value = b"\x200123456789abcdef0123456789abcdef";
    let leaf = longest(alloc, b"\x01\x07", value);
    let inner = longest(alloc, b"\x02\x07\x05\0\0\0", b"\x06\0\0\0");
    is_whole(alloc, leaf, 464) && is_whole(alloc, inner, 265)
}

#[test]
fn the_longest_nodes_are_read_whole(rt: HostRuntime) {
    assert!(rt; longest_nodes_are_read(rt.alloc()));
}
