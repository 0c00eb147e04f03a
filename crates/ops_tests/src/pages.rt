// Operations on pages of a map, worked out by hand.
use crate::codes::is_no_code;
use crate::commands::first_wrong;
use crate::rows::Row;
use oper_core::Refusal;
use std::alloc::Global;
use std::test::Fail;

// A leaf with one cell, one with the next, both together, and a leaf without cells.
const ONE: &[u8] = b"\x05\0\x01\0\x01\0b2\x04\0";

const NEXT: &[u8] = b"\x05\0\x01\0\x01\0c3\x04\0";

const BOTH: &[u8] = b"\x05\0\x02\0\x01\0b2\x01\0c3\x04\0\x08\0";

const NONE: &[u8] = b"\x05\0\0\0";

// An inner page with two children, and with three.
const INNER: &[u8] = b"\x05\x01\x02\0\0\0\x05\0\0\0\x01\0m\x06\0\0\0\x04\0\x0a\0";

const WIDER: &[u8] =
    b"\x05\x01\x03\0\0\0\x05\0\0\0\x01\0m\x06\0\0\0\x01\0t\x08\0\0\0\x04\0\x0a\0\x11\0";

const PAGES: &[Row] = &[
    (
        b"\x15\x02\0\0\0\0\0\x01\0b\x01\02",
        64,
        &[b""],
        Ok(()),
        &[ONE],
    ),
    (
        b"\x15\x02\0\0\0\x01\0\x01\0c\x01\03",
        64,
        &[ONE],
        Ok(()),
        &[BOTH],
    ),
    (
        b"\x15\x02\0\0\0\x01\0\x01\0a\x01\03",
        64,
        &[ONE],
        Err(Refusal::BadPlace),
        &[b""],
    ),
    (
        b"\x15\x02\0\0\0\x01\0\x01\0c\x01\03",
        15,
        &[ONE],
        Err(Refusal::TooLarge),
        &[b""],
    ),
    (
        b"\x16\x02\0\0\0\0\0\x02\033",
        64,
        &[ONE],
        Ok(()),
        &[b"\x05\0\x01\0\x01\0b33\x04\0"],
    ),
    (b"\x17\x02\0\0\0\0\0", 64, &[BOTH], Ok(()), &[NEXT]),
    (
        b"\x17\x02\0\0\0\0\0",
        64,
        &[INNER],
        Err(Refusal::NotNode),
        &[b""],
    ),
    (
        b"\x18\x03\0\0\0\x02\0\0\0\x01\0\x02\0",
        64,
        &[BOTH],
        Ok(()),
        &[NEXT],
    ),
    (
        b"\x19\x02\0\0\0\x03\0\0\0\x01\0",
        64,
        &[ONE, NEXT],
        Ok(()),
        &[BOTH],
    ),
    (
        b"\x1a\x04\0\0\0\x02\0\0\0\x03\0\0\0\x01\0\x02\0",
        64,
        &[ONE, NEXT],
        Ok(()),
        &[NEXT],
    ),
    (b"\x1b\x02\0\0\0\0\0", 64, &[BOTH], Ok(()), &[NONE]),
    (
        b"\x1c\x02\0\0\0\x01\0\x02\0\x06\0\0\0",
        64,
        &[WIDER],
        Ok(()),
        &[INNER],
    ),
    (
        b"\x1d\x02\0\0\0\x01\0\x01\0\x06\0\0\0\x01\0t\x08\0\0\0",
        64,
        &[INNER],
        Ok(()),
        &[WIDER],
    ),
    (
        b"\x1e\x02\0\0\0\x01\x05\0\0\0\x01\0m\x06\0\0\0",
        64,
        &[],
        Ok(()),
        &[INNER],
    ),
    (b"\x1f\x02\0\0\0", 64, &[], Ok(()), &[b""]),
];

// The codes of the same operations, which are none in a store without pages.
fn are_no_codes(alloc: Global) -> bool {
    PAGES.iter().all(|row| is_no_code(alloc, row.0))
}

#[test]
fn pages_change_part_and_join(rt: HostRuntime) -> Result<(), Fail> {
    assert_eq!(rt; first_wrong(rt.alloc(), PAGES)?, None);
    Ok(())
}

#[test]
fn no_page_is_changed_where_none_are_admitted(rt: HostRuntime) {
    assert!(rt; are_no_codes(rt.alloc()));
}
