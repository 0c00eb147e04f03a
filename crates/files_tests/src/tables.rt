ghost use Rattle.std.specs.Prelude.{◌<◌, ◌≤◌, ◌^◌, IfOk, length};

// The codec of a checkpoint's table, and where the redo of an object starts by it.
use dirty_page_table::{
    DirtyPageTable, Starts, decode, encode, one_table, redo_from, starts_at_the_least_writer, take,
};
use oper_core::Memory;
use std::alloc::Global;

// A table of these pairs, in whatever order.
fn table(alloc: Global, next: u64, starts: &[(u32, u64)]) -> Result<DirtyPageTable, Memory>
    ensures { IfOk result (λ table. length table.starts ≤ length starts.now) }
{
    let starts = Starts::new(Vec::from_slice(alloc, starts)?);
    Ok(DirtyPageTable { next, starts })
}

// Its code, between other bytes.
fn coded(alloc: Global, table: &DirtyPageTable) -> Result<Vec<u8>, Memory>
    requires { length table.now.starts < 2 ^ 32 }
{
    let mut out = b"before".to_vec(alloc)?;
    encode(table, &mut out)?;
    out.extend_from_slice(b"behind")?;
    Ok(out)
}

// Next LSNs, pairs, and the codes of their tables, between other bytes.
const CODES: [(u64, &[(u32, u64)], &[u8]); 4] = [
    (1, &[], b"before\x01\0\0\0\0\0\0\0\0\0\0\0behind"),
    (
        0x0102,
        &[(0x0304, 0x01_0000_0000)],
        b"before\x02\x01\0\0\0\0\0\0\x01\0\0\0\x04\x03\0\0\0\0\0\0\x01\0\0\0behind",
    ),
    (
        3,
        &[(0, 1), (1, 2)],
        b"before\x03\0\0\0\0\0\0\0\x02\0\0\0\0\0\0\0\x01\0\0\0\0\0\0\0\x01\0\0\0\x02\0\0\0\0\0\0\0behind",
    ),
    (
        u64::MAX,
        &[(u32::MAX, u64::MAX)],
        b"before\xff\xff\xff\xff\xff\xff\xff\xff\x01\0\0\0\xff\xff\xff\xff\xff\xff\xff\xff\xff\xff\xff\xffbehind",
    ),
];

fn is_encoded(
    alloc: Global,
    next: u64,
    starts: &[(u32, u64)],
    code: &[u8],
) -> Result<bool, Memory> {
    if starts.len() > 2 {
        return Ok(false);
    }
    let table = table(alloc, next, starts)?;
    let out = coded(alloc, &table)?;
    Ok(out.as_slice() == code)
}

fn is_decoded(alloc: Global, next: u64, starts: &[(u32, u64)], code: &[u8]) -> bool {
    let Some(bytes) = code.strip_prefix(b"before") else {
        return false;
    };
    match decode(alloc, bytes) {
        Ok(Some((table, length))) => {
            table.next == next && table.starts.as_slice() == starts && bytes.len() == length + 6
        }
        _ => false,
    }
}

fn codes_are_right(alloc: Global) -> bool {
    one_table();
    let mut good = true;
    for (next, starts, code) in CODES {
        good = good && matches!(is_encoded(alloc, next, starts, code), Ok(true));
        good = good && is_decoded(alloc, next, starts, code);
    }
    good
}

#[test]
fn a_code_is_as_worked_and_reads_back(rt: HostRuntime) {
    assert!(rt; codes_are_right(rt.alloc()));
}

// Bytes that begin with no table.
const OTHERS: [(&[u8], &str); 5] = [
    (b"", "nothing"),
    (b"\x01\0\0\0\0\0\0\0\0\0\0", "a cut count"),
    (
        b"\x03\0\0\0\0\0\0\0\x01\0\0\0\0\0\0\0\x01\0\0\0\0\0\0",
        "a cut pair",
    ),
    (
        b"\x03\0\0\0\0\0\0\0\x02\0\0\0\0\0\0\0\x01\0\0\0\0\0\0\0",
        "a pair too few",
    ),
    (
        b"\x03\0\0\0\0\0\0\0\xff\xff\xff\xff\0\0\0\0\x01\0\0\0\0\0\0\0",
        "an absurd count",
    ),
];

fn is_no_table(alloc: Global, bytes: &[u8]) -> bool {
    matches!(decode(alloc, bytes), Ok(None))
}

fn others_are_none(alloc: Global) -> bool {
    let mut good = true;
    for (bytes, _what) in OTHERS {
        good = good && is_no_table(alloc, bytes);
    }
    good
}

#[test]
fn other_bytes_are_no_table(rt: HostRuntime) {
    assert!(rt; others_are_none(rt.alloc()));
}

// Objects, and where their redo starts by a table of (2, 5) and (7, 3) whose next LSN is 9.
const STARTS: [(u32, u64); 5] = [(2, 5), (7, 3), (0, 9), (3, 9), (u32::MAX, 9)];

fn all_start(table: &DirtyPageTable, starts: &[(u32, u64)]) -> bool {
    let mut good = true;
    for (object, start) in starts {
        good = good && redo_from(table, *object) == *start;
    }
    good
}

fn redos_start(alloc: Global) -> Result<bool, Memory> {
    starts_at_the_least_writer();
    let taken = take(alloc, &[(2, 5), (7, 3)], 9)?;
    let none = take(alloc, &[], 4)?;
    Ok(all_start(&taken, &STARTS) && all_start(&none, &[(0, 4)]))
}

#[test]
fn a_redo_starts_at_the_pair_or_at_the_next_lsn(rt: HostRuntime) {
    assert!(rt; matches!(redos_start(rt.alloc()), Ok(true)));
}

fn the_first_counts(alloc: Global) -> Result<bool, Memory> {
    let twice = table(alloc, 9, &[(7, 3), (2, 5), (7, 1)])?;
    let first = redo_from(&twice, 7) == 3;
    let pairs = twice.starts.into_vec();
    Ok(first && pairs.as_slice() == [(7, 3), (2, 5), (7, 1)].as_slice())
}

#[test]
fn of_two_pairs_of_an_object_the_first_counts(rt: HostRuntime) {
    assert!(rt; matches!(the_first_counts(rt.alloc()), Ok(true)));
}
