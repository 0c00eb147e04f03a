// Where the redo of a log starts, and that of each object.
use analysis_pass::{Plan, a_plan_starts_at_the_least_start, analyse};
use explain_core::ByteOp;
use oper_core::Memory;
use std::alloc::Global;

// Tables, byte by byte: the next LSN, how many pairs, and each pair, an object and where its redo starts.
const NEXT_3_FROM_1: &[u8] = b"\x03\0\0\0\0\0\0\0\x01\0\0\0\0\0\0\0\x01\0\0\0\0\0\0\0";

const NEXT_4: &[u8] = b"\x04\0\0\0\0\0\0\0\0\0\0\0";

const NEXT_9_OF_FIVE: &[u8] = b"\x09\0\0\0\0\0\0\0\x05\0\0\0\
    \x01\0\0\0\x08\0\0\0\0\0\0\0\x04\0\0\0\x05\0\0\0\0\0\0\0\x06\0\0\0\x03\0\0\0\0\0\0\0\
    \x08\0\0\0\x07\0\0\0\0\0\0\0\xff\x0f\0\0\x06\0\0\0\0\0\0\0";

// The objects of this one do not rise, and one comes twice.
const NEXT_9_OF_THREE: &[u8] = b"\x09\0\0\0\0\0\0\0\x03\0\0\0\
    \x07\0\0\0\x03\0\0\0\0\0\0\0\x02\0\0\0\x05\0\0\0\0\0\0\0\x07\0\0\0\x02\0\0\0\0\0\0\0";

// Where a log begins, the table of its last checkpoint, none where it has no bytes, where its redo starts, and for some objects
// where the redo of each does.
const LOGS: [(u64, &[u8], u64, &[(u32, u64)]); 6] = [
    (1, b"", 1, &[(0, 1), (4095, 1)]),
    (5, b"", 5, &[(0, 5), (1, 5)]),
    (1, NEXT_3_FROM_1, 1, &[(0, 1), (1, 3)]),
    (1, NEXT_4, 4, &[(0, 4), (1, 4)]),
    (
        3,
        NEXT_9_OF_FIVE,
        3,
        &[
            (0, 9),
            (1, 8),
            (2, 9),
            (4, 5),
            (5, 9),
            (6, 3),
            (7, 9),
            (8, 7),
            (9, 9),
            (4095, 6),
        ],
    ),
    (
        1,
        NEXT_9_OF_THREE,
        2,
        &[(2, 5), (7, 3), (0, 9), (3, 9), (8, 9)],
    ),
];

fn plan(alloc: Global, base: u64, bytes: &[u8]) -> Result<Plan, Memory> {
    let last = match dirty_page_table::decode(alloc, bytes)? {
        Some((table, _)) => Some(table),
        None => None,
    };
    Ok(analyse(alloc, base, last))
}

fn all_start(plan: &Plan, starts: &[(u32, u64)]) -> bool {
    let mut good = true;
    for (object, start) in starts {
        good = good && plan.redo_from(*object) == *start;
        good = good && dirty_page_table::redo_from(plan.table(), *object) == *start;
    }
    good
}

fn plans_are_right(alloc: Global) -> Result<bool, Memory> {
    a_plan_starts_at_the_least_start::<ByteOp>();
    let mut good = true;
    for (base, last, start, starts) in LOGS {
        let plan = plan(alloc, base, last)?;
        good = good && plan.start() == start && all_start(&plan, starts);
    }
    Ok(good)
}

#[test]
fn a_redo_starts_where_the_last_checkpoint_says(rt: HostRuntime) {
    assert!(rt; matches!(plans_are_right(rt.alloc()), Ok(true)));
}
