// A redo that is stopped, and once more as it is done again.
use crate::logs::{LOGGED, THREE_PUTS, with_block};
use crate::redone::{ALL, hold, run_redo};
use disk_model::{Crash, MemMachine};
use std::alloc::Global;
use std::test::Fail;

// A log, how many objects may be dirty, the calls that a redo makes then, and the values after it.
type Row = (&'static [u8], usize, u64, &'static [&'static [u8]]);

// A redo makes four calls that read a log of one block, six for an object that is flushed alone, and ten for two together.
const ROWS: [Row; 5] = [
    (THREE_PUTS, 0, 22, &[b"aa", b"bb", b"cc"]),
    (THREE_PUTS, 1, 16, &[b"aa", b"bb", b"cc"]),
    (THREE_PUTS, 2, 14, &[b"aa", b"bb", b"cc"]),
    (LOGGED, 0, 28, &[b"bb", b"aa"]),
    (LOGGED, 1, 16, &[b"bb", b"aa"]),
];

const CRASHES: [Crash; 4] = [Crash::Old, Crash::New, Crash::Fill(0), Crash::Fill(1)];

// Whether a redo that is stopped after so many calls ends, and what a crash then leaves.
fn stopped(
    alloc: Global,
    machine: MemMachine,
    limit: usize,
    calls: u64,
    how: Crash,
) -> Result<(bool, MemMachine), Fail> {
    let it = run_redo(alloc, machine, limit, calls)?;
    let ends = it.ends;
    Ok((ends, it.into_machine().crash(how)))
}

// Whether a redo ends, and gives these values.
fn gives(alloc: Global, machine: MemMachine, limit: usize, values: &[&[u8]]) -> Result<bool, Fail> {
    let mut it = run_redo(alloc, machine, limit, ALL)?;
    let given = it.ends & hold(&mut it.store, &mut it.machine, values);
    drop(it);
    Ok(given)
}

// Whether the first of three redos of a log ends, of which two are stopped after so many calls, and the last gives the values.
fn three(alloc: Global, row: Row, calls: [u64; 2], how: Crash) -> Result<[bool; 2], Fail> {
    let (block, limit, _, values) = row;
    let machine = with_block(alloc, block)?;
    let (ends, machine) = stopped(alloc, machine, limit, calls[0], how)?;
    let (_, machine) = stopped(alloc, machine, limit, calls[1], how)?;
    Ok([ends, gives(alloc, machine, limit, values)?])
}

#[test]
fn a_stopped_redo_is_done_again(rt: HostRuntime) -> Result<(), Fail> {
    for row in ROWS {
        for how in CRASHES {
            for first in 0..=row.2 {
                for second in 0..=row.2 {
                    let found = three(rt.alloc(), row, [first, second], how)?;
                    assert!(rt;
                        found == [first == row.2, true],
                        "{row:?}, after {first} and {second}, {how:?}"
                    );
                }
            }
        }
    }
    Ok(())
}
