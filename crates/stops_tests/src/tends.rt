// A run that tends its store is stopped, within upkeep too.
use crate::acts::{Act, calls_of, stopped};
use crate::running::{Room, after, copied, crashed, end_by, run};
use disk_model::{Crash, MemMachine};
use std::alloc::{AllocError, Global};
use std::test::Fail;

const ROOM: Room = Room {
    sizes: [1264, 4096, 4096],
    calls: 400,
    bytes: 16384,
};

// The store has the smallest LIMIT, and more than a third of that is filled by so many puts, which are installed; one more is not.
const INIT: &str = "redo init 8 64 4224";

const PUTS: u32 = 72;

// So a turn is due before the first line, and a trim before the second.
const TENDED: Act = Act::Program("redo run --tend", b"get 0\nput 1 bb\nforce\n");

const SAID: &[u8] = b"aa\nok\nforced 74\n";

// What a dump says without the put, and with it.
const DUMPS: [&[u8]; 2] = [
    b"0 aa\n2 cc\ncommands 73\n",
    b"0 aa\n1 bb\n2 cc\ncommands 74\n",
];

// A settled machine with the store. Nothing is said yet.
fn store(alloc: Global) -> Result<MemMachine, AllocError> {
    let mut machine = ROOM.machine(alloc, 0)?;
    run(alloc, &mut machine, INIT, b"");
    let mut script = Vec::new(alloc);
    for _ in 0..PUTS {
        script.extend_from_slice(b"put 0 aa\n")?;
    }
    script.extend_from_slice(b"drain\nput 2 cc\n")?;
    run(alloc, &mut machine, "redo run", script.as_slice());
    Ok(crashed(machine, Crash::Old))
}

// Whether what was said is a beginning of the answers, and a dump finds the put where it was forced, and nothing else otherwise.
fn keeps(alloc: Global, mut left: MemMachine) -> bool {
    let begun = SAID.starts_with(left.said());
    let whole = left.said() == SAID;
    let before = left.said().len();
    run(alloc, &mut left, "redo dump", b"");
    let dump = left.said().get(before..).unwrap_or(b"");
    begun & ((dump == DUMPS[1]) | !whole & (dump == DUMPS[0]))
}

// After how many calls a stop of the run loses something, if one does.
fn lost(alloc: Global) -> Result<Option<u64>, AllocError> {
    let store = store(alloc)?;
    let calls = calls_of(alloc, &mut copied(alloc, ROOM, &store, 0)?, TENDED);
    for call in 0..=calls {
        for end in 0..6u64 {
            let machine = copied(alloc, ROOM, &store, 0)?;
            let once = stopped(alloc, machine, call, TENDED);
            if !keeps(alloc, after(once, end_by(end))) {
                return Ok(Some(call));
            }
        }
    }
    Ok(None)
}

#[test]
fn a_stopped_tended_run_keeps_what_was_forced(rt: HostRuntime) -> Result<(), Fail> {
    let lost = lost(rt.alloc())?;
    assert!(rt; lost.is_none(), "after {lost:?}");
    Ok(())
}
