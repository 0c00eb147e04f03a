// What a restart keeps in memory: the least installs as it goes, and the answers are the same.
use crate::running::{run, run_within};
use disk_model::{Crash, GrowMem, MemMachine};
use redo_shell::Budget;
use std::alloc::{AllocError, Global};
use std::test::Fail;

// The files' lengths at most: 160 slots of 16,397 bytes, and two logs.
const SIZES: [u64; 3] = [2_700_000, 65536, 65536];

// A call, its input, and what it says.
type Said<'a> = (&'static str, &'static [u8], &'a [u8]);

// What `stat` says after a restart with a budget. Of values of 16,384 bytes the least keeps 64 dirty ones: it installs 64 together
// as 65 are dirty.
const STATS: [(Budget, &[u8]); 2] = [
    (Budget::Usual, b"stat 66 66 66 66 66 2120 0\n"),
    (Budget::Least, b"stat 2 2 2 66 66 1352 0\n"),
];

// An object's number, of two digits, and its value.
fn push_value(text: &mut Vec<u8>, object: u8) -> Result<(), AllocError> {
    text.push(b'0' + object / 10)?;
    text.push(b'0' + object % 10)?;
    text.extend_from_slice(b" aa\n")
}

// Puts to 66 objects, and a force.
fn puts(alloc: Global) -> Result<Vec<u8>, AllocError> {
    let mut script = Vec::new(alloc);
    for object in 10..76u8 {
        script.extend_from_slice(b"put ")?;
        push_value(&mut script, object)?;
    }
    script.extend_from_slice(b"force\n")?;
    Ok(script)
}

// What a dump says then.
fn dump(alloc: Global) -> Result<Vec<u8>, AllocError> {
    let mut dump = Vec::new(alloc);
    for object in 10..76u8 {
        push_value(&mut dump, object)?;
    }
    dump.extend_from_slice(b"commands 66\n")?;
    Ok(dump)
}

// Whether a call with this budget says that on the store that the puts have left.
fn says(alloc: Global, budget: Budget, puts: &[u8], call: Said<'_>) -> Result<bool, AllocError> {
    let (line, input, said) = call;
    let mut machine = MemMachine::new(alloc, SIZES, 1000, 65536, Vec::new(alloc))?;
    run(alloc, &mut machine, "redo init 80 16384 65536", b"");
    run(alloc, &mut machine, "redo run", puts);
    let mut machine = machine.crash(Crash::Old);
    let mut backup = GrowMem::new(alloc)?;
    run_within(alloc, budget, &mut machine, &mut backup, line, input);
    Ok(machine.said() == said)
}

#[test]
fn the_least_restart_installs_and_says_the_same(rt: HostRuntime) -> Result<(), Fail> {
    let alloc = rt.alloc();
    let puts = puts(alloc)?;
    let dump = dump(alloc)?;
    for (budget, stat) in STATS {
        for call in [
            ("redo dump", b"".as_slice(), dump.as_slice()),
            ("redo run", b"stat\n".as_slice(), stat),
        ] {
            assert!(rt; says(alloc, budget, puts.as_slice(), call)?);
        }
    }
    Ok(())
}
