// A script in a run that tends its store, and in one that does not.
use crate::running::run;
use disk_model::GrowMem;
use redo_shell::Status;
use std::alloc::{AllocError, Global};
use std::test::Fail;

const LINES: &[u8] =
    b"put 0 00010203\nswap 0 1\nput 2 aabb\nget 1\nbegin\nput 3 cc\ncopy 2 4\nend\nget 4\n";

// These lines, one after the other, so many times.
fn lines(alloc: Global, times: u32) -> Result<Vec<u8>, AllocError> {
    let mut script = Vec::new(alloc);
    for _ in 0..times {
        script.extend_from_slice(LINES)?;
    }
    Ok(script)
}

// So many puts to the objects from 0 on, and from the last one on to that.
fn puts(alloc: Global, count: u32, last: u32) -> Result<Vec<u8>, AllocError> {
    let mut script = Vec::new(alloc);
    for n in 0..count {
        let number = n.min(last).to_string(alloc)?;
        script.extend_from_slice(b"put ")?;
        script.extend_from_slice(number.as_str().as_bytes())?;
        script.extend_from_slice(b" 0001020304050607\n")?;
    }
    Ok(script)
}

// The status of the words with a script, on a new store that these words make, and what is said.
fn answers(
    alloc: Global,
    init: &str,
    words: &str,
    script: &[u8],
) -> Result<(Status, GrowMem), AllocError> {
    let mut machine = GrowMem::new(alloc)?;
    run(alloc, &mut machine, init, b"");
    let status = run(alloc, &mut machine, words, script);
    Ok((status, machine))
}

// Whether both runs say the same, where the log has room for all of the script.
fn says_the_same(alloc: Global, init: &str) -> Result<bool, AllocError> {
    let script = lines(alloc, 400)?;
    let (first, by_hand) = answers(alloc, init, "redo run", script.as_slice())?;
    let (second, by_line) = answers(alloc, init, "redo run --tend", script.as_slice())?;
    let same = by_hand.said() == by_line.said();
    Ok(same & (first == Status::Done) & (second == Status::Done))
}

#[test]
fn a_tended_run_says_the_same(rt: HostRuntime) -> Result<(), Fail> {
    assert!(rt; says_the_same(rt.alloc(), "redo init 8 64 90000")?);
    Ok(())
}

// Whether a run is answered `full` where nobody trims, and not where the store is tended.
fn is_never_full(alloc: Global, init: &str, last: u32) -> Result<bool, AllocError> {
    let script = puts(alloc, 400, last)?;
    let (first, _) = answers(alloc, init, "redo run", script.as_slice())?;
    let (second, _) = answers(alloc, init, "redo run --tend", script.as_slice())?;
    Ok((first == Status::DoneWithRefusals) & (second == Status::Done))
}

#[test]
fn a_tended_log_is_never_full(rt: HostRuntime) -> Result<(), Fail> {
    for last in [399, 7, 0] {
        assert!(rt; is_never_full(rt.alloc(), "redo init 400 64 8192", last)?);
    }
    Ok(())
}
