// A machine with a queue: that its calls succeed, and that what is taken from it is what was done, in order.
use disk_model::{FileNo, Machine};
use std::alloc::{AllocError, Global};
use std::test::Fail;
use write_queue::{QueueMem, Queued};

// A call as plain data: which kind it is, which file, at which offset, with how many bytes and which first one.
fn numbers(call: &Queued) -> [u64; 5] {
    match call {
        Queued::Write { file, at, bytes } => [
            0,
            file_number(*file),
            *at,
            bytes.len() as u64,
            first(bytes),
        ],
        Queued::Sync { file } => [1, file_number(*file), 0, 0, 0],
        Queued::Say { bytes } => [2, 0, 0, bytes.len() as u64, first(bytes)],
    }
}

fn file_number(file: FileNo) -> u64 {
    match file {
        FileNo::Objects => 0,
        FileNo::LogA => 1,
        FileNo::LogB => 2,
    }
}

fn first(bytes: &[u8]) -> u64 {
    match bytes.first() {
        Some(byte) => u64::from(*byte),
        None => 0,
    }
}

// A write past the end, a sync and a call that says something, each of which succeeds.
fn three_calls(machine: &mut QueueMem) -> bool {
    let written = machine.write_at(FileNo::LogA, 3, &[7, 8]).is_ok();
    let synced = machine.sync(FileNo::LogA).is_ok();
    let said = machine.say(b"c").is_ok();
    written & synced & said
}

const THREE: [[u64; 5]; 3] = [[0, 1, 3, 2, 7], [1, 1, 0, 0, 0], [2, 0, 0, 1, 99]];

// Whether the calls that are taken are these three.
fn are_three(calls: &[Queued]) -> bool {
    let mut same = calls.len() == THREE.len();
    for (call, wanted) in calls.iter().zip(&THREE) {
        same &= numbers(call) == *wanted;
    }
    same
}

fn takes_what_was_done(alloc: Global) -> Result<bool, AllocError> {
    let mut machine = QueueMem::new(alloc, &[1], &[2], &[])?;
    let done = three_calls(&mut machine);
    let taken = are_three(&machine.take());
    let empty = machine.take().is_empty();
    let reads = machine.bytes(FileNo::LogA) == [2, 0, 0, 7, 8].as_slice();
    Ok(done & taken & empty & reads)
}

#[test]
fn queue(rt: HostRuntime) -> Result<(), Fail> {
    assert!(rt; takes_what_was_done(rt.alloc())?);
    Ok(())
}
