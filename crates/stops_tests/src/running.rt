// The program on machines in memory, and what is left after a process.
use disk_model::{Crash, FileNo, GrowMem, Machine, MemMachine, MemSource};
use redo_shell::{Budget, Notes, Status, top};
use std::alloc::{AllocError, Global};

/// How much room a machine has.
#[derive(Clone, Copy)]
pub struct Room {
    /// The greatest sizes of the objects file and the two logs.
    pub sizes: [u64; 3],
    /// How many calls.
    pub calls: u64,
    /// How many bytes the calls write and say at most.
    pub bytes: u64,
}

impl Room {
    // A machine with empty files, whose call of this number fails; 0 is none.
    pub fn machine(&self, alloc: Global, failing: u64) -> Result<MemMachine, AllocError> {
        let fails = vec![in alloc; failing; 1]?;
        MemMachine::new(alloc, self.sizes, self.calls, self.bytes, fails)
    }
}

const FILES: [FileNo; 3] = [FileNo::Objects, FileNo::LogA, FileNo::LogB];

// The calls that a copy takes: a write and a sync of each file.
pub const COPYING: u64 = 6;

// A settled machine with the files of another, whose next call of this number fails; 0 is none. Nothing is said yet.
pub fn copied(
    alloc: Global,
    room: Room,
    from: &MemMachine,
    failing: u64,
) -> Result<MemMachine, AllocError> {
    let call = match failing {
        0 => 0,
        _ => failing.saturating_add(COPYING),
    };
    let mut machine = room.machine(alloc, call)?;
    for file in FILES {
        let written = machine.write_at(file, 0, from.bytes(file));
        let _ = machine.sync(file).and(written);
    }
    Ok(machine)
}

// One of five kinds of crash, by a number.
pub fn crash_by(number: u64) -> Crash {
    match number % 5 {
        0 => Crash::Old,
        1 => Crash::New,
        2 => Crash::Fill(0),
        3 => Crash::Fill(1),
        _ => Crash::Fill(255),
    }
}

// The same, or none: a process that was killed alone loses nothing.
pub fn end_by(number: u64) -> Option<Crash> {
    match number % 6 {
        5 => None,
        kind => Some(crash_by(kind)),
    }
}

// What a crash leaves.
pub fn crashed(machine: MemMachine, how: Crash) -> MemMachine {
    machine.crash(how)
}

// What is left after a process.
pub fn after(machine: MemMachine, how: Option<Crash>) -> MemMachine {
    match how {
        Some(how) => crashed(machine, how),
        None => machine,
    }
}

// The words of a line.
fn words(alloc: Global, line: &str) -> Result<Vec<String>, AllocError> {
    let mut words = Vec::new(alloc);
    for word in line.split(' ') {
        words.push(word.to_string(alloc)?)?;
    }
    Ok(words)
}

// The words of a line, and this input, of which this read fails; 0 is none.
fn given(
    alloc: Global,
    line: &str,
    input: &[u8],
    read: u64,
) -> Result<(Vec<String>, MemSource), AllocError> {
    let words = words(alloc, line)?;
    let fails = vec![in alloc; read; 1]?;
    let source = MemSource::new(input.to_vec(alloc)?, fails)?;
    Ok((words, source))
}

// The program with these words, a machine for a backup, and this input, of which this read fails: its status, and how many
// reads failed. Out of memory for them is reported as its own.
fn run_all<M: Machine, T: Machine>(
    alloc: Global,
    machine: &mut M,
    backup: &mut T,
    line: &str,
    input: &[u8],
    read: u64,
) -> (Status, u64) {
    match given(alloc, line, input, read) {
        Ok((words, mut source)) => {
            let mut notes = Notes::new();
            let status = top(
                alloc,
                Budget::Usual,
                words.as_slice(),
                machine,
                backup,
                &mut source,
                &mut notes,
            );
            (status, source.read_faults())
        }
        Err(_) => (Status::Memory, 0),
    }
}

// The same with an empty folder for the backup.
pub fn run_failing<M: Machine>(
    alloc: Global,
    machine: &mut M,
    line: &str,
    input: &[u8],
    read: u64,
) -> (Status, u64) {
    match GrowMem::new(alloc) {
        Ok(mut backup) => run_all(alloc, machine, &mut backup, line, input, read),
        Err(_) => (Status::Memory, 0),
    }
}

// The same with a machine for the backup, where no read fails: its status.
pub fn run_beside<M: Machine, T: Machine>(
    alloc: Global,
    machine: &mut M,
    backup: &mut T,
    line: &str,
    input: &[u8],
) -> Status {
    run_all(alloc, machine, backup, line, input, 0).0
}

// The program with these words and this input: its status, and how many reads of the input failed.
pub fn run<M: Machine>(alloc: Global, machine: &mut M, line: &str, input: &[u8]) -> (Status, u64) {
    run_failing(alloc, machine, line, input, 0)
}
