// The program in a folder in memory.
use disk_model::{Crash, Failed, GrowMem, Machine, MemMachine, MemSource, Source};
use redo_shell::{Budget, Notes, Status, top};
use std::alloc::{AllocError, Global};

pub const INIT: &str = "redo init 8 64 65536";

pub fn empty_folder(alloc: Global) -> Result<MemMachine, AllocError> {
    MemMachine::new(alloc, [32896, 65536, 65536], 1000, 65536, Vec::new(alloc))
}

/// Gives bytes in pieces of so many.
#[derive(Drop)]
pub struct Pieces<'a> {
    pub left: &'a [u8],
    pub size: usize,
}

impl Source for Pieces<'_> {
    ghost use Rattle.std.specs.Prelude.{⊤};

    ghost tells = { λ _. ⊤ };

    ghost left = { λ s. s.left.now };

    ghost faults = { λ _. 0 };

    fn read(&mut self, into: &mut [u8]) -> Result<usize, Failed> {
        let count = self.size.max(1).min(into.len()).min(self.left.len());
        let (front, rest) = self.left.split_at(count);
        into[..count].copy_from_slice(front);
        self.left = rest;
        Ok(count)
    }
}

// The words of a line.
fn words(alloc: Global, line: &str) -> Result<Vec<String>, AllocError> {
    let mut words = Vec::new(alloc);
    for word in line.split(' ') {
        words.push(word.to_string(alloc)?)?;
    }
    Ok(words)
}

// The words of a line, and this input.
fn given(alloc: Global, line: &str, input: &[u8]) -> Result<(Vec<String>, MemSource), AllocError> {
    let words = words(alloc, line)?;
    let source = MemSource::new(input.to_vec(alloc)?, Vec::new(alloc))?;
    Ok((words, source))
}

// The program with this budget, these words, this input, and a machine for a backup. Out of memory for them is reported as its
// own.
pub fn run_within<M: Machine, T: Machine>(
    alloc: Global,
    budget: Budget,
    machine: &mut M,
    backup: &mut T,
    line: &str,
    input: &[u8],
) -> Status {
    match given(alloc, line, input) {
        Ok((words, mut source)) => {
            let mut notes = Notes::new();
            top(
                alloc,
                budget,
                words.as_slice(),
                machine,
                backup,
                &mut source,
                &mut notes,
            )
        }
        Err(_) => Status::Memory,
    }
}

// The same with the usual budget.
pub fn run_beside<M: Machine, T: Machine>(
    alloc: Global,
    machine: &mut M,
    backup: &mut T,
    line: &str,
    input: &[u8],
) -> Status {
    run_within(alloc, Budget::Usual, machine, backup, line, input)
}

// The same with an empty folder for the backup.
pub fn run<M: Machine>(alloc: Global, machine: &mut M, line: &str, input: &[u8]) -> Status {
    match GrowMem::new(alloc) {
        Ok(mut backup) => run_beside(alloc, machine, &mut backup, line, input),
        Err(_) => Status::Memory,
    }
}

// The same with an input that comes in pieces of so many bytes.
pub fn run_in_pieces<M: Machine>(
    alloc: Global,
    machine: &mut M,
    line: &str,
    input: &[u8],
    size: usize,
) -> Status {
    let (Ok(words), Ok(mut backup)) = (words(alloc, line), GrowMem::new(alloc)) else {
        return Status::Memory;
    };
    let mut source = Pieces { left: input, size };
    let mut notes = Notes::new();
    top(
        alloc,
        Budget::Usual,
        words.as_slice(),
        machine,
        &mut backup,
        &mut source,
        &mut notes,
    )
}

// A folder with a store of 8 objects. Nothing is printed yet, and all is synced.
pub fn new_store(alloc: Global) -> Result<MemMachine, AllocError> {
    let mut machine = empty_folder(alloc)?;
    run(alloc, &mut machine, INIT, b"");
    Ok(machine.crash(Crash::Old))
}
