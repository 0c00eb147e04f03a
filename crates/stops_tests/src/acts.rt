// What a process does with the files of a machine, and one that is stopped.
use crate::installs::open;
use crate::running::run;
use crate::trees::grow;
use disk_model::{Fuse, Machine, MemMachine};
use redo_shell::Status;
use std::alloc::Global;

/// What a process does.
#[derive(Clone, Copy)]
pub enum Act {
    /// It is the program, with these words and this input.
    Program(&'static str, &'static [u8]),
    /// It opens the files by a restart that installs while more objects than this are dirty.
    Restart(usize),
    /// It opens the files, makes two puts and a swap, and installs three times, by calls of the crates, and says each install.
    Installs,
    /// It opens the files, and makes a tree whose root is split, by calls of the engine, and says that it is forced.
    Grows,
}

fn ended(answer: Result<(), Status>) -> Status {
    match answer {
        Ok(()) => Status::Done,
        Err(status) => status,
    }
}

// The status at the end, and how many reads of the input failed.
pub fn does<M: Machine>(alloc: Global, machine: &mut M, act: Act) -> (Status, u64) {
    match act {
        Act::Program(words, input) => run(alloc, machine, words, input),
        Act::Restart(dirty) => (ended(open(alloc, machine, dirty, false)), 0),
        Act::Installs => (ended(open(alloc, machine, 64, true)), 0),
        Act::Grows => (ended(grow(alloc, machine)), 0),
    }
}

// The machine after a process that was stopped after so many calls.
pub fn stopped(alloc: Global, machine: MemMachine, calls: u64, act: Act) -> MemMachine {
    let mut fuse = Fuse::new(machine, calls);
    does(alloc, &mut fuse, act);
    fuse.into_inner()
}

// How many calls a process takes.
pub fn calls_of(alloc: Global, machine: &mut MemMachine, act: Act) -> u64 {
    let before = machine.calls();
    does(alloc, machine, act);
    machine.calls().saturating_sub(before)
}
