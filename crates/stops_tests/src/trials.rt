// What is tried at each call of a script.
use crate::acts::{Act, calls_of};
use crate::faults::{is_refused, is_whole};
use crate::running::copied;
use crate::scripts::{Script, new_store};
use crate::stops::{keeps_after_other, keeps_once, keeps_twice};
use disk_model::MemMachine;
use std::alloc::{AllocError, Global};

/// What is tried.
#[derive(Clone, Copy)]
pub enum Trial {
    /// The call of this number fails, and no other; 0 is none.
    Fault,
    /// The script is stopped after so many calls.
    Stop,
    /// It is stopped so, and a dump after it at each of its calls.
    Dump,
    /// It is stopped so, and this after it at each of its calls.
    Other(Act),
}

// How many calls a process takes on a copy of a store.
pub fn calls_on(
    alloc: Global,
    script: &Script,
    store: &MemMachine,
    act: Act,
) -> Result<u64, AllocError> {
    let mut machine = copied(alloc, script.room, store, 0)?;
    Ok(calls_of(alloc, &mut machine, act))
}

fn keeps(
    alloc: Global,
    script: &Script,
    store: &MemMachine,
    trial: Trial,
    calls: u64,
) -> Result<bool, AllocError> {
    match trial {
        Trial::Fault if calls == 0 => is_whole(alloc, script, store),
        Trial::Fault => is_refused(alloc, script, store, calls),
        Trial::Stop => keeps_once(alloc, script, store, calls),
        Trial::Dump => keeps_twice(alloc, script, store, calls),
        Trial::Other(act) => keeps_after_other(alloc, script, store, calls, act),
    }
}

fn lost_on(
    alloc: Global,
    script: &Script,
    store: &MemMachine,
    trial: Trial,
) -> Result<Option<u64>, AllocError> {
    let calls = calls_on(alloc, script, store, script.act)?;
    for call in 0..=calls {
        if !keeps(alloc, script, store, trial, call)? {
            return Ok(Some(call));
        }
    }
    Ok(None)
}

// The first number of calls at which a trial of a script fails.
pub fn lost(alloc: Global, script: &Script, trial: Trial) -> Result<Option<u64>, AllocError> {
    let store = new_store(alloc, script)?;
    lost_on(alloc, script, &store, trial)
}
