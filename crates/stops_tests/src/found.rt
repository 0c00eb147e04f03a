// What the files of a stopped script stand for.
use crate::running::{crashed, run};
use crate::scripts::Script;
use disk_model::{Crash, MemMachine};
use redo_shell::Status;
use std::alloc::Global;

fn lines_of(said: &[u8]) -> usize {
    let mut lines = 0usize;
    for byte in said {
        if *byte == b'\n' {
            lines = lines.saturating_add(1);
        }
    }
    lines
}

// The fewest and the most commands where a script has said this. Between them is none where it never says this.
pub fn within(script: &Script, said: &[u8]) -> (usize, usize) {
    let bounds = script.within.get(lines_of(said));
    match bounds {
        Some(bounds) if script.said.starts_with(said) => *bounds,
        _ => (1, 0),
    }
}

// For how many commands a dump is this text.
fn commands_of(script: &Script, text: &[u8]) -> Option<usize> {
    let mut found = None;
    for (commands, dump) in script.dumps.iter().enumerate() {
        if *dump == text {
            found = Some(commands);
        }
    }
    found
}

// For how many commands a dump says that the files stand, if it succeeds.
fn dumped(alloc: Global, machine: &mut MemMachine, script: &Script) -> Option<usize> {
    let before = machine.said().len();
    let (status, _) = run(alloc, machine, "redo dump", b"");
    if status != Status::Done {
        return None;
    }
    commands_of(script, machine.said().get(before..).unwrap_or(b""))
}

fn is_within(commands: Option<usize>, bounds: (usize, usize)) -> bool {
    match commands {
        Some(commands) => (bounds.0 <= commands) & (commands <= bounds.1),
        None => false,
    }
}

// Whether the files stand for so many commands.
pub fn stands(
    alloc: Global,
    mut machine: MemMachine,
    script: &Script,
    bounds: (usize, usize),
) -> bool {
    is_within(dumped(alloc, &mut machine, script), bounds)
}

// Whether they do, and still stand for as many after a crash.
pub fn stands_still(
    alloc: Global,
    mut machine: MemMachine,
    script: &Script,
    bounds: (usize, usize),
    how: Crash,
) -> bool {
    let commands = dumped(alloc, &mut machine, script);
    let mut next = crashed(machine, how);
    is_within(commands, bounds) & (commands == dumped(alloc, &mut next, script))
}
