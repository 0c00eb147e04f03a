// A glance: a tool looks at the store in the current folder though another program may be using it.
use crate::glance_machine::GlanceMachine;
use crate::program::Tool;
use crate::status::Status;
use disk_model::{Failed, FileNo, Machine};
use formats::LOG_HEADER;
use std::io::{self, Write};
use std::process::ExitCode;

/// The headers of the two logs, by which it is told whether another one has come into force.
fn headers<M: Machine>(machine: &mut M) -> Result<([u8; LOG_HEADER], [u8; LOG_HEADER]), Failed> {
    let mut first = [0; LOG_HEADER];
    let mut second = [0; LOG_HEADER];
    machine.read(FileNo::LogA, 0, &mut first)?;
    machine.read(FileNo::LogB, 0, &mut second)?;
    Ok((first, second))
}

/// Looks once. Whether the logs' headers were the same before and after it.
fn look_once<T: Tool>(
    rt: HostRuntime,
    tool: &T,
    machine: &mut GlanceMachine<HostRuntime>,
) -> (Status, bool) {
    let before = headers(machine);
    let status = tool.look(rt.alloc(), machine);
    (status, before == headers(machine))
}

/// Prints what was said.
fn print_said(rt: HostRuntime, text: &[u8], status: Status) -> Status {
    let mut output = io::writer(&rt);
    match output.write_all(text).and_then(|()| output.flush()) {
        Ok(()) => status,
        Err(_) => Status::SayFault,
    }
}

/// Looks at the store up to three times, until all is said of a store whose log in force stays the same meanwhile, prints what was said
/// last, and ends with its status; 72 where a file cannot be opened, and 75 where another log came into force each time.
pub fn run_glance<T: Tool>(rt: HostRuntime, tool: &T) -> ExitCode {
    let name = T::name();
    let _told = eprintln!(rt;
        "{name}: a glance, without the lock: another program may be using the store meanwhile"
    );
    for turn in 0..3 {
        let Ok(mut machine) = GlanceMachine::new(&rt, rt.alloc()) else {
            return ExitCode::from(72);
        };
        let (status, same) = look_once(rt, tool, &mut machine);
        if turn == 2 || (same && status == Status::Done) {
            let status = print_said(rt, machine.said(), status);
            return ExitCode::from(if same { status.number() } else { 75 });
        }
    }
    ExitCode::from(75)
}
