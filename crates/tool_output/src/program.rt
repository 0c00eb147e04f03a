// A tool as a program: it looks at the store in the current folder while no other program uses it.
use crate::status::Status;
use disk_model::{FileMachine, Machine};
use std::alloc::{AllocError, Global};
use std::env;
use std::fs::{File, TryLockError};
use std::io::ErrorKind;
use std::process::ExitCode;
use std::rt::Env;

/// The words of the command line; none where one of them is no text.
pub fn words<R: Env + AllocGlobal>(rt: &R) -> Result<Vec<String>, AllocError> {
    match env::args(rt) {
        Ok(args) => args.collect(rt.alloc()),
        Err(error) if error.kind() == ErrorKind::OutOfMemory => Err(AllocError),
        Err(_) => Ok(Vec::new(rt.alloc())),
    }
}

/// A tool that looks at a store.
pub trait Tool {
    /// The name of its program.
    fn name() -> &'static str;

    /// Looks at the files of the machine, and says what it finds.
    fn look<M: Machine>(&self, alloc: Global, machine: &mut M) -> Status;
}

/// Says on standard error which call on a file failed, and the system's reason.
fn tell_fault<T: Tool>(rt: HostRuntime, machine: &FileMachine<HostRuntime>) {
    if let Some(fault) = machine.fault() {
        let name = T::name();
        let call = fault.call;
        let path = machine.path(fault.file);
        let reason = &fault.reason;
        let _told = eprintln!(rt; "{name}: cannot {call} {path}: {reason}");
    }
}

/// Looks at the store while no other program uses it.
fn run_locked<T: Tool>(rt: HostRuntime, tool: &T) -> ExitCode {
    let Ok(folder) = File::open(&rt, ".") else {
        return ExitCode::from(72);
    };
    match folder.try_lock() {
        Ok(()) => {
            let mut machine = FileMachine::new(rt);
            let status = tool.look(rt.alloc(), &mut machine);
            tell_fault::<T>(rt, &machine);
            ExitCode::from(status.number())
        }
        Err(TryLockError::WouldBlock) => {
            let name = T::name();
            let _told = eprintln!(rt; "{name}: another program uses the store in this folder");
            ExitCode::from(71)
        }
        Err(TryLockError::Error(_)) => ExitCode::from(72),
    }
}

/// Runs the tool, and ends with the number of its status: 0; 3 where there is no store, 4 where it is damaged, 5 where the disk
/// fails, 7 where the output does, 8 without memory; 71 where another program uses the store, and 72 where the folder cannot be
/// locked.
pub fn run_tool<T: Tool>(rt: HostRuntime, tool: &T) -> ExitCode {
    // The first file that is opened takes the number of a standard stream that is closed. These take it before a file of
    // the store does. Where they cannot be opened nothing is done.
    let (Ok(_first), Ok(_second), Ok(_third)) = (
        File::open(&rt, "/dev/null"),
        File::open(&rt, "/dev/null"),
        File::open(&rt, "/dev/null"),
    ) else {
        return ExitCode::from(Status::DiskFault.number());
    };
    run_locked(rt, tool)
}
