//! The program `redo`: it gives the words of the command line, the files of the store's folder, those of a backup beside them,
//! and standard input and output to `redo_shell::top`, and ends with the number of the status. The folder is the current one,
//! or that of `-C`, and it is locked meanwhile. Standard error says why words are refused, which line of a script was the first
//! that was bad, and, where the status is one of trouble, which call on which file failed, what happened, and what to do next.
#![tactic(auto)]

mod advice;
mod bad_line;
mod fault;
mod folder;
mod unstarted;

use advice::advice;
use bad_line::tell_bad_line;
use command_words::{Asked, Unread, read_words};
use disk_model::{FileMachine, StdSource};
use fault::tell_fault;
use folder::{enter, lacks_folder, lock};
use redo_shell::{Budget, Notes, Status, top};
use std::alloc::AllocError;
use std::env;
use std::fs::File;
use std::io::ErrorKind;
use std::process::ExitCode;
use std::rt::Env;
use unstarted::Unstarted;

// The words of the command line; none where one of them is no text.
fn words<R: Env + AllocGlobal>(rt: &R) -> Result<Vec<String>, AllocError> {
    match env::args(rt) {
        Ok(args) => args.collect(rt.alloc()),
        Err(error) if error.kind() == ErrorKind::OutOfMemory => Err(AllocError),
        Err(_) => Ok(Vec::new(rt.alloc())),
    }
}

// Does what the words ask, with the files of the current folder. Where the restart is refused memory, the call is made again with
// as little as a restart takes: the two are as one (`redo_shell::a_second_start_goes_on`).
fn run(rt: HostRuntime, words: &[String]) -> Status {
    let mut input = StdSource::new(&rt);
    let mut machine = FileMachine::new(rt);
    let mut backup = FileMachine::backup(rt);
    let mut notes = Notes::new();
    let mut status = top(
        rt.alloc(),
        Budget::Usual,
        words,
        &mut machine,
        &mut backup,
        &mut input,
        &mut notes,
    );
    if status == Status::RestartMemory {
        status = top(
            rt.alloc(),
            Budget::Least,
            words,
            &mut machine,
            &mut backup,
            &mut input,
            &mut notes,
        );
    }
    tell_bad_line(rt, &notes);
    tell_fault(rt, status, &machine, &backup);
    status
}

// The same with the lock of the folder.
fn run_locked(rt: HostRuntime, words: &[String], asked: Asked) -> Result<Status, Unstarted> {
    let _lock = lock(rt, asked)?;
    Ok(run(rt, words))
}

// The same for words that are refused, and says why. Where that can't be written, nothing is left to do.
fn run_refused(rt: HostRuntime, words: &[String], unread: &Unread) -> Status {
    let status = run(rt, words);
    if status == Status::Usage {
        let _told = if lacks_folder(words) {
            eprintln!(rt; "error: a folder has to follow -C\n\nUsage: redo -C DIR <COMMAND>")
        } else {
            eprint!(rt; "{unread}")
        };
    }
    status
}

// Does what the words ask, in the folder that they name.
fn serve(rt: HostRuntime, words: &mut Vec<String>) -> Result<Status, Unstarted> {
    enter(rt, words)?;
    match read_words(rt.alloc(), words) {
        Ok(asked) => run_locked(rt, words, asked),
        Err(Unread::Memory) => Ok(Status::Memory),
        Err(unread) => Ok(run_refused(rt, words, &unread)),
    }
}

fn main(rt: HostRuntime) -> ExitCode {
    // The first file that is opened takes the number of a standard stream that is closed. These take it before a file of
    // the store does: nothing is read from them, and no answer can be written. Where they cannot be opened nothing is done.
    let (Ok(_first), Ok(_second), Ok(_third)) = (
        File::open(&rt, "/dev/null"),
        File::open(&rt, "/dev/null"),
        File::open(&rt, "/dev/null"),
    ) else {
        return ExitCode::from(Status::DiskFault.number());
    };
    let Ok(mut words) = words(&rt) else {
        return ExitCode::from(Status::Memory.number());
    };
    match serve(rt, &mut words) {
        Ok(status) => {
            if let Some(text) = advice(status) {
                let _told = eprintln!(rt; "redo: {text}");
            }
            ExitCode::from(status.number())
        }
        Err(unstarted) => {
            let _told = eprintln!(rt; "redo: {unstarted}");
            ExitCode::from(unstarted.number())
        }
    }
}
