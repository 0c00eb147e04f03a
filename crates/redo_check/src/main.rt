//! The program `redo_check`: it prints each check of the store in the current folder with what it found, before any restart is
//! made, and what a restart would read, and the memory that counts tell of it. No file is written.
//!
//! The one contract is that of `check_store`: no call of it changes a file; it says first the lines of the three files, each by
//! itself, and goes on where a check fails; and it ends with what a restart is of files without a fault, or with the first fault
//! in the order of the format, or that there is no store. Where the disk, the output or memory fails it has said a front of that.
//! The lines of the files are a definition, in specs/Files.antt, over their bytes alone. It depends on tool_output, which says text
//! and the last line, on stable_objects, log_blocks, log_records and analysis_pass, whose calls judge the files as a restart does, on
//! dirty_page_table for the last check's table, on op_codec for the operations, on script_lines for the words of a number, on byteorder
//! for the numbers in the bytes, and on formats, oper_core and the machine of disk_model.
#![tactic(auto)]

mod checking;
mod judging;
mod logs;
mod numbers;
mod objects;
mod records;
mod restart;
mod saying;
mod slot;
mod slots;
mod text;

use checking::check_store;
use disk_model::Machine;
use std::alloc::Global;
use std::process::ExitCode;
use tool_output::{Status, Tool, run_glance, run_tool, words};

/// The tool that checks a store.
struct Check;

impl Tool for Check {
    fn name() -> &'static str {
        "redo_check"
    }

    fn look<M: Machine>(&self, alloc: Global, machine: &mut M) -> Status {
        check_store(alloc, machine)
    }
}

/// Whether these are the words of a glance: `--glance` alone behind the program's name; none where they ask nothing.
fn asks_glance(words: &[String]) -> Option<bool> {
    match words {
        [] | [_] => Some(false),
        [_, option] if option.as_str() == "--glance" => Some(true),
        _ => None,
    }
}

/// Status 0 where all holds; 2 where the words are refused; [`run_tool`] and [`run_glance`] have the others.
fn main(rt: HostRuntime) -> ExitCode {
    let Ok(words) = words(&rt) else {
        return ExitCode::from(Status::Memory.number());
    };
    match asks_glance(&words) {
        Some(true) => run_glance(rt, &Check),
        Some(false) => run_tool(rt, &Check),
        None => {
            let _told = eprintln!(rt; "usage: redo_check [--glance]");
            ExitCode::from(2)
        }
    }
}
