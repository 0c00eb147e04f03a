//! The program `redo_log`: it prints the log of the store in the current folder as text, one line for the header, each block, each
//! record and the end, or for the records alone that its words ask for, or how many of these there are of each kind. No file is
//! written.
//!
//! The contracts are those of `list_store`: no call of it changes a file, and what it says is exactly the lines of the records
//! that the log holds and the words ask for, in their order, or that there is no store, or, after the lines of the records before it,
//! where the files break their format; where the disk, the output or memory fails it has said a front of that; of `tally_store`, the
//! same of the numbers of those records; and of `read_words`, which answers what the words ask by clap's own account, and refuses them
//! exactly where they ask nothing. One record is in memory at a time. It depends on clap, which reads the words, on command_words for
//! why they are refused, on tool_output, which says text and the last line, on stable_objects for the bounds of the store, on
//! log_blocks, whose reader gives the payloads, on log_records, which decodes the records and checks them, on op_codec and the families
//! of operations, whose words these are, on the hexadecimal of script_lines, and on formats, oper_core and the machine of disk_model.
#![tactic(auto)]

mod asked;
mod choice;
mod command;
mod counting;
mod finding;
mod kinds;
mod left;
mod lines;
mod listing;
mod options;
mod saying;
mod stats;
mod tally;
mod words;

use asked::Asked;
use command_words::Unread;
use disk_model::Machine;
use listing::list_store;
use options::read_words;
use stats::tally_store;
use std::alloc::Global;
use std::process::ExitCode;
use tool_output::{Status, Tool, run_glance, run_tool, words};

/// The tool that lists a log.
#[derive(Drop)]
struct List {
    asked: Asked,
}

impl Tool for List {
    fn name() -> &'static str {
        "redo_log"
    }

    fn look<M: Machine>(&self, alloc: Global, machine: &mut M) -> Status {
        if self.asked.stats {
            tally_store(alloc, machine, self.asked.choice)
        } else {
            list_store(alloc, machine, self.asked.choice)
        }
    }
}

/// Says why the words are refused, or how the program is used where help is asked.
fn refuse(rt: HostRuntime, error: &clap::Error) -> ExitCode {
    let _told = error.print(&rt);
    ExitCode::from(error.exit_code() as u8)
}

/// Status 0; 2 where the words are refused; [`run_tool`] and [`run_glance`] have the others.
fn main(rt: HostRuntime) -> ExitCode {
    let Ok(words) = words(&rt) else {
        return ExitCode::from(Status::Memory.number());
    };
    match read_words(rt.alloc(), &words) {
        Ok(asked) if asked.glance => run_glance(rt, &List { asked }),
        Ok(asked) => run_tool(rt, &List { asked }),
        Err(Unread::Refused(error)) => refuse(rt, &error),
        Err(Unread::Memory) => ExitCode::from(Status::Memory.number()),
    }
}
