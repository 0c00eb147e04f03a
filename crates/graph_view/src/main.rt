//! The program `graph_view`: it reads the lines of a script, and prints the write graph of their commands in the DOT
//! language, by which Graphviz draws it. All commands are taken as accepted, and none as installed.
//!
//! The one contract is that of `draw_script`: the text says exactly the edges that `install_order` defines over the
//! commands' entries, each with its kind, and all nodes with their numbers and flush sets; and why there is none: the first line
//! that is refused, an input that is too long, or a fault of the input that was counted. It depends on `write_graph`,
//! which finds the nodes, on `install_order` and `oper_core`, on `op_codec`, which knows what an operation reads and
//! writes, on the grammar and the reader of `script_lines`, and on the standard input of `disk_model`.
#![tactic(auto)]

mod accesses;
mod asked;
mod commands;
mod dot;
mod draw_error;
mod drawing;
mod edges;
mod kind;
mod nodes;
mod worked_graphs;

use disk_model::StdSource;
use draw_error::DrawError;
use drawing::draw_script;
use std::process::ExitCode;

/// Status 0; 1 where a line is refused; 3 where the script could not be read or the graph could not be made or printed.
fn main(rt: HostRuntime) -> ExitCode {
    let mut input = StdSource::new(&rt);
    match draw_script(rt.alloc(), &mut input) {
        Ok(text) => match print!(rt; "{text}") {
            Ok(()) => ExitCode::from(0),
            Err(_) => ExitCode::from(3),
        },
        Err(error) => {
            let _told = eprintln!(rt; "graph_view: {error}");
            match error {
                DrawError::Read(_) => ExitCode::from(3),
                _ => ExitCode::from(1),
            }
        }
    }
}
