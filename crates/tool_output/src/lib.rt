//! What the tools that look at a store have in common, `redo_log` and `redo_check`: they say text and write no file, they stop for
//! the same causes, they end with the same last lines and statuses, and as programs they lock the folder ([`run_tool`]), or look at
//! it without a lock and without the right to write ([`run_glance`]).
//!
//! The contracts are those of `say_text`, of which no more than a front is said; of `end_with`, `end_damaged` and `end_stopped`,
//! which say the last line; what the files are where a tool goes on, and where it stops (specs/Found.antt, FoundLaws.antt); and the
//! laws on faults that were counted (FaultLaws.antt) and on fronts (FrontLaws.antt). It depends on stable_objects and formats, whose
//! errors a `Stop` is made of, on log_blocks, log_records and op_codec for what a fault of a log is, on script_lines for the words of
//! a number, and on oper_core and the machine of disk_model.
#![tactic(auto)]

mod ending;
mod glance;
mod glance_machine;
mod program;
mod saying;
mod status;
mod stop;
mod text;

pub use ending::{end_damaged, end_stopped, end_with};
pub use glance::run_glance;
pub use program::{Tool, run_tool, words};
pub use saying::say_text;
pub use status::Status;
pub use stop::Stop;
pub use text::{damage_line, file_name, push_number, push_spaced};
