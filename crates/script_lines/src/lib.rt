//! The lines of a script and the answers to them, the lines of a dump, a reader of lines, and the script of a demo.
//!
//! The one contract is the grammar of `specs/`, a relation between a line's bytes and what they ask, over one table of the
//! words: a line is parsed exactly where it asks something, which is then one thing, a [`Line`] by how it is answered; the
//! forms that a person is shown are those of the table; an answer is exactly the text of its reply, and no other reply has
//! this text; the reader gives exactly the lines of its source, one after the other; and a
//! demo's script is exactly that of its seed. The crate depends on op_codec, op_meaning and app_program, whose operations are
//! what most lines ask, on oper_core, whose refusals an answer names, on key_entries for the keys of trees and hash files and
//! their values, on page_ops for those of maps, and on the source of disk_model.
#![tactic(auto)]

mod answer;
mod backup_denial;
mod demo;
mod denial;
mod draws;
mod fields;
mod forms;
mod hex;
mod kind;
mod line;
mod line_laws;
mod next;
mod number;
mod parse;
mod read_error;
mod reader;
mod steps;

pub use answer::{Answer, StatLine, Totals, answer_line, answer_text};
pub use backup_denial::BackupDenial;
pub use demo::demo_script;
pub use denial::Denial;
pub use forms::{LineForm, line_forms};
pub use line::{Grouping, Line, Making, MapChange, MapQuestion, Question, Saving, Upkeep};
pub use line_laws::{a_line_asks_one_thing, a_text_says_one_thing, scripts_are_short};
pub use next::Next;
pub use parse::{LineErr, MAX_LINE, parse_line};
pub use read_error::ReadError;
pub use reader::LineReader;
