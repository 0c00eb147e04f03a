//! A log file of gated blocks. A block counts from the moment that its gate is open on the disk, so a force is whole
//! or absent.
//!
//! The one contract is that of [`LogFile`]: a crash at any moment of a force leaves the payloads from before it, with what
//! waited as one block more or without. A rewrite closes the header gate of the other file, puts a new log behind it by a
//! [`LogWriter`], piece by piece, and opens that gate at its end, so that at any moment the old log is in force or a whole new
//! one. In the same way a writer puts a second log beside that of a new store. A [`PayloadReader`] takes a log's payloads one
//! after the other, and brings the bytes of one into memory piece by piece.
//! The crate depends on disk_model, whose machines it writes to, on formats, which says what the bytes of a log are, on
//! oper_core for bytes and lack of memory, and on byteorder for the numbers in the bytes.
#![tactic(auto)]

mod creating;
mod filling;
mod forcing;
mod header;
mod layout;
mod loading;
mod log_file;
mod log_writer;
mod payload_reader;
mod reading;
mod rewriting;
mod seen;

pub use log_file::LogFile;
pub use log_writer::LogWriter;
pub use payload_reader::PayloadReader;
