//! RESP 2, the protocol of Redis's clients: commands are read from bytes, and replies written as bytes. No program uses it
//! yet: none of the repository is a server.
//!
//! [`next_command`] tells what the bytes that have come begin with: a command, in the array form or in one line, a part of one,
//! or what no command begins with, and why. Of a command's bytes that command is found ([`a_command_is_found`]), and it does not
//! matter how reads cut a stream ([`commands_are_told_apart`]). [`Reply`] writes answers, which are told apart, whatever texts
//! they have ([`replies_are_told_apart`]).
//!
//! What Redis reads is read alike, but for this. Bytes are bad as soon as no command can come of them, and not only at the end
//! of a line. A negative count is bad, which Redis passes over, and so are other bytes than the end of a line behind a word,
//! which Redis does not look at. In one line there are no quotation marks, which Redis reads, and no control bytes.
#![tactic(auto)]

mod array;
mod bulk;
mod command;
mod command_laws;
mod found;
mod kind;
mod limits;
mod line;
mod number;
mod protocol_error;
mod reply;
mod reply_laws;
mod run;
mod worked;

pub use command::next_command;
pub use command_laws::{a_command_is_found, commands_are_told_apart};
pub use found::{Command, Found};
pub use limits::Limits;
pub use protocol_error::ProtocolError;
pub use reply::Reply;
pub use reply_laws::replies_are_told_apart;
pub use worked::bytes_are_as_worked;
