//! The execution of commands: a command is checked on the values that the objects have, logged, and done on them. And the log of
//! another store is followed: each of its records is judged on these values, and taken as the next one, or refused.
//!
//! There are two contracts. [`execute`] takes, of each world that the store and the files show, the steps of the command's
//! course, which are the append of the command, or none where the command is refused, or a force where its record has no
//! place in the log. [`follow`] takes those of the record's course: the append of its member with the LSN that it has, behind
//! a force where the block that waits has no room for it, or none. Each answer comes exactly where its cause holds. The write
//! graph has an entry of each member that is appended.
//!
//! It depends on running_store, whose store it is handed: that reads the objects, forces the log, and appends members.
//! Of cache_manager it cites laws alone.
#![tactic(auto)]

mod admitting;
mod command_laws;
mod exec_err;
mod executing;
mod following;
mod placing;
mod record_err;

pub use command_laws::{exec_may_be_taken, follow_may_be_taken};
pub use exec_err::ExecErr;
pub use executing::execute;
pub use following::follow;
pub use record_err::RecordErr;
