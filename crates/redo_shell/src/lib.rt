//! The program `redo` as one call, [`top`]: the words of the command line, what each of them asks, and the status at the end.
//!
//! The one contract is that of [`top`]: any call, by what it was asked, does what its room promises (`IsCallFor`): a run of a script
//! (script_run), `init`, `dump` and `upgrade` (store_words), `ship` and `follow` (standby_words), and a demo, which answers a
//! generated script on a store in memory, and says what the plain map's answers to it count to. Each status of trouble comes only
//! with its cause, and, where no fault was counted, exactly there.
//!
//! Laws say what that is of a run by itself ([`a_run_is_a_call`]), what any number of calls, kills and crashes in a row leave
//! ([`sessions_keep_what_was_forced`]), that a backup which was saved stays as it is over any calls ([`a_saved_backup_lasts`]), and
//! that a call whose restart was refused memory may be made again, and the two are as one ([`a_second_start_goes_on`]): nothing was
//! said, nothing of the input was taken, and the files stand for the commands that they stood for.
//!
//! It depends on the four rooms and on command_words, and on store_engine and the disk model for what the laws say.
#![tactic(auto)]

mod demo;
mod program;
mod session_laws;
mod tally;

pub use program::top;
pub use script_run::{BadCause, BadLine, Notes};
pub use session_laws::{
    a_call_is_followed, a_fuse_is_its_machine, a_run_is_a_call, a_saved_backup_lasts,
    a_second_start_goes_on, sessions_keep_what_was_forced,
};
pub use shell_base::{Budget, Status};
