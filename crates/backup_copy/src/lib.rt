//! A backup of a store, taken while it serves: its slots are copied to a second machine, the target, by rising object number,
//! while commands, installs and checkpoints go on; at the end the log follows, and the target is a store.
//!
//! The one contract is [`finish`]: where it answers a number, each image of the target stands for the commands that the store
//! stands for, which are so many, and has its history, so that a standby may begin with it. Until it opens the target's objects
//! gate this is closed at each moment. What holds meanwhile
//! is the record `Copies` of specs/Copies.antt: engine and files show a world, and the target has cells that are a copy of its
//! first slots; so these are explained at each step ([`the_copy_is_explained`]). [`start`] begins it, [`copy`] goes on with it,
//! and [`copies_go_on`] keeps it over each call of the engine in between, so that no contract of the engine mentions the
//! target.
//!
//! It depends on store_engine, whose installs keep to an order in which what has been copied stays explained.
#![tactic(auto)]

mod backup_err;
mod beside_a_backup;
mod copying;
mod finishing;
mod forcing;
mod giving_up;
mod refusing;
mod starting;

pub use backup_err::BackupErr;
pub use beside_a_backup::{copies_go_on, the_copy_is_explained};
pub use copying::copy;
pub use finishing::finish;
pub use giving_up::give_up;
pub use starting::start;
