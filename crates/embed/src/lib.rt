//! A store in use and its machine as one value, for a program that keeps a store within itself.
//!
//! The one contract is [`Store`]. Each of its calls says of the store and its machine what the engine's call says: what values
//! the objects have, what a crash may leave at each moment, what is durable. After a fault of the disk each call answers that
//! again and does nothing. Trees, hash files and maps of wide pages stand in ranges of its objects. An open group may be given up,
//! and a transaction is staged beside the store: commands, calls on trees, hash files and maps, and runs of applications. A snapshot keeps one of its states, where each call that changes it keeps what it
//! changes before. Over [`write_queue::QueueMem`] the store touches no file: the caller takes what was written and makes it on its
//! files, and [`real_files_keep_what_is_forced`] says what a crash leaves of them meanwhile.
#![tactic(auto)]

mod apps;
mod apps_within;
mod backups;
mod calls;
mod groups;
mod hashes;
mod hashes_within;
mod laying_out;
mod maps;
mod maps_within;
mod queued;
mod real_files;
mod snapshots;
mod staging;
mod store;
mod trees;
mod trees_within;
mod upkeep;

pub use laying_out::lay_out;
pub use real_files::{real_files_keep_what_is_forced, takes_leave_a_copy};
pub use store::Store;
