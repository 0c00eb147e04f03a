//! A machine in memory for a program whose files are another's: it is handed the files' bytes, and keeps a queue of what was
//! written, synced and printed since, which the caller makes on the real files.
//!
//! The one contract is [`QueueMem`], a [`disk_model::Machine`] that tells its files and what a crash may leave of them, so that
//! all that is proved of a store over such a machine holds over it. [`fronts_are_what_is_left`] says what that is worth for the real
//! files: what a crash leaves of them, where some front of the queue was made on them, is what it may leave of the machine.
//! [`LentMem`] is such a machine for one call: it copies no file, but looks at bytes that are lent, through what the call has
//! queued. It depends on disk_model alone.
#![tactic(auto)]

mod adding;
mod lent;
mod lent_mem;
mod looking;
mod past;
mod queue;
mod queue_mem;
mod queued;
mod real_files;

pub use lent_mem::LentMem;
pub use past::Past;
pub use queue_mem::QueueMem;
pub use queued::Queued;
pub use real_files::{fronts_are_what_is_left, lent_fronts_are_what_is_left};
