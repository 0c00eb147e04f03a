//! How a store is opened: the files are read, the redo is done, and a checkpoint is logged.
//!
//! The one contract is [`restart`]: of each world of the theory that the files show, the course of a restart is taken,
//! a crash, the turns of the redo and a checkpoint, and at each moment each image shows the world after some first steps of
//! it; files that break their format are reported so, at the place of the first check that fails, and stay as they are.
//! How many objects may be dirty in the redo, and how many records may wait, before it installs, and how many clean objects are
//! cached, a [`Tuning`] says: of objects, by the bytes that they may have.
//!
//! It depends on running_store, whose store it makes of what was read and answers, on redo_pass, which does the redo on it,
//! and on checkpointing, which takes the checkpoint.
#![tactic(auto)]

mod loading;
mod redone_store;
mod restart_laws;
mod restarting;
mod tuning;

pub use restart_laws::{a_restart_may_be_made, one_damage};
pub use restarting::restart;
pub use stable_objects::OpenErr;
pub use tuning::Tuning;
