//! The redo: what a restart does to have every object again as the log says.
//!
//! The one contract is [`redo`]: of each world of the theory that a restart finds in the files, all steps of its redo
//! are taken, and at each moment each image shows the world after some first ones of these. It works on a `Store` of
//! running_store whose files are read, by the plan of analysis_pass, and installs thin nodes by cache_manager.
#![tactic(auto)]

mod choosing;
mod limit;
mod redo_laws;
mod redoing;
mod replay;

pub use redo_laws::{
    a_found_world_is_due, a_redo_ends, a_redo_goes_on, a_redo_leaves_nothing, a_replay_is_shown,
    an_empty_store_shows_it, records_are_members, what_is_due_is_set,
};
pub use redoing::redo;
