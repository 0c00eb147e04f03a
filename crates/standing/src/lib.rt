//! What the bytes of a store's files say in the terms of recovery: which world they show, and which commands they stand
//! for.
//!
//! The one contract: files that show a sound world stand for the commands of its stable members, and files stand for at
//! most one state. Each function is a law without parameters and with an empty body. The crate joins `explain_core`,
//! whose worlds these are, with `formats`, whose bytes they are; that the bytes say one thing is shown by log_records,
//! log_blocks and stable_objects.
#![tactic(auto)]

mod standing_files;
mod worked;

pub use standing_files::{
    a_changed_objects_file_stands, a_copy_stands, checkpoints_of_a_log_fit, files_hold_one_store,
    files_show_a_world, files_stand_for_one_state, image_stands, new_files_stand_for_nothing,
    same_parts_stand_for_the_same, standing_files_have_no_fault, unseen_steps_change_nothing,
};
pub use worked::{
    a_new_store_stands_for_nothing, a_rewritten_log_stands_for_the_same,
    a_skipping_checkpoint_stands_for_nothing, a_small_store_stands,
};
