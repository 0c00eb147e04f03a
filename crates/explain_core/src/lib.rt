//! Why a crash loses nothing: the store as a machine of worlds and steps, what every step keeps, and which flush
//! order that needs.
//!
//! The one contract: every run of allowed steps from a new store is sound, and a sound world replayed to its end has
//! the state after its commands in its cache. The crate depends on `oper_core` and `install_order`, and reads and
//! writes nothing: its laws are functions without parameters whose clauses are the statements. [`Marks`] are the
//! numbers by which a redo installs.
#![tactic(auto)]

mod backup;
mod byte_op;
mod flush_order;
mod marks;
mod recovery;
mod rounds;
mod steps;
mod worked;

pub use backup::{copy_stands, copy_stays, copying_goes_on};
pub use byte_op::ByteOp;
pub use flush_order::{
    exactly_no_edge, graph_is_within, minimal_nodes_are_whole, some_node_is_minimal,
};
pub use marks::Marks;
pub use recovery::{
    crash_takes_the_group, forced_splits_no_group, history_gives_the_map, live_cache_is_the_map,
    one_state, redo_gives_the_map, stable_parts_stand, turns_end, turns_keep,
    wider_bounds_keep_stable_parts,
};
pub use rounds::{
    a_round_may_be_taken, a_thin_turn_may_be_taken, any_gates_may_open, minimal_nodes_stay,
};
pub use steps::{
    append_keeps, begin_keeps, block_gate_keeps, checkpoint_keeps, crash_keeps, end_keeps,
    every_run_keeps, header_gate_keeps, removal_keeps, replay_keeps, slot_gate_keeps,
};
pub use worked::{
    group_is_lost_or_kept, half_a_swap_is_not_explained, identity_is_flushed_beside_a_copy,
    runs_of_bytes, stale_copy_is_not_explained, swap_is_checkpointed, swap_is_flushed,
    swap_is_installed_in_a_redo, swap_is_redone,
};
