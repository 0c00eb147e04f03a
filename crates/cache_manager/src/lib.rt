//! How the objects of a running store reach their slots: one node of the write graph at a time, or the minimal nodes
//! that have one object to flush together, in a round of three syncs at most behind the force. Of nodes that have several the
//! others are logged before, so that they have one.
//!
//! What an install, a turn and a drain do is a course, a function of a world and of the log's length; functions without
//! parameters and with an empty body say that its steps may be taken, and what bounds them. [`install_one`], [`tend`]
//! (one turn: a round or an install, and nodes behind it that have no object to flush) and [`drain`] take it, or as much of it
//! as they have memory for, and say what they did; [`tend_thin`] takes a turn for which nothing is logged. Each is a call on a
//! `Store` of running_store, whose words and laws say what it does.
#![tactic(auto)]

mod beside;
mod choosing;
mod courses;
mod draining;
mod identities;
mod identity;
mod install;
mod install_err;
mod readying;
mod removing;
mod rounds;
mod tending;
mod thin;
mod thinning;
mod turning;
mod worked;
mod workless;

pub use courses::{
    a_round_is_found, a_round_is_full, a_turn_goes_on, a_turn_readies_all, drain_is_bounded,
    drain_may_be_taken, force_may_be_taken, identities_may_be_taken, install_is_bounded,
    install_may_be_taken, installs_go_beside_a_copy, round_may_be_taken, turn_may_be_taken,
    turns_are_bounded,
};
pub use draining::drain;
pub use install::Install;
pub use install_err::InstallErr;
pub use rounds::install_one;
pub use tending::tend;
pub use thinning::tend_thin;
pub use worked::{
    a_swap_is_installed, nodes_of_one_object_log_nothing, the_longer_value_is_flushed,
};
