//! What a server does with a store that has names, beside its requests: it reads a piece of the input, keeps the store up, opens a
//! group before the first request of a turn, ends and forces it, and only then says the answers. Nothing uses this crate yet; no
//! program of the repository is a server.
//!
//! The contracts say what a crash leaves of the names at each moment of such a call ([`HoldsNames`] in specs/Held.antt): within a
//! turn the names of the turn before, while the group is forced these or all ([`commit`]), and from then on all, also while answers
//! are said ([`say`]). So where the calls are made in this order, an answer that was said is
//! one of names that a crash leaves.
//!
//! It depends on shell_base, and on name_ranges for what names in a store are.
#![tactic(auto)]

mod forcing;
mod hearing;
mod laws;
mod opening;
mod saying;

pub use forcing::commit;
pub use hearing::{keep_up, read_more};
pub use laws::{
    an_opened_store_has_its_names, files_have_one_map_of_names, requests_wait_for_their_group,
};
pub use opening::begin;
pub use saying::say;
