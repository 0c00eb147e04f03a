//! Applications whose state is an object's value, run one step at a time.
//!
//! The one contract is that of [`App`] and of [`ProgApp`], whose program is an object's value too: each of their calls is a
//! command of the engine, and a run is as many steps as are accepted one after the other, at most so many as are asked for.
//! A run works on any store, such as an engine or one with a transaction that is open on it. What it makes of store and files,
//! wherever it ends, is what store_calls says of several commands.
//!
//! Its laws say what many steps make of a state, and that the values of a store are lists of at most CAP bytes
//! ([`values_are_bytes`]), so that a run asks no more of the commands before it than that they are operations of a program
//! ([`runs_ask_for_bytes`], [`known_as_bytes`]).
#![tactic(auto)]

mod app;
mod bytes;
mod prog_app;
mod program_runs;
mod steps;

pub use app::App;
pub use bytes::known_as_bytes;
pub use prog_app::ProgApp;
pub use program_runs::{
    a_program_runs_on_all_that_is_fed, a_run_reads_the_input, runs_ask_for_bytes,
    stored_values_are_bytes, values_are_bytes, why_a_step_is_refused,
};
