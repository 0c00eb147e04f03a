//! The calls on names that stand in a range of a store: what a name has, and that it is given a value or taken away. Nothing uses
//! this crate yet; no program of the repository is a server.
#![tactic(auto)]

mod finding;
mod given;
mod laws;
mod putting;
mod records;
mod taking;
mod valuing;

pub use finding::find;
pub use given::Given;
pub use laws::{calls_act_on_names, calls_are_told_of_names};
pub use putting::put;
pub use records::{levels, put_most, take_most};
pub use taking::take;
pub use valuing::value;
