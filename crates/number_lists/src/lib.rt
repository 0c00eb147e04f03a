//! Lists and sets of small numbers that take no memory as they change.
//!
//! The one contract: a call of [`Chains`], [`SparseChains`], [`NumberSet`] or [`NumberTree`] changes what it names as its clause says, and nothing else. Each
//! number stands in at most one of the lists of a `Chains`, so that one table of links serves them all. The crate depends on `oper_core`.
#![tactic(auto)]

mod chains;
mod level;
mod number_set;
mod number_tree;
mod packed_option;
mod push;
mod sparse_chains;

pub use chains::Chains;
pub use number_set::NumberSet;
pub use number_tree::NumberTree;
pub use packed_option::PackedOption;
pub use push::push_in_room;
pub use sparse_chains::SparseChains;
