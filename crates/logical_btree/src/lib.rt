//! An ordered map in a range of objects: a B-tree, whose nodes are values of objects, and whose changes are the logged
//! operations of `btree_ops`.
//!
//! The one contract: on a range that is a tree, get, range, insert and delete act on the map of all its pairs as on an
//! ordered map, at each command of a call the range is a tree with the old map or the new one, and the commands are
//! accepted one after the other on any state. The definitions are what a way and a scan meet (`Walk`), which ranges
//! are trees and what they hold (`Tree`), and which commands and answers a call makes (`Plan`). As code the crate has the
//! range and the single steps of a walk, of which a client over an engine makes the calls. Nothing takes memory. The crate
//! depends on btree_ops for nodes and operations, on oper_core for what a command means, and on arrayvec for the
//! entries of an empty leaf.
#![tactic(auto)]

mod below;
mod child;
mod full;
mod refusal;
mod tree;
mod tree_laws;
mod worked;

pub use below::Below;
pub use child::child_for;
pub use full::is_full;
pub use refusal::TreeRefusal;
pub use tree::Tree;
pub use tree_laws::{
    a_range_rises, a_split_keeps_the_tree, a_tree_depends_on_its_range, a_tree_is_an_ordered_map,
    a_tree_refuses_by_cause, an_insert_ends_with_its_put, commands_are_accepted,
};
pub use worked::{
    eight_inserts_split_the_root, the_first_bad_object_is_told, the_first_full_node_is_split,
};
