//! Nodes of a B-tree as values of objects, and the four logged operations on them: put, delete, split a child, split
//! the root.
//!
//! The one contract is that of the trait `Oper`, at the meaning that specs/ gives: a put and a delete act on a leaf as
//! on an ordered map, a split cuts a full node in its middle and keeps all, and bytes are read as a node or as an
//! operation exactly where they are its one code. A put and a delete work on the bytes of their leaf, a split on nodes.
//! Nothing but the bytes that are written takes memory. It depends on oper_core, on key_entries for the entries of a node
//! and the codes, and on arrayvec for lists of entries.
#![tactic(auto)]

mod coding;
mod halves;
mod leaf;
mod made;
mod node;
mod node_laws;
mod node_op;
mod reading;
mod split;

pub use halves::Halves;
pub use made::Made;
pub use node::{Branches, Node};
pub use node_laws::{
    a_delete_acts_on_a_map, a_new_child_stands_behind, a_put_acts_on_a_map, a_split_keeps_all,
    nodes_have_one_code,
};
pub use node_op::NodeOp;
pub use reading::{InnerHead, inner_head};
