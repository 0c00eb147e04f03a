//! The installation order: which logged operations have to be installed before which, what an object's stable value
//! is still needed for, and the few edges of the order that reach as far as all of them do.
//!
//! The one contract: [`edge`], [`exposed`] and [`closed`] answer the definitions of `specs/Order.antt`, exactly. The
//! other functions are laws over the definitions of `specs/`, without parameters and with an empty body: those of
//! `sparse` are for a graph that is kept as it grows. The crate depends on `oper_core` alone.
#![tactic(auto)]

mod entry;
mod order;
mod order_laws;
mod sparse;

pub use entry::Entry;
pub use order::{closed, edge, exposed};
pub use order_laws::{
    exposed_is_first_reads, last_blind_write_is_alone, nodes_are_computed, worked_tables,
};
pub use sparse::{
    arcs_left_by_a_removal, arcs_of_one_more, arcs_reach_the_same, no_arc_is_no_edge,
    nodes_left_by_a_removal, nodes_stand_for_nodes, one_arc_more, places_stand_for_lsns,
    representatives_tell_nodes,
};
