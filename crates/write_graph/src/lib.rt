//! The write graph: the logged operations that are not installed yet, as nodes that are installed one after the other.
//!
//! The one contract: every call of [`WriteGraph`] answers what the definitions of `specs/Graph.antt` say of the list
//! of its entries, whose nodes, edges and flush sets are those of `install_order`. An added or a removed entry changes
//! only the arcs that it brings or takes: at most one for each object that it reads or writes. The crate depends on
//! `graph_nodes`, which keeps the nodes, on `number_lists`, `install_order` and `oper_core`, and on `indexmap`.
#![tactic(auto)]

mod cells;
mod entry_table;
mod firsts;
mod graph;
mod head;
mod head_table;
mod linking;
mod links;
mod listing;
mod lowering;
mod places;
mod renewing;
mod rows;
mod slot_names;

pub use graph::{NodeNo, WriteGraph};
