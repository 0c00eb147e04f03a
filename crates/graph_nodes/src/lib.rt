//! The nodes of a graph whose arcs come one after the other, and whose minimal nodes are taken out.
//!
//! The one contract: the slots with one representative are those that reach each other along the arcs. The crate
//! depends on `number_lists`, `install_order` and `oper_core`.
#![tactic(auto)]

mod ahead;
mod apart;
mod arcs;
mod clearing;
mod front;
mod graph;
mod levels;
mod linking;
mod merging;
mod name_table;
mod names;
mod nodes;
mod pruning;
mod raising;
mod removing;
mod search;
mod searches;
mod settling;
mod spreading;
mod uniting;

pub use graph::SlotGraph;
