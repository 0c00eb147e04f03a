//! A test crate: the tests of install_order, number_lists, graph_nodes and write_graph, a graph of a million entries
//! among them. The library is empty.
//!
//! They stand apart so that the proofs of those crates are made once, and not a second time with their tests.
#![tactic(auto)]

#[cfg(test)]
mod adding;
#[cfg(test)]
mod lsns;
#[cfg(test)]
mod million;
#[cfg(test)]
mod order;
#[cfg(test)]
mod slots;
#[cfg(test)]
mod tables;
