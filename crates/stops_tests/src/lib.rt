//! A test crate: a process is stopped at each call to its machine, and each call fails. The library is empty.
//!
//! Scripts are rows of one table, with what each says and what may be found after a stop. Most are run by the program of
//! redo_shell; some are calls of restart, execution, cache_manager and store_engine. Machines in memory are those of
//! disk_model, operations those of op_codec, op_meaning and btree_ops, with values of oper_core.
#![tactic(auto)]

#[cfg(test)]
mod acts;
#[cfg(test)]
mod backups;
#[cfg(test)]
mod calls;
#[cfg(test)]
mod empties;
#[cfg(test)]
mod faults;
#[cfg(test)]
mod found;
#[cfg(test)]
mod gates;
#[cfg(test)]
mod inits;
#[cfg(test)]
mod installs;
#[cfg(test)]
mod running;
#[cfg(test)]
mod scripts;
#[cfg(test)]
mod stops;
#[cfg(test)]
mod tends;
#[cfg(test)]
mod trees;
#[cfg(test)]
mod trials;
#[cfg(test)]
mod upgrades;
