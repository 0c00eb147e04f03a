//! A test crate: the tests of dirty_page_table, log_blocks and log_records. The library is empty.
//!
//! They stand apart so that the proofs of those crates are made once, and not a second time with their tests.
#![tactic(auto)]

#[cfg(test)]
mod copies;
#[cfg(test)]
mod filling;
#[cfg(test)]
mod log;
#[cfg(test)]
mod pieces;
#[cfg(test)]
mod records;
#[cfg(test)]
mod rewriting;
#[cfg(test)]
mod shortening;
#[cfg(test)]
mod tables;
