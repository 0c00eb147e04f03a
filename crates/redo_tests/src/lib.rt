//! A test crate: the tests of explain_core, dirty_cache, identity_writes and analysis_pass, and those of redo_pass,
//! restart and running_store over files. The library is empty.
//!
//! They stand apart so that the proofs of those crates are made once, and not a second time with their tests.
#![tactic(auto)]

#[cfg(test)]
mod byte_op;
#[cfg(test)]
mod cache;
#[cfg(test)]
mod logs;
#[cfg(test)]
mod plans;
#[cfg(test)]
mod redo;
#[cfg(test)]
mod redone;
#[cfg(test)]
mod stops;
#[cfg(test)]
mod thinning;
#[cfg(test)]
mod tuned;
