//! A test crate: the tests of oper_core, op_meaning, app_program, btree_ops, hash_ops, page_ops, op_codec and resp_words. The
//! library is empty.
//!
//! They stand apart so that the proofs of those crates are made once, and not a second time with their tests.
#![tactic(auto)]

#[cfg(test)]
mod codes;
#[cfg(test)]
mod commands;
#[cfg(test)]
mod hashes;
#[cfg(test)]
mod nodes;
#[cfg(test)]
mod pages;
#[cfg(test)]
mod resp;
#[cfg(test)]
mod rows;
#[cfg(test)]
mod values;
