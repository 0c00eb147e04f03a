//! A test crate: the tests of command_words, script_lines, and redo_shell with its rooms. The library is empty.
//!
//! They stand apart so that the proofs of those crates are made once, and not a second time with their tests. Whole scripts
//! with their answers are rows of constant tables; the examples hold more of them, which the built program runs. Stops and
//! calls that fail are tested in stops_tests.
#![tactic(auto)]

#[cfg(test)]
mod backups;
#[cfg(test)]
mod budgets;
#[cfg(test)]
mod damage;
#[cfg(test)]
mod demo;
#[cfg(test)]
mod files;
#[cfg(test)]
mod lines;
#[cfg(test)]
mod mirror;
#[cfg(test)]
mod rows;
#[cfg(test)]
mod running;
#[cfg(test)]
mod standbys;
#[cfg(test)]
mod tending;
