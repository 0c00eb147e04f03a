//! A test crate: the tests of disk_model, write_queue and stable_objects. The library is empty.
//!
//! They stand apart so that the proofs of those crates are made once, and not a second time with their tests.
#![tactic(auto)]

#[cfg(test)]
mod disk;
#[cfg(test)]
mod file_machine;
#[cfg(test)]
mod frail_files;
#[cfg(test)]
mod growing;
#[cfg(test)]
mod layouts;
#[cfg(test)]
mod queue;
#[cfg(test)]
mod replacing;
#[cfg(test)]
mod slots;
