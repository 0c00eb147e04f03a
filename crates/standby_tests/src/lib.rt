//! A test crate: streams of frames and what a standby makes of them, and what an engine says of its log. The library is empty.
//!
//! Some streams are rows of a table, with the answer to each and to one more piece after it. Each is fed whole, in pieces of
//! three bytes, and byte by byte. Others are drawn at random, with what has to come of them.
#![tactic(auto)]

#[cfg(test)]
mod frames;
#[cfg(test)]
mod mirrors;
#[cfg(test)]
mod random;
#[cfg(test)]
mod standbys;
#[cfg(test)]
mod streams;
