//! A test crate: a bank whose transfers are transactions. The library is empty.
#![tactic(auto)]

#[cfg(test)]
mod bank;
