//! A store that calls work on: the trait [`Store`]. An engine is one, and so are an engine and a transaction that is open on it. What
//! calls make of it is said once, over what contracts know of any store (`View`), and reads as the engine's own contracts where the store
//! is an engine.
#![tactic(auto)]

mod of_engine;
mod store;

pub use store::Store;
