//! What is cached of a store's objects: of each an LSN and a value, dirty or clean.
//!
//! A dirty object's value is in no slot yet, so it stays until it is marked clean. Clean ones stand in a bounded cache
//! and may be forgotten. The one contract is that of [`Cache`]: it is a finite map, whose words are in
//! `specs/Contents.antt`; a dirty entry is never lost, and what is answered of an object is always the pair that was
//! given last. The crate depends on `oper_core`, on `indexmap` for the dirty entries, and on `lru` for the clean ones.
#![tactic(auto)]

mod cache;
mod clean;
mod entry;
mod places;

pub use cache::Cache;
pub use entry::Entry;
