//! Transactions over the engine: commands of which all are added, or none. And snapshots: a state of the store that is kept while
//! commands are added. A transaction with its engine is a store ([`Within`]), on which all calls on a range of objects work.
#![tactic(auto)]

mod admitting;
mod beginning;
mod commit_err;
mod committing;
mod enough_room;
mod keeping;
mod lazily;
mod overlay;
mod rolling_back;
mod running;
mod seeing;
mod snapshot;
mod snapshot_err;
mod transaction;
mod within;

pub use beginning::has_room;
pub use commit_err::CommitErr;
pub use enough_room::room_is_enough;
pub use rolling_back::{reopen, roll_back};
pub use snapshot::{Snapshot, a_snapshot_goes_on};
pub use snapshot_err::SnapshotErr;
pub use transaction::Transaction;
pub use within::Within;
