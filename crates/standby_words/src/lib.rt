//! The words of `redo` that keep a standby: [`ship`] and [`follow`].
//!
//! Their contracts are `IsShipCall` and `IsFollowCall`. The log of a store is shipped as frames, one for each of its blocks, from a
//! number on, and nothing changes but for the restart. A store that follows a stream of frames stands at every moment for what some
//! first whole frames make of its commands, with status 0 for what all of it makes, and says why the rest is refused. Where that is
//! asked, each piece is compared before it is followed, and none is followed that has another record than the store.
//!
//! It depends on shell_base, which opens the store, on standby_node, which takes a stream, and on store_engine and what is below it.
#![tactic(auto)]

mod comparing;
mod cut;
mod following;
mod shipping;

pub use following::follow;
pub use shipping::ship;
