//! The calls that keep the log of a store short: checkpoints, from which a restart knows where a redo begins, and trims, which
//! leave out the records below the least one that is not installed.
//!
//! The one contract: each call takes its course, a list of steps that is a function of the world shown and of the log's
//! length, and at each moment each image shows the world after some first ones of these. [`checkpoint`] takes a checkpoint
//! and forces it, and says where the log has no room for one; [`closing_checkpoint`], with which a restart ends, then takes
//! none. [`trim`] forces the log and puts in its place one that begins at the least LSN in the write graph, where that is short
//! enough. [`keep_up`] takes a trim and a turn of installs, of which each may be due or not.
//!
//! It depends on running_store, whose store it is handed: that tells where a redo begins, forces its log, appends a checkpoint
//! to it and rewrites it.
#![tactic(auto)]

mod checkpoint_err;
mod checkpoint_laws;
mod checkpoints;
mod due;
mod keeping;
mod logging;
mod taking;
mod task_outcome;
mod trimming;
mod upkeep_report;
mod worked;

pub use checkpoint_err::CheckpointErr;
pub use checkpoint_laws::{
    checkpoint_may_be_taken, closing_checkpoint_may_be_taken, trim_may_be_taken,
    upkeep_may_be_taken,
};
pub use checkpoints::{checkpoint, closing_checkpoint};
pub use due::Due;
pub use keeping::keep_up;
pub use task_outcome::TaskOutcome;
pub use trimming::trim;
pub use upkeep_report::UpkeepReport;
pub use worked::{a_checkpoint_has_two_starts, a_trim_keeps_what_is_not_installed};
