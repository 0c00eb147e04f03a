//! The engine: commands on a store's objects, logged before they count, installed one node of the write graph at a
//! time, and done again when the files are opened.
//!
//! The one contract is [`Engine`]. Engine and files stand for the commands that were accepted: they show a sound world
//! of the theory whose history has these commands. What a call does is a course of steps, a function of that world and
//! of the log's length; the files stand for the commands that are forced, and a crash at any moment of a call leaves a
//! store with no fewer. Each method is a call on the [`running_store::Store`] below that takes the course, and a group of
//! commands is known here alone.
//!
//! [`Engine::keep_up`] is called after each command of a caller that wants no other upkeep: it takes a bounded trim and a turn of
//! installs, each where a [`Pace`] says that it is due, which is a function of that and of the world (`due_at`).
//!
//! Of several commands, run one after the other, `AddsFront` of specs/Lists.antt says what they make of an engine,
//! wherever they end: [`nothing_is_made`] begins a loop over [`Engine::exec`] and [`Engine::fetch`], [`exec_goes_on`] and
//! [`fetch_goes_on`] keep it going, and [`calls_go_on`] does so for what holds on every machine.
//!
//! While the slots are copied for a backup ([`Engine::set_copied`] says how far), installs, turns and drains take the courses
//! beside the copy, and a trim is refused. Every other call takes steps that may be taken beside the copy
//! ([`calls_go_beside_a_copy`]), and these leave a copy of the first slots of the world that engine and files then show
//! ([`a_copy_goes_on`]), so no call here knows where the backup goes.
//!
//! The log is read for whoever follows the store: [`Engine::frames`] says what its blocks have from an LSN on, a frame for
//! each block, and [`Engine::ship`] and [`Engine::next_shipped`] do so one block at a time. [`Engine::follow`] takes a record
//! of another log as the next one of this log, [`Engine::tend_thin`] keeps few objects dirty meanwhile, and
//! [`records_are_judged`] says what of a record is taken.
#![tactic(auto)]

mod beside;
mod copying;
mod engine;
mod engine_laws;
mod engine_restart;
mod executing;
mod following;
mod grouping;
mod init_err;
mod lengths;
mod lists;
mod load;
mod making;
mod pace;
mod ship_err;
mod shipping;
mod stat;
mod uniqueness;
mod upgrade_err;
mod upgrading;
mod upkeep;
mod work_err;
mod working;

pub use beside::{a_copied_log_is_of_the_world, a_copy_goes_on, calls_go_beside_a_copy};
pub use cache_manager::{Install, InstallErr};
pub use checkpointing::{CheckpointErr, TaskOutcome, UpkeepReport};
pub use engine::Engine;
pub use engine_laws::{
    a_trim_behind_a_drain_leaves_nothing, engine_stands, group_is_closed, identities_are_counted,
    opens_on_a_world, standing_files_meet_their_format, stop_is_said,
};
pub use execution::{ExecErr, RecordErr};
pub use following::records_are_judged;
pub use formats::ReadErr;
pub use grouping::NoGroup;
pub use init_err::InitErr;
pub use lengths::lengths_are_told;
pub use lists::{
    calls_go_on, commands_log_no_identity, exec_goes_on, fetch_goes_on, fronts_are_joined,
    nothing_is_made,
};
pub use log_records::{BlockReader, CopyErr};
pub use pace::Pace;
pub use restart::{Tuning, one_damage};
pub use running_store::StoreErr;
pub use ship_err::ShipErr;
pub use stable_objects::OpenErr;
pub use stat::Stat;
pub use uniqueness::one_state;
pub use upgrade_err::UpgradeErr;
pub use work_err::WorkErr;
