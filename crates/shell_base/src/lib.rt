//! What every word of `redo` that opens a store shares: how the store is opened with a [`Budget`], why a call stops ([`Stop`]), the
//! [`Status`] at its end, and the one line that says why.
//!
//! The one contract is that of [`open_store`]: on files that stand for commands, as they are read, it gives an engine that stands for
//! them, at the stage that the course of the restart leads to, and each image of each moment meanwhile is one that a crash at the
//! start could leave, or stands for them. Files that are no store, or that break their format, are not opened: that is said, and
//! they are kept. What is printed before the end is a front of the line that is meant ([`end_with`], [`end_damaged`],
//! [`end_numbered`], [`end_unopened`]).
//!
//! It depends on store_engine, whose engine is opened for the operations of op_codec, on restart and the theory below for what the
//! stage of a restart is, and on script_lines for the errors of an input.
#![tactic(auto)]

mod budget;
mod damage;
mod fetching;
mod notice;
mod say;
mod status;
mod stop;
mod store_opening;

pub use budget::Budget;
pub use damage::end_damaged;
pub use fetching::fetched;
pub use notice::end_numbered;
pub use say::{end_with, say_line};
pub use status::{Status, status_after};
pub use stop::Stop;
pub use store_opening::{end_unopened, open_store};
