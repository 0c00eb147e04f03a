//! The words of `redo` that make, report and enlarge a store: [`init`], [`dump`] and [`upgrade`].
//!
//! Their contracts are `IsMaking`, `IsDumpCall` and `IsUpgradeCall`. An `init` makes a store where there is none, and leaves one that
//! is there as it is. A dump says each object that is not empty and the number of commands, and changes nothing but for the
//! restart. An upgrade leaves files that stand for the same commands at every moment, and with status 0 those of the larger store.
//!
//! It depends on shell_base, which opens the store, on store_engine and what is below it, and on script_lines for the rows of a dump.
#![tactic(auto)]

mod dumping;
mod making;
mod upgrading;

pub use dumping::dump;
pub use making::init;
pub use upgrading::upgrade;
