//! Where a redo starts.
//!
//! The one contract is [`analyse`]. It does not read a log: it is given the table of the log's last checkpoint, which is that of
//! its plan, or none, and then the plan starts every object at the log's base. The redo starts at the least of the plan's
//! next LSN and its redo starts. The crate depends on dirty_page_table for the tables, on formats and oper_core for what the
//! records of a log are, and on explain_core, whose redo starts there too.
#![tactic(auto)]

mod analysing;
mod plan;
mod plan_start;

pub use analysing::analyse;
pub use plan::Plan;
pub use plan_start::a_plan_starts_at_the_least_start;
