//! Which objects are logged as they are so that one object is left to flush.
//!
//! Objects that have to be flushed together can't be flushed one after the other, and a write to the disk is whole or
//! absent for one object alone. So all but one are logged with the values that they have: a record of its own is then
//! the last to write each of them, and the one that is kept can be flushed alone. The one contract is [`plan`]: it keeps the
//! object with the longest value of those that a copy of the slots does not have yet, or none where it has all; the others
//! are to be logged. The crate depends on oper_core alone.
#![tactic(auto)]

mod object_list;
mod thinning;
mod thinning_plan;

pub use object_list::ObjectList;
pub use thinning::plan;
pub use thinning_plan::Plan;
