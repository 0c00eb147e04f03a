//! The dirty page table of a checkpoint: where in the log a redo has to start, object by object.
//!
//! A table is taken while the store runs and is kept in the log. The one contract is [`redo_from`]: a redo that leaves
//! out the records of an object before that number leaves out no operation that is still to be installed, if the table
//! was taken from the least of their numbers. Beside it stands the codec: a table is decoded exactly where the bytes
//! begin with the code of one, and no code is another's beginning. The crate depends on oper_core, and on byteorder for
//! the numbers in the codes.
#![tactic(auto)]

mod codec;
mod redo_starts;
mod starts;
mod table;

pub use codec::{decode, encode, one_table};
pub use redo_starts::{redo_from, starts_at_the_least_writer, take};
pub use starts::Starts;
pub use table::DirtyPageTable;
