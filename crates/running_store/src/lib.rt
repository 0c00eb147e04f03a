//! A running store: its log, its objects, and the graph of what is not installed.
//!
//! The one contract is [`Store`], to whose calls the machine is passed. What a call leaves on every machine is one record
//! (`IsCall`, which follows from the records of calls that only read, or log in memory alone): time passes, no LSN is given
//! again, the store stays attached to its files, and it is broken exactly where a call was answered that the disk failed; the
//! disk then counted that, and may count a fault too where a force succeeds (zeros that were refused). What it does to the
//! world that the store shows is a course (`Takes`), a list of steps as a function of the world and of the log's length: all
//! of them are taken, or as many as there is memory for, and a crash at any moment leaves the world after some first ones.
//! Both go over two calls, one after the other, so the crates above describe each of their calls by those that it makes.
//! specs/ says which world the parts of a store show (`Shows`; without a log `VolatileShows`).
//!
//! [`Objects`] holds what is cached: an object's LSN and value are those of the cache, or else those of its slot, and
//! what was read and forgotten is read again, and is the same. The length of each value is known without a read, from the
//! cache or the head of its slot, so `next_empty` finds the next empty object in memory alone. A command that is checked or done
//! (`check_command`, `append_command`) is lent the values that it reads by the cache, which has them again when the call returns,
//! or it reads copies where the cache does not hold all at once (`inputs_of`). For a backup a
//! slot is read past the cache (`read_slot`), and the log is copied to another machine (`copy_log`). Several objects are made
//! ready to be flushed with two syncs (`prepare`), so that the flush of each has one; or one sync stands behind all their gates,
//! of which a crash then leaves any open (`flush_together`; after a force `flush_round`). An error says what can come:
//! `ReadErr` of a call that reads, `RewriteErr` of a rewrite, `Failed` or `Memory` of one that fails by that alone, and
//! [`StoreErr`] of the calls above that fail by either. The crate depends on log_records, stable_objects, dirty_cache,
//! number_lists and write_graph, of which a store is made, on standing and explain_core, which say what files and worlds are,
//! and on formats for the numbers and the error of a reader.
#![tactic(auto)]

mod appending;
mod cached;
mod checkpoints;
mod commands;
mod doing;
mod empties;
mod entering;
mod fault;
mod fetching;
mod finishing;
mod lending;
mod limits;
mod log_copy;
mod objects;
mod preparing;
mod reading;
mod rewriting;
mod rounds;
mod slots;
mod store;
mod store_err;
mod store_laws;

pub use limits::objects_within;
pub use objects::Objects;
pub use store::Store;
pub use store_err::StoreErr;
pub use store_laws::{a_checkpoint_taken_now, any_gates_are_shown, dirty_objects_are_counted};
