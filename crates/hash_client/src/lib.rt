//! The calls of an extendible hash file that stands in a range of a store's objects: `get`, `put` and `delete`.
//!
//! The one contract: on a store that stands for a list of commands, an engine or one under a transaction (the trait `Store` of
//! `store_calls`), each call answers what the plan of `hash_file` on the map of these commands says, and adds the commands of
//! that plan, or a beginning of them where the log, memory or the disk ends it. What such commands make of a hash file is
//! proved in `hash_file`: on a range that is one each call acts as on a map (`a_hash_file_is_a_map`), a split keeps the file
//! and its pairs (`growth_keeps_the_file`), and no command of a plan is refused where a value may hold 1,024 bytes
//! (`commands_are_accepted`). So a hash file that only these calls have written is one after every stop, with the pairs of the
//! calls that were done (`only_calls_keep_the_file`). A call fetches at most two objects for each command, the directory and
//! the key's bucket, and a put that splits nothing is one command.
#![tactic(auto)]

mod deleting;
mod finding;
mod getting;
mod putting;
mod whole_runs;

pub use deleting::delete;
pub use finding::HashErr;
pub use getting::get;
pub use putting::put;
pub use whole_runs::only_calls_keep_the_file;
