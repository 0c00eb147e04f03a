//! A map in a range of objects: an extendible hash file, whose directory and buckets are values of objects, and whose
//! changes are the logged operations of `hash_ops`.
//!
//! The one contract: on a range that is a hash file, get, put and delete act on the map of all its pairs, at each command of
//! a call the range is a hash file with the old map or the new one, and the commands are accepted one after the other on
//! any state. The definitions are the bucket in which a key stands (`Find`), which ranges are hash files and what they hold
//! (`File`), and which commands and answers a call makes (`Plan`). It depends on hash_ops, call_plans and key_entries, and on
//! oper_core for what a command means.
#![tactic(auto)]

mod file;
mod hash_file_laws;
mod refusal;
mod worked;

pub use file::{HashFile, entry_for, has_room};
pub use hash_file_laws::{
    a_hash_file_depends_on_its_range, a_hash_file_is_a_map, a_hash_file_refuses_by_cause,
    a_put_ends_with_its_put, commands_are_accepted, growth_keeps_the_file,
};
pub use refusal::HashRefusal;
pub use worked::{
    a_split_doubles_where_it_must, eight_keys_alike_fill_a_bucket, eight_puts_split_the_bucket,
    the_edges_of_a_range, the_first_bad_object_is_reported,
};
