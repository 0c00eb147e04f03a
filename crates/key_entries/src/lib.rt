//! Short keys, each with what stands beside it: the entries of the nodes of a B-tree and of the buckets of a hash file, and
//! what the operations on both have in common.
//!
//! A [`Short`] is 1 to 32 bytes. An entry is a key and a field ([`EntryField`]): another short list, or an object. Lists have
//! at most seven entries, whose keys rise. The contracts: bytes are read as entries exactly where they are their one
//! code, and a put and a delete act on pairs as on an ordered map, also where they only change the spot of a key in the
//! bytes. Beside them stand the codes of operations on pairs, and the refusals that need no value. Nothing but the bytes
//! that are written takes memory. It depends on oper_core, on arrayvec for the lists, and on byteorder for the numbers in
//! the bytes.
#![tactic(auto)]

mod coding;
mod entry_field;
mod objects;
mod pairs;
mod reading;
mod short;
mod spot;
mod standing;
mod writing;

pub use coding::{
    HEAD_BYTES, read_delete, read_put, read_three, read_two, write_delete, write_put, write_three,
    write_two,
};
pub use entry_field::EntryField;
pub use objects::{LEAST_CAP, no_values, require_three, require_two, three};
pub use pairs::{MOST_ENTRIES, Pairs, has_key, value_in, with_pair, without_pair};
pub use reading::{read_entry, read_rising};
pub use short::Short;
pub use spot::Spot;
pub use standing::{entry_at, is_below, spot_of};
pub use writing::{entries_len, write_entries};
