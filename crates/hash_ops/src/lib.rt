//! A directory and buckets of an extendible hash file as values of objects, and the four logged operations on them: begin,
//! put, delete, split.
//!
//! The one contract is that of the trait `Oper`, at the meaning that specs/ gives: a put and a delete act on a bucket as
//! on a map, a split keeps all pairs, each in the bucket that its key's number tells, and bytes are read as a directory, a
//! bucket or an operation exactly where they are its one code. Nothing but the bytes that are written takes memory. It
//! depends on key_entries for pairs and codes, on oper_core, and on arrayvec for the entries of a directory.
#![tactic(auto)]

mod block_laws;
mod bucket;
mod coding;
mod directory;
mod hash_op;
mod made;
mod numbers;
mod split;

pub use block_laws::{
    a_split_keeps_all_pairs, a_split_renames_the_upper_half, blocks_have_one_code,
};
pub use bucket::Bucket;
pub use directory::{Directory, MOST_DEPTH};
pub use hash_op::HashOp;
pub use made::Made;
pub use numbers::{has_bit, hash};
