//! All operations of a store as one type, [`AllOps`]: the sum of its families, those on plain values and applications,
//! those on nodes of a B-tree, those on interpreted applications, those on hash files, and those on pages of a map.
//!
//! The one contract is that of the trait `Oper`, which [`Sum`] meets for any two families that share no tag: each operation
//! means what its family says, and bytes begin with the code of at most one. It depends on oper_core, on the
//! families op_meaning, btree_ops, app_program, hash_ops and page_ops, and on op_rows and key_entries, of which these are made.
#![tactic(auto)]

mod all_ops;
mod refused_laws;
mod sum;

pub use all_ops::{AllOps, hash_op, node_op, page_op, plain_op, program_op};
pub use refused_laws::refused_makes_empty;
pub use sum::{ApartFrom, Sum};
