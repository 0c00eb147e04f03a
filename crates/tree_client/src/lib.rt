//! The calls of an ordered map that stands in a range of a store's objects: `get`, `range`, `piece_from`, `insert` and `delete`.
//!
//! The one contract: on a store that stands for a list of commands, an engine or one under a transaction (the trait `Store` of
//! `store_calls`), each call answers what the plan of `logical_btree` on the map of these commands says, and adds the commands
//! of that plan, or a beginning of them where the log, memory or the disk ends it. What such commands make of a tree is proved
//! in `logical_btree`: on a range that is a tree each call acts as on an ordered map (`a_tree_is_an_ordered_map`), a split
//! keeps the tree and its pairs (`a_split_keeps_the_tree`), and no command of a plan is refused where a value may hold 1,024
//! bytes (`commands_are_accepted`). So a tree that only these calls have written is one after every stop, with the pairs of the
//! calls that were done (`only_calls_keep_the_tree`). A call fetches each inner node on its way once, and an insert that splits
//! nothing is one command. What a call on another kind of range would do too is in `range_calls`.
#![tactic(auto)]

mod deleting;
mod full;
mod getting;
mod inserting;
mod nodes;
mod part;
mod piecing;
mod ranging;
mod scanning;
mod splitting;
mod tree_err;
mod walking;
mod whole_runs;

pub use deleting::delete;
pub use getting::get;
pub use inserting::insert;
pub use piecing::{Piece, piece_from};
pub use ranging::range;
pub use tree_err::TreeErr;
pub use whole_runs::only_calls_keep_the_tree;
