//! The calls of an ordered map of wide pages that stands in a range of a store's objects: `get`, `set`, `delete`, reads of ranges of
//! keys, and its upkeep. The lines of a script that begin with `m` (`mget`, `mset`, ..) and the library's calls on maps run them.
//!
//! The one contract: on a store that stands for a list of commands, an engine or one with a transaction that is open on it, each
//! call answers what the definitions of `page_map` say on the map of these commands, whatever bytes the objects hold (`get_answer`,
//! `delete_plan`, `set_plan`), and adds the commands that they name, as far as the store accepts each, or a beginning of them where
//! the log, memory or the disk ends the call. Where
//! the range is a map all are accepted, and the calls act as on an ordered map: whenever one is cut short, the range is a map with
//! the old content or the new one (`calls_act_as_on_an_ordered_map`). A set goes by rounds: it ends with the command that puts the
//! pair into its leaf, and where that has no room a page is cut first, and the way is gone again. A delete takes the key out first,
//! and then tidies by rounds: a leaf that has no cells left gives way to the one beside it, and a root with one child becomes it. A
//! page is read where it is cached. What a call on another kind of range would do too is in `range_calls`.
//!
//! `range` reads the pairs in a span of keys by rising key, `back` by falling key, at most so many, and `prefix` those whose keys
//! begin with some bytes; `next` and `prev` read the pair beside a key, which is all that a cursor has to hold, and `count` tells how
//! many pairs a span has. They go from leaf to leaf: each is found from the root, with the span of its keys, whose ends are where the
//! leaves beside it begin and end. On a map they are those of the map (`reads_of_ranges_are_those_of_the_map`). `root_level` tells
//! how many levels it has above its leaves, which bounds the commands of a set.
//!
//! `check` reads all pages and answers whether the range is a map, and what it has; `sweep` empties objects that hold something and
//! are no page of it, and `tidy` does for the way to a key what a delete does behind its first command (`upkeep_keeps_the_map`).
#![tactic(auto)]

mod call_refusal;
mod checked;
mod checking;
mod cutting;
mod deleting;
mod emptied;
mod gathered;
mod getting;
mod giving;
mod laws;
mod map_err;
mod opening;
mod order;
mod pair;
mod putting;
mod ranging_count;
mod ranging_fall;
mod ranging_leaf;
mod ranging_pairs;
mod ranging_prefix;
mod ranging_rise;
mod setting;
mod spanned;
mod stepping;
mod stop;
mod tidying;
mod upkeep;
mod upkeep_laws;
mod walking;
mod way;

pub use call_refusal::CallRefusal;
pub use checked::Checked;
pub use checking::check;
pub use deleting::delete;
pub use getting::get;
pub use laws::{calls_act_as_on_an_ordered_map, reads_of_ranges_are_those_of_the_map};
pub use map_err::MapErr;
pub use ranging_count::count;
pub use ranging_fall::{back, prev};
pub use ranging_prefix::prefix;
pub use ranging_rise::{next, range};
pub use setting::set;
pub use upkeep::{sweep, tidy};
pub use upkeep_laws::upkeep_keeps_the_map;
pub use walking::root_level;
