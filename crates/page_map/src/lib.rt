//! An ordered map in a range of objects: wide pages under wide pages, of which the first object is the root. Stores of version 3 have it.
//!
//! As code the crate has the range (`Map`) and the single steps of which a client over an engine makes calls: a page of a level
//! (`page_on`), the child under which a key stands, what a leaf has at a key (`value_in`), the command of a set or a delete there
//! (`set_in`, `delete_in`), and why a call is refused (`MapRefusal`). For ranges it has the step down to a child with the span of its
//! keys (`Map::step_under`, `Map::step_below`), and where the pairs of a span stand in a leaf (`places_in`); for the tidying behind a
//! delete whether a leaf is empty (`front_in`), the one beside it (`Map::beside`), and the commands (`takes_both`, `before_takes`,
//! `root_takes`). For a set whose leaf has no room (`has_room`) it has the search for the page that is cut, from the root downwards
//! (`Descent`), and the commands of the turn that cuts it (`commands_of`), three at most. A check (`Check`) goes through all pages
//! of a range, from the root downwards, and finds whether it is a map, and which objects no page names. Each step reads one page,
//! whatever its bytes are. Nothing takes memory but that search, for the keys that it carries along, and a check, for the keys of
//! the pages that it still awaits and a mark for each object.
//!
//! The definitions are which ranges are maps and what they hold (`Map`), the way to the leaf of a key and what a get answers
//! (`Walk`), the command that a set or a delete is (`Plan`), where a page is cut (`Splits`), the turns of a set (`Sets`), how the
//! page that is cut is found (`Cutting`, `Rows`), what one page tells where spans are carried along (`Steps`), the commands of a
//! delete (`Deletes`), what is read of a map (`Reads`), how ranges are read leaf by leaf (`Ranges`), what a check meets (`Checks`),
//! and what a sweep frees (`Sweeps`). The laws: on a map a get
//! finds what the map has; the command of a set or a delete leaves a map with the change, and is refused only where the leaf would
//! be too large; a set cuts pages until the pair has room, in commands each of which leaves a map with the old content, and the
//! last with the pair; a delete takes the key out first, and then the leaf, where it has no cells left and its page another child,
//! and leaves nothing to tidy where no leaf but an only child was without cells before, which sets that are done keep;
//! ranges, both ways, are those of the map, and so are the pairs beside a key, at either end and with a prefix; a check comes to its
//! end exactly where the range is a map; a sweep frees what is not reached, and keeps what the map holds. Pages that are not
//! empty are not joined yet. The crate depends on page_ops for pages and operations, on key_entries for the order of keys, on
//! call_plans for plans and free objects, on oper_core, and on byteorder for the numbers of children.
#![tactic(auto)]

mod above;
mod awaited;
mod beside;
mod cells;
mod check;
mod commands;
mod cut;
mod cutting;
mod descent;
mod due;
mod few;
mod fitting;
mod further;
mod laws;
mod leaf;
mod map;
mod pair;
mod places;
mod reached;
mod refusal;
mod room;
mod row;
mod step;
mod stepping;
mod tidying;
mod worked;

pub use awaited::Awaited;
pub use beside::Beside;
pub use check::Check;
pub use commands::commands_of;
pub use cut::Cut;
pub use descent::Descent;
pub use due::Due;
pub use few::Few;
pub use further::Further;
pub use laws::{
    a_check_finds_a_map, a_check_goes_page_by_page, a_delete_is_done_or_refused,
    a_get_finds_what_the_map_has, a_map_depends_on_its_range, a_set_goes_by_turns,
    a_set_is_done_or_refused, a_sweep_leaves_nothing_over, an_empty_root_is_an_empty_map,
    changes_are_those_of_the_map, ranges_are_read_from_leaves, reads_are_ranges,
    what_is_not_reached_may_be_written, whole_sets_leave_no_leaf_empty,
};
pub use leaf::{delete_in, set_in, value_in};
pub use map::{Map, page_on};
pub use places::Places;
pub use refusal::MapRefusal;
pub use room::{has_room, room_of};
pub use step::Step;
pub use stepping::{front_in, places_in};
pub use tidying::{before_takes, root_takes, takes_both};
pub use worked::a_cut_may_leave_a_leaf_without_cells;
