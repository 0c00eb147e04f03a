//! Wide pages of a map as values of objects, and the logged operations on them.
//!
//! An operation names a page and places in it, and reads no more of the page than these, so it is a function of all bytes; it
//! writes one object. The one contract is that of the trait `Oper`, at the meaning that specs/ gives. On the bytes of pages each
//! operation is the one on their cells, and refused for the same cause (`operations_are_on_cells`); a search in a page finds the
//! place of a key, or where it would stand, and takes no memory (`a_search_finds_the_place`). Stores of version 3 have these operations.
//! The crate depends on key_entries for the order of keys and the first refusals, on oper_core, and on byteorder for the numbers
//! in pages and codes.
#![tactic(auto)]

mod effects;
mod fields;
mod fitting;
mod laws;
mod layout;
mod making;
mod page;
mod page_op;
mod reading;
mod tags;
mod text;
mod turning;
mod worked;
mod writing;

pub use laws::{a_search_finds_the_place, operations_are_on_cells};
pub use page::{Page, is_same};
pub use page_op::PageOp;
pub use text::Text;
pub use worked::{
    an_inner_page_is_turned, cells_go_in_and_out, changes_have_their_codes,
    other_bytes_are_refused, pages_are_parted, parts_have_their_codes, the_place_of_a_key_is_found,
};
