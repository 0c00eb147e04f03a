//! Names and their values in a range of a store's objects: definitions, laws, and the code of keys. No program of the repository is a
//! server yet.
//!
//! The range is a map of `page_map`, the *directory*. The key of a name is its *place*, a number made of its bytes, as eight bytes,
//! the highest first, and then the name itself; so the keys are in the order of the places in which `named_words` scans names
//! ([`keys_are_in_the_order_of_places`]). Beside it stands the number of an object behind the range, as four bytes, and what that
//! object has is the value of the name (`IsNamed`).
//!
//! An operation that writes the object of a name gives the name a value, and one that writes an object which no name has changes
//! none ([`a_value_is_written`]). A set of a name's key gives it an object with what this has, or is refused, and a delete takes it
//! away ([`a_name_is_given_an_object`], [`a_name_is_taken_away`]). So a name is given a value in two steps, the value first
//! ([`a_name_is_given_a_value`]). A get finds the object ([`a_name_is_found`]), a range of the directory has the names from a place
//! on ([`names_are_read_from_a_span`]), and a state has one map of names ([`a_range_has_one_map_of_names`]).
#![tactic(auto)]

mod keys;
mod laws;
mod worked;

pub use keys::{key_of, number_bytes, number_in, place};
pub use laws::{
    a_name_is_found, a_name_is_given_a_value, a_name_is_given_an_object, a_name_is_taken_away,
    a_range_has_one_map_of_names, a_value_is_written, directories_change,
    keys_are_in_the_order_of_places, names_are_read_from_a_span, operations_write_one_object,
};
pub use worked::{a_range_is_as_worked, directories_are_as_worked, keys_are_as_worked};
