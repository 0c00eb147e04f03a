//! Tables of operations: a family of operations is a table of rows, which say what an operation names, when it is refused, and
//! what it makes.
//!
//! The one contract is that of [`Names`], all that is in an operation's code: its first refusals, and its bytes. In specs/ a table
//! whose rows are each lawful, and which tells its operations apart by their tags, meets the laws of the trait `Oper`. It
//! depends on oper_core, and on byteorder for the numbers in the codes.
#![tactic(auto)]

mod names;
mod numbers;

pub use names::{Names, both, known_as_small};
pub use numbers::{number_and_text, one_number, three_numbers, two_numbers};
