//! What the words of the command line ask, read by `clap`.
//!
//! The one contract is [`read_words`]: it answers exactly what the words ask, by clap's own account of the command set
//! (`specs/Words.antt`), and refuses them exactly where they ask nothing, or for want of memory. The crate depends on clap,
//! which reads the words and has the specification that says what they are, and on formats for the limits of a store.
#![tactic(auto)]

mod asked;
mod command;
mod unread;
mod word_laws;
mod words;

pub use asked::Asked;
pub use unread::Unread;
pub use word_laws::{plain_words_are_taken, words_ask_one_thing};
pub use words::read_words;
