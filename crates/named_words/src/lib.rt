//! What the commands of Redis's clients ask of names and their values. No program uses it yet: none of the repository is
//! a server.
//!
//! [`Request::of`] tells what the words of a command ask, or why it is refused, and [`Refusal::text`] says so in Redis's words. What a
//! request does to names and their values, and what it is answered, is a definition, `does` in specs/Effects.antt, with rows as Redis
//! has them ([`values_are_as_worked`], [`names_are_as_worked`], [`refusals_are_as_worked`]). Of what it takes there is code here for
//! the sums of INCR and its kin ([`incremented`]), the parts of GETRANGE ([`part`]) and the patterns of KEYS and SCAN ([`matches`]).
//! A scan answers each name that is there all along ([`a_scan_finds_each_name`]).
//!
//! It is as in Redis, but for this. Values do not expire, and SET takes no option that says when one would; COPY takes no database.
//! A name that is too long is answered as a value is. The COUNT of a SCAN counts places of names, of which two may share one. An
//! MSET whose last name has no value is refused as one with too few words, and SELECT has one text for all numbers but 0. An empty
//! name fits a pattern of stars, and bytes of a class are compared without a sign. A command that there is not is answered with its
//! whole words where Redis stops at a byte 0.
#![tactic(auto)]

mod forms;
mod laws;
mod names;
mod number;
mod options;
mod pattern;
mod range;
mod reading;
mod refusal;
mod request;
mod session;
mod text;
mod token;
mod values;
mod verb;
mod when;
mod word;
mod worked;

pub use laws::a_scan_finds_each_name;
pub use number::{incremented, number_text, read_number};
pub use pattern::matches;
pub use range::part;
pub use refusal::Refusal;
pub use request::{NameRequest, Request, SessionRequest};
pub use verb::{NameVerb, Part, SessionVerb, ValueVerb, Verb};
pub use when::When;
pub use worked::{
    names_are_as_worked, patterns_are_as_worked, refusals_are_as_worked, values_are_as_worked,
};
