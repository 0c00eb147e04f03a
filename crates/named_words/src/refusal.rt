use crate::verb::{Part, Verb};

/// Why a command is refused.
#[derive(Clone, Copy, Debug, PartialEq, Eq)]
pub enum Refusal {
    /// There is no command of this name.
    Unknown,
    /// The command's second word is none that it has.
    UnknownPart(Verb),
    /// The command has another number of words.
    WrongCount(Verb),
    /// The same of a command of two words.
    WrongPartCount(Part),
    /// No option is written so, or two options rule each other out.
    Syntax,
    /// A number of 64 bits with a sign is expected.
    NoNumber,
    /// The number to subtract has no negative.
    NoDecrement,
    /// The sum is no number of 64 bits with a sign.
    Overflow,
    /// A cursor is expected.
    NoCursor,
    /// There is one database, of number 0.
    NoDatabase,
    /// A number of milliseconds is expected.
    NoTimeout,
    /// It is negative.
    NegativeTimeout,
    /// The name or the value is longer than the store's are.
    TooLarge,
    /// The name is not there.
    NoName,
    /// A name is to be copied to itself.
    SameName,
}
