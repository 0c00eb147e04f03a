use crate::protocol_error::ProtocolError;

/// What the bytes that have come begin with.
#[derive(Debug, Drop)]
pub enum Found<T: Drop> {
    /// All of it has come.
    Whole(T),
    /// A part of it may have come.
    More,
    /// Whatever comes, it will not be one.
    Bad(ProtocolError),
}

/// A command, whose words lie in the bytes that it was read from.
#[derive(Debug, Drop)]
pub struct Command<'a> {
    /// The words. There is none where a client sent an empty line or an empty array, which Redis passes over.
    pub words: Vec<&'a [u8]>,
    /// The command took so many bytes.
    pub used: usize,
}
