use named_words::{NameRequest, Refusal, SessionRequest};
use resp_words::Reply;

/// A word that opens, ends or guards what is done at once, or ends the session.
#[derive(Clone, Copy)]
pub enum BracketWord<'a> {
    Opens,
    Does,
    Drops,
    Guards(&'a [&'a [u8]]),
    Leaves,
}

/// A word on the session itself.
#[derive(Clone, Copy)]
pub enum OwnWord<'a> {
    Pong,
    Text(&'a [u8]),
    Granted,
    Unguards,
    CallIt(&'a [u8]),
    ItsTitle,
    ItsNumber,
    AllClients,
}

/// What a command is to a session.
#[derive(Clone, Copy)]
pub enum SortedWord<'a> {
    Bracket(BracketWord<'a>),
    Own(OwnWord<'a>),
    OfServer(SessionRequest<'a>),
    OnNames(NameRequest<'a>),
    Refused(Refusal),
}

/// What is still to be done of a command.
#[derive(Clone, Copy)]
pub enum NextStep {
    Says(Reply<'static>),
    Now,
    All,
}
