ghost use Rattle.std.specs.Prelude.{◌≡◌};
ghost use Rattle.named_words.specs.Forms.{texts};
ghost use Rattle.named_words.specs.Reading.{request_of};
ghost use Rattle.named_words.specs.Requests.{asked_of_session};
ghost use Rattle.client_sessions.specs.Sorted.{sorted, sorted_word};
ghost use Rattle.client_sessions.specs.Words.{sorted_seen};

use crate::sorted_word::{BracketWord, OwnWord, SortedWord};
use named_words::{Refusal, Request, SessionRequest};

// What a word on the session or the server is.
fn sort_word(request: SessionRequest<'_>) -> SortedWord<'_>
    ensures { sorted_seen result ≡ sorted_word (asked_of_session request.entry) }
{
    match request {
        SessionRequest::Ping(None) => SortedWord::Own(OwnWord::Pong),
        SessionRequest::Ping(Some(text)) => SortedWord::Own(OwnWord::Text(text)),
        SessionRequest::Echo(text) => SortedWord::Own(OwnWord::Text(text)),
        SessionRequest::Select => SortedWord::Own(OwnWord::Granted),
        SessionRequest::SetClientInfo => SortedWord::Own(OwnWord::Granted),
        SessionRequest::Unwatch => SortedWord::Own(OwnWord::Unguards),
        SessionRequest::SetClientName(title) => SortedWord::Own(OwnWord::CallIt(title)),
        SessionRequest::GetClientName => SortedWord::Own(OwnWord::ItsTitle),
        SessionRequest::ClientId => SortedWord::Own(OwnWord::ItsNumber),
        SessionRequest::ListClients => SortedWord::Own(OwnWord::AllClients),
        SessionRequest::Multi => SortedWord::Bracket(BracketWord::Opens),
        SessionRequest::Exec => SortedWord::Bracket(BracketWord::Does),
        SessionRequest::Discard => SortedWord::Bracket(BracketWord::Drops),
        SessionRequest::Watch(names) => SortedWord::Bracket(BracketWord::Guards(names)),
        SessionRequest::Quit => SortedWord::Bracket(BracketWord::Leaves),
        SessionRequest::ListCommands
        | SessionRequest::CountCommands
        | SessionRequest::DescribeCommands(_)
        | SessionRequest::GetConfig(_)
        | SessionRequest::Info(_)
        | SessionRequest::Wait { .. }
        | SessionRequest::BgSave
        | SessionRequest::Shutdown => SortedWord::OfServer(request),
    }
}

/// What a command is to a session, by its name and the words behind it.
pub(crate) fn sort<'a>(name: &[u8], words: &'a [&'a [u8]]) -> SortedWord<'a>
    ensures { sorted_seen result ≡ sorted (request_of name.now (texts words.now)) }
{
    match Request::of(name, words) {
        Ok(Request::Names(request)) => SortedWord::OnNames(request),
        Ok(Request::Session(request)) => sort_word(request),
        Err(refusal) => SortedWord::Refused(refusal),
    }
}

/// Tells whether Redis refuses so as a command comes.
pub(crate) fn is_early(refusal: Refusal) -> bool
    ensures { result ≡ Rattle.client_sessions.specs.Sorted.is_early refusal }
{
    match refusal {
        Refusal::Unknown
        | Refusal::UnknownPart(_)
        | Refusal::WrongCount(_)
        | Refusal::WrongPartCount(_) => true,
        _ => false,
    }
}
