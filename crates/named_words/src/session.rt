ghost use Rattle.std.specs.Prelude.{◌≡◌};
ghost use Rattle.named_words.specs.Forms.{seen, texts};
ghost use Rattle.named_words.specs.Reading.{alone_asked, client_asked, command_asked, config_asked, ping_asked, select_asked, session_asked, shutdown_asked};
ghost use Rattle.named_words.specs.Requests.{asked_of_session};

use crate::forms::{no_word, one_word, some_words, two_words, word_and_more};
use crate::number::integer;
use crate::options::{are_among, timeout};
use crate::refusal::Refusal;
use crate::request::SessionRequest;
use crate::verb::{Part, SessionVerb, Verb};
use crate::word::is_word;

// A text, or none.
fn ping<'a>(wrong: Refusal, words: &[&'a [u8]]) -> Result<SessionRequest<'a>, Refusal>
    ensures { seen asked_of_session result ≡ ping_asked wrong (texts words.now) }
{
    match words {
        [] => Ok(SessionRequest::Ping(None)),
        [text] => Ok(SessionRequest::Ping(Some(text))),
        _ => Err(wrong),
    }
}

// A request of one database.
fn select<'a>(number: i64) -> Result<SessionRequest<'a>, Refusal>
    ensures { seen asked_of_session result ≡ select_asked number }
{
    if number != 0 {
        return Err(Refusal::NoDatabase);
    }
    Ok(SessionRequest::Select)
}

// A request that no word follows.
fn alone<'a>(
    request: SessionRequest<'a>,
    wrong: Refusal,
    words: &[&[u8]],
) -> Result<SessionRequest<'a>, Refusal>
    ensures { seen asked_of_session result ≡ alone_asked (asked_of_session request.entry) wrong (texts words.now) }
{
    no_word(wrong, words)?;
    Ok(request)
}

// What stands behind CLIENT.
fn client<'a>(part: &[u8], words: &[&'a [u8]]) -> Result<SessionRequest<'a>, Refusal>
    ensures { seen asked_of_session result ≡ client_asked part.now (texts words.now) }
{
    if is_word(part, b"setname") {
        let name = one_word(Refusal::WrongPartCount(Part::ClientSetName), words)?;
        return Ok(SessionRequest::SetClientName(name));
    }
    if is_word(part, b"getname") {
        let wrong = Refusal::WrongPartCount(Part::ClientGetName);
        return alone(SessionRequest::GetClientName, wrong, words);
    }
    if is_word(part, b"id") {
        let wrong = Refusal::WrongPartCount(Part::ClientId);
        return alone(SessionRequest::ClientId, wrong, words);
    }
    if is_word(part, b"list") {
        return alone(SessionRequest::ListClients, Refusal::Syntax, words);
    }
    if is_word(part, b"setinfo") {
        two_words(Refusal::WrongPartCount(Part::ClientSetInfo), words)?;
        return Ok(SessionRequest::SetClientInfo);
    }
    Err(Refusal::UnknownPart(Verb::Session(SessionVerb::Client)))
}

// What stands behind COMMAND.
fn command<'a>(words: &'a [&'a [u8]]) -> Result<SessionRequest<'a>, Refusal>
    ensures { seen asked_of_session result ≡ command_asked (texts words.now) }
{
    let Some((part, words)) = words.split_first() else {
        return Ok(SessionRequest::ListCommands);
    };
    if is_word(part, b"count") {
        let wrong = Refusal::WrongPartCount(Part::CommandCount);
        return alone(SessionRequest::CountCommands, wrong, words);
    }
    if is_word(part, b"docs") {
        return Ok(SessionRequest::DescribeCommands(words));
    }
    Err(Refusal::UnknownPart(Verb::Session(SessionVerb::Command)))
}

// What stands behind CONFIG.
fn config<'a>(part: &[u8], words: &'a [&'a [u8]]) -> Result<SessionRequest<'a>, Refusal>
    ensures { seen asked_of_session result ≡ config_asked part.now (texts words.now) }
{
    if is_word(part, b"get") {
        let names = some_words(Refusal::WrongPartCount(Part::ConfigGet), words)?;
        return Ok(SessionRequest::GetConfig(names));
    }
    Err(Refusal::UnknownPart(Verb::Session(SessionVerb::Config)))
}

// How the server is to end.
fn shutdown<'a>(options: &[&[u8]]) -> Result<SessionRequest<'a>, Refusal>
    ensures { seen asked_of_session result ≡ shutdown_asked (texts options.now) }
{
    if !are_among(options, &[b"save", b"nosave", b"now", b"force"]) {
        return Err(Refusal::Syntax);
    }
    Ok(SessionRequest::Shutdown)
}

// For how many standbys an answer waits, and how long.
fn wait<'a>(wrong: Refusal, words: &[&'a [u8]]) -> Result<SessionRequest<'a>, Refusal>
    ensures { seen asked_of_session result ≡ session_asked SessionVerb.Wait wrong (texts words.now) }
{
    let (standbys, milliseconds) = two_words(wrong, words)?;
    let standbys = integer(standbys)?;
    let milliseconds = timeout(milliseconds)?;
    Ok(SessionRequest::Wait {
        standbys,
        milliseconds,
    })
}

/// What a command on the connection or the server asks, by the words behind its name.
pub(crate) fn session_request<'a>(
    verb: SessionVerb,
    wrong: Refusal,
    words: &'a [&'a [u8]],
) -> Result<SessionRequest<'a>, Refusal>
    ensures { seen asked_of_session result ≡ session_asked verb wrong (texts words.now) }
{
    match verb {
        SessionVerb::Ping => ping(wrong, words),
        SessionVerb::Echo => Ok(SessionRequest::Echo(one_word(wrong, words)?)),
        SessionVerb::Select => select(integer(one_word(wrong, words)?)?),
        SessionVerb::Quit => Ok(SessionRequest::Quit),
        SessionVerb::Multi => alone(SessionRequest::Multi, wrong, words),
        SessionVerb::Exec => alone(SessionRequest::Exec, wrong, words),
        SessionVerb::Discard => alone(SessionRequest::Discard, wrong, words),
        SessionVerb::Watch => Ok(SessionRequest::Watch(some_words(wrong, words)?)),
        SessionVerb::Unwatch => alone(SessionRequest::Unwatch, wrong, words),
        SessionVerb::Client => {
            let (part, words) = word_and_more(wrong, words)?;
            client(part, words)
        }
        SessionVerb::Command => command(words),
        SessionVerb::Config => {
            let (part, words) = word_and_more(wrong, words)?;
            config(part, words)
        }
        SessionVerb::Info => Ok(SessionRequest::Info(words)),
        SessionVerb::Wait => wait(wrong, words),
        SessionVerb::BgSave => alone(SessionRequest::BgSave, Refusal::Syntax, words),
        SessionVerb::Shutdown => shutdown(words),
    }
}
