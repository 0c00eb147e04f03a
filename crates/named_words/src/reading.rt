ghost use Rattle.std.specs.Prelude.{◌≡◌};
ghost use Rattle.named_words.specs.Forms.{seen, texts};
ghost use Rattle.named_words.specs.Reading.{request_of, verb_asked};
ghost use Rattle.named_words.specs.Requests.{asked};

use crate::names::name_request;
use crate::refusal::Refusal;
use crate::request::Request;
use crate::session::session_request;
use crate::values::value_request;
use crate::verb::Verb;

impl<'a> Request<'a> {
    // What a command asks, by the words behind its name.
    fn by(verb: Verb, words: &'a [&'a [u8]]) -> Result<Request<'a>, Refusal>
        ensures { seen asked result ≡ verb_asked verb (texts words.now) }
    {
        let wrong = Refusal::WrongCount(verb);
        match verb {
            Verb::Values(verb) => Ok(Request::Names(value_request(verb, wrong, words)?)),
            Verb::Names(verb) => Ok(Request::Names(name_request(verb, wrong, words)?)),
            Verb::Session(verb) => Ok(Request::Session(session_request(verb, wrong, words)?)),
        }
    }

    /// What the words of a command ask, which are its name and those that follow it, or why it is refused.
    pub fn of(name: &[u8], words: &'a [&'a [u8]]) -> Result<Request<'a>, Refusal>
        ensures { seen asked result ≡ request_of name.now (texts words.now) }
    {
        match Verb::of(name) {
            Some(verb) => Request::by(verb, words),
            None => Err(Refusal::Unknown),
        }
    }
}
