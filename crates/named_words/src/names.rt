ghost use Rattle.std.specs.Prelude.{◌≡◌};
ghost use Rattle.named_words.specs.Forms.{seen, texts};
ghost use Rattle.named_words.specs.Reading.{names_asked};
ghost use Rattle.named_words.specs.Requests.{asked_of_names};

use crate::forms::{no_word, one_word, some_words, two_and_rest, two_words, word_and_more};
use crate::options::{copy_request, scan_request};
use crate::refusal::Refusal;
use crate::request::NameRequest;
use crate::verb::NameVerb;

/// What a command on names asks, by the words behind its name.
pub(crate) fn name_request<'a>(
    verb: NameVerb,
    wrong: Refusal,
    words: &'a [&'a [u8]],
) -> Result<NameRequest<'a>, Refusal>
    ensures { seen asked_of_names result ≡ names_asked verb wrong (texts words.now) }
{
    match verb {
        NameVerb::Del => Ok(NameRequest::Del(some_words(wrong, words)?)),
        NameVerb::Exists => Ok(NameRequest::Exists(some_words(wrong, words)?)),
        NameVerb::Copy => {
            let (from, to, options) = two_and_rest(wrong, words)?;
            copy_request(from, to, options)
        }
        NameVerb::Rename => {
            let (from, to) = two_words(wrong, words)?;
            Ok(NameRequest::Rename { from, to })
        }
        NameVerb::RandomKey => {
            no_word(wrong, words)?;
            Ok(NameRequest::RandomKey)
        }
        NameVerb::DbSize => {
            no_word(wrong, words)?;
            Ok(NameRequest::DbSize)
        }
        NameVerb::Scan => {
            let (cursor, options) = word_and_more(wrong, words)?;
            scan_request(cursor, options)
        }
        NameVerb::Keys => Ok(NameRequest::Keys(one_word(wrong, words)?)),
    }
}
