ghost use Rattle.std.specs.Prelude.{◌≡◌};
ghost use Rattle.named_words.specs.Forms.{seen, texts};
ghost use Rattle.named_words.specs.Reading.{counted_asked, values_asked};
ghost use Rattle.named_words.specs.Requests.{asked_of_names};

use crate::forms::{even_words, one_word, some_words, three_words, two_and_rest, two_words};
use crate::number::{integer, negated};
use crate::options::set_request;
use crate::refusal::Refusal;
use crate::request::NameRequest;
use crate::verb::ValueVerb;

// A part of a value.
fn get_range<'a>(wrong: Refusal, words: &[&'a [u8]]) -> Result<NameRequest<'a>, Refusal>
    ensures { seen asked_of_names result ≡ values_asked ValueVerb.GetRange wrong (texts words.now) }
{
    let (name, from, to) = three_words(wrong, words)?;
    let from = integer(from)?;
    let to = integer(to)?;
    Ok(NameRequest::GetRange { name, from, to })
}

// A number is added.
fn incr_by<'a>(wrong: Refusal, words: &[&'a [u8]]) -> Result<NameRequest<'a>, Refusal>
    ensures { seen asked_of_names result ≡ values_asked ValueVerb.IncrBy wrong (texts words.now) }
{
    let (name, text) = two_words(wrong, words)?;
    let by = integer(text)?;
    Ok(NameRequest::IncrBy { name, by })
}

// A number is subtracted.
fn decr_by<'a>(wrong: Refusal, words: &[&'a [u8]]) -> Result<NameRequest<'a>, Refusal>
    ensures { seen asked_of_names result ≡ values_asked ValueVerb.DecrBy wrong (texts words.now) }
{
    let (name, text) = two_words(wrong, words)?;
    let by = negated(integer(text)?)?;
    Ok(NameRequest::IncrBy { name, by })
}

// A number is added that the command's name tells.
fn counted<'a>(wrong: Refusal, words: &[&'a [u8]], by: i64) -> Result<NameRequest<'a>, Refusal>
    ensures { seen asked_of_names result ≡ counted_asked wrong (texts words.now) by }
{
    let name = one_word(wrong, words)?;
    Ok(NameRequest::IncrBy { name, by })
}

// A value with its options.
fn set<'a>(wrong: Refusal, words: &'a [&'a [u8]]) -> Result<NameRequest<'a>, Refusal>
    ensures { seen asked_of_names result ≡ values_asked ValueVerb.Set wrong (texts words.now) }
{
    let (name, value, options) = two_and_rest(wrong, words)?;
    set_request(name, value, options)
}

// Names and values in turn.
fn m_set<'a>(wrong: Refusal, words: &'a [&'a [u8]]) -> Result<NameRequest<'a>, Refusal>
    ensures { seen asked_of_names result ≡ values_asked ValueVerb.MSet wrong (texts words.now) }
{
    let words = some_words(wrong, words)?;
    Ok(NameRequest::MSet(even_words(wrong, words)?))
}

/// What a command on values asks, by the words behind its name.
pub(crate) fn value_request<'a>(
    verb: ValueVerb,
    wrong: Refusal,
    words: &'a [&'a [u8]],
) -> Result<NameRequest<'a>, Refusal>
    ensures { seen asked_of_names result ≡ values_asked verb wrong (texts words.now) }
{
    match verb {
        ValueVerb::Get => Ok(NameRequest::Get(one_word(wrong, words)?)),
        ValueVerb::Set => set(wrong, words),
        ValueVerb::SetNx => {
            let (name, value) = two_words(wrong, words)?;
            Ok(NameRequest::SetNx(name, value))
        }
        ValueVerb::GetSet => {
            let (name, value) = two_words(wrong, words)?;
            Ok(NameRequest::GetSet(name, value))
        }
        ValueVerb::GetDel => Ok(NameRequest::GetDel(one_word(wrong, words)?)),
        ValueVerb::MGet => Ok(NameRequest::MGet(some_words(wrong, words)?)),
        ValueVerb::MSet => m_set(wrong, words),
        ValueVerb::StrLen => Ok(NameRequest::StrLen(one_word(wrong, words)?)),
        ValueVerb::Append => {
            let (name, more) = two_words(wrong, words)?;
            Ok(NameRequest::Append(name, more))
        }
        ValueVerb::GetRange => get_range(wrong, words),
        ValueVerb::Incr => counted(wrong, words, 1),
        ValueVerb::Decr => counted(wrong, words, -1),
        ValueVerb::IncrBy => incr_by(wrong, words),
        ValueVerb::DecrBy => decr_by(wrong, words),
    }
}
