ghost use Rattle.std.specs.Prelude.{◌≡◌, option_map};
ghost use Rattle.std.specs.List.{list_any};
ghost use Rattle.named_words.specs.Forms.{seen, texts};
ghost use Rattle.named_words.specs.Reading.{copy_asked, count_at, cursor_at, scan_asked, scan_words, set_asked, timeout_at, when_of};
ghost use Rattle.named_words.specs.Numbers.{number_of};
ghost use Rattle.named_words.specs.Reading;
ghost use Rattle.named_words.specs.Requests.{asked_of_names};
ghost use Rattle.named_words.specs.Verbs;

use crate::number::{integer, read_number};
use crate::refusal::Refusal;
use crate::request::NameRequest;
use crate::when::When;
use crate::word::is_word;

/// Tells whether one of the options is a word.
pub(crate) fn has(options: &[&[u8]], word: &[u8]) -> bool
    ensures { result ≡ Reading.has (texts options.now) word.now }
{
    for option in options {
        if is_word(option, word) {
            return true;
        }
    }
    false
}

// Tells whether an option is one of the words.
fn is_among(option: &[u8], words: &[&[u8]]) -> bool
    ensures { result ≡ list_any (Verbs.is_word option.now) (texts words.now) }
{
    for word in words {
        if is_word(option, word) {
            return true;
        }
    }
    false
}

/// Tells whether each option is one of the words.
pub(crate) fn are_among(options: &[&[u8]], words: &[&[u8]]) -> bool
    ensures { result ≡ Reading.are_among (texts options.now) (texts words.now) }
{
    for option in options {
        if !is_among(option, words) {
            return false;
        }
    }
    true
}

// What NX and XX say.
fn when(missing: bool, there: bool) -> Result<When, Refusal>
    ensures { result ≡ when_of missing there }
{
    match (missing, there) {
        (false, false) => Ok(When::Always),
        (true, false) => Ok(When::Missing),
        (false, true) => Ok(When::There),
        (true, true) => Err(Refusal::Syntax),
    }
}

/// SET with its options.
pub(crate) fn set_request<'a>(
    name: &'a [u8],
    value: &'a [u8],
    options: &[&[u8]],
) -> Result<NameRequest<'a>, Refusal>
    ensures { seen asked_of_names result ≡ set_asked name.now value.now (texts options.now) }
{
    if !are_among(options, &[b"nx", b"xx", b"get"]) {
        return Err(Refusal::Syntax);
    }
    let when = when(has(options, b"nx"), has(options, b"xx"))?;
    let back = has(options, b"get");
    Ok(NameRequest::Set {
        name,
        value,
        when,
        back,
    })
}

/// COPY with its option.
pub(crate) fn copy_request<'a>(
    from: &'a [u8],
    to: &'a [u8],
    options: &[&[u8]],
) -> Result<NameRequest<'a>, Refusal>
    ensures { seen asked_of_names result ≡ copy_asked from.now to.now (texts options.now) }
{
    if !are_among(options, &[b"replace"]) {
        return Err(Refusal::Syntax);
    }
    let replace = has(options, b"replace");
    Ok(NameRequest::Copy { from, to, replace })
}

// A cursor of SCAN.
fn cursor(text: &[u8]) -> Result<u64, Refusal>
    ensures { result ≡ cursor_at (number_of text.now) }
{
    match read_number(text) {
        Some(number) if number >= 0 => Ok(number as u64),
        _ => Err(Refusal::NoCursor),
    }
}

// A count of SCAN.
fn count_given(number: i64) -> Result<u64, Refusal>
    ensures { result ≡ count_at number }
{
    if number < 1 {
        return Err(Refusal::Syntax);
    }
    Ok(number as u64)
}

/// The most milliseconds of a WAIT.
pub(crate) fn timeout(text: &[u8]) -> Result<u64, Refusal>
    ensures { result ≡ timeout_at (number_of text.now) }
{
    match read_number(text) {
        Some(number) if number >= 0 => Ok(number as u64),
        Some(_) => Err(Refusal::NegativeTimeout),
        None => Err(Refusal::NoTimeout),
    }
}

// An option of SCAN, after a pattern and a count.
fn scan_option<'a>(
    pattern: Option<&'a [u8]>,
    count: u64,
    word: &[u8],
    given: &'a [u8],
) -> Result<(Option<&'a [u8]>, u64), Refusal>
    ensures { seen (λ x. (option_map (λ text. text.now) x.0, x.1)) result
        ≡ Reading.scan_option (option_map (λ text. text.now) pattern.entry) count word.now given.now }
{
    if is_word(word, b"match") {
        return Ok((Some(given), count));
    }
    if is_word(word, b"count") {
        let count = count_given(integer(given)?)?;
        return Ok((pattern, count));
    }
    Err(Refusal::Syntax)
}

// SCAN with its options.
#[tactic(auto, using(crate::proofs::Pairs::scan_step, crate::proofs::Pairs::scan_refused))]
fn scan_from<'a>(cursor: u64, options: &'a [&'a [u8]]) -> Result<NameRequest<'a>, Refusal>
    ensures { seen asked_of_names result ≡ scan_asked cursor None 10 (texts options.now) }
{
    let mut pattern = None;
    let mut count = 10;
    let mut rest = options;
    while let [word, given, behind @ ..] = rest {
        (pattern, count) = scan_option(pattern, count, word, given)?;
        rest = behind;
    }
    if !rest.is_empty() {
        return Err(Refusal::Syntax);
    }
    Ok(NameRequest::Scan {
        cursor,
        pattern,
        count,
    })
}

/// SCAN with its cursor and its options.
pub(crate) fn scan_request<'a>(
    text: &[u8],
    options: &'a [&'a [u8]],
) -> Result<NameRequest<'a>, Refusal>
    ensures { seen asked_of_names result ≡ scan_words text.now (texts options.now) }
{
    let cursor = cursor(text)?;
    scan_from(cursor, options)
}
