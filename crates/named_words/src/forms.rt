ghost use Rattle.std.specs.Prelude.{◌≡◌};
ghost use Rattle.named_words.specs.Forms.{even, none, one, one_and_more, seen, some, texts, three, two, two_and_more};

use crate::refusal::Refusal;

/// No word.
pub(crate) fn no_word(wrong: Refusal, words: &[&[u8]]) -> Result<(), Refusal>
    ensures { result ≡ none wrong (texts words.now) }
{
    match words {
        [] => Ok(()),
        _ => Err(wrong),
    }
}

/// One word.
pub(crate) fn one_word<'a>(wrong: Refusal, words: &[&'a [u8]]) -> Result<&'a [u8], Refusal>
    ensures { seen (λ x. x.now) result ≡ one wrong (texts words.now) }
{
    match words {
        [first] => Ok(first),
        _ => Err(wrong),
    }
}

/// Two words.
pub(crate) fn two_words<'a>(
    wrong: Refusal,
    words: &[&'a [u8]],
) -> Result<(&'a [u8], &'a [u8]), Refusal>
    ensures { seen (λ x. (x.0.now, x.1.now)) result ≡ two wrong (texts words.now) }
{
    match words {
        [first, second] => Ok((first, second)),
        _ => Err(wrong),
    }
}

/// Three words.
pub(crate) fn three_words<'a>(
    wrong: Refusal,
    words: &[&'a [u8]],
) -> Result<(&'a [u8], &'a [u8], &'a [u8]), Refusal>
    ensures { seen (λ x. (x.0.now, x.1.now, x.2.now)) result ≡ three wrong (texts words.now) }
{
    match words {
        [first, second, third] => Ok((first, second, third)),
        _ => Err(wrong),
    }
}

/// One word or more.
pub(crate) fn some_words<'a>(
    wrong: Refusal,
    words: &'a [&'a [u8]],
) -> Result<&'a [&'a [u8]], Refusal>
    ensures { seen (λ x. texts x.now) result ≡ some wrong (texts words.now) }
{
    match words {
        [] => Err(wrong),
        _ => Ok(words),
    }
}

/// A word, and others.
pub(crate) fn word_and_more<'a>(
    wrong: Refusal,
    words: &'a [&'a [u8]],
) -> Result<(&'a [u8], &'a [&'a [u8]]), Refusal>
    ensures { seen (λ x. (x.0.now, texts x.1.now)) result ≡ one_and_more wrong (texts words.now) }
{
    match words {
        [first, rest @ ..] => Ok((first, rest)),
        _ => Err(wrong),
    }
}

/// Two words, and others.
pub(crate) fn two_and_rest<'a>(
    wrong: Refusal,
    words: &'a [&'a [u8]],
) -> Result<(&'a [u8], &'a [u8], &'a [&'a [u8]]), Refusal>
    ensures { seen (λ x. (x.0.now, x.1.now, texts x.2.now)) result ≡ two_and_more wrong (texts words.now) }
{
    match words {
        [first, second, rest @ ..] => Ok((first, second, rest)),
        _ => Err(wrong),
    }
}

/// An even number of words.
pub(crate) fn even_words<'a>(
    wrong: Refusal,
    words: &'a [&'a [u8]],
) -> Result<&'a [&'a [u8]], Refusal>
    ensures { seen (λ x. texts x.now) result ≡ even wrong (texts words.now) }
{
    if words.len() % 2 == 0 {
        Ok(words)
    } else {
        Err(wrong)
    }
}
