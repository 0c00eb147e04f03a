ghost use Rattle.std.specs.Prelude.{◌≡◌, ◌++◌, IfOk, OnOk, take};
ghost use Rattle.named_words.specs.Forms.{texts};
ghost use Rattle.named_words.specs.Refusals;
ghost use Rattle.named_words.specs.Refusals.{count_text, first_of, others_of, second_of, shown_behind, text_of};

use crate::refusal::Refusal;
use crate::verb::Verb;
use oper_core::Memory;
use std::alloc::Global;

// The first bytes of a word, so many at most.
fn front(word: &[u8], most: usize) -> &[u8]
    ensures { result.now ≡ take most word.now }
{
    if word.len() <= most {
        return word;
    }
    &word[..most]
}

// Appends words between quotes.
fn push_shown(text: &mut Vec<u8>, words: &[&[u8]]) -> Result<(), Memory>
    ensures { OnOk result (text.new.items ≡ text.old.items ++ shown_behind 0 (texts words.now)) }
{
    let mut shown = 0;
    for word in words {
        if shown >= 128 {
            return Ok(());
        }
        let part = front(word, 128 - shown);
        text.push(b'\'')?;
        text.extend_from_slice(part)?;
        text.extend_from_slice(b"' ")?;
        shown += part.len() + 3;
    }
    Ok(())
}

// The first word, if there is one.
fn first<'a>(words: &[&'a [u8]]) -> &'a [u8]
    ensures { result.now ≡ first_of (texts words.now) }
{
    match words {
        [name, ..] => name,
        [] => b"",
    }
}

// The words behind the first.
fn others<'a>(words: &'a [&'a [u8]]) -> &'a [&'a [u8]]
    ensures { texts result.now ≡ others_of (texts words.now) }
{
    match words {
        [_, rest @ ..] => rest,
        [] => words,
    }
}

// The text for a command that there is not.
fn unknown_text(alloc: Global, words: &[&[u8]]) -> Result<Vec<u8>, Memory>
    ensures { IfOk result (λ text. text.items ≡ Refusals.unknown_text (texts words.now)) }
{
    let mut text = Vec::from_slice(alloc, b"ERR unknown command '")?;
    text.extend_from_slice(front(first(words), 128))?;
    text.extend_from_slice(b"', with args beginning with: ")?;
    push_shown(&mut text, others(words))?;
    Ok(text)
}

// The second word, if there is one.
fn second<'a>(words: &[&'a [u8]]) -> &'a [u8]
    ensures { result.now ≡ second_of (texts words.now) }
{
    match words {
        [_, part, ..] => part,
        _ => b"",
    }
}

// The text for a second word that a command does not have.
fn unknown_part_text(alloc: Global, verb: Verb, words: &[&[u8]]) -> Result<Vec<u8>, Memory>
    ensures { IfOk result (λ text. text.items ≡ Refusals.unknown_part_text verb (texts words.now)) }
{
    let name = verb.name().to_ascii_uppercase(alloc)?;
    let mut text = Vec::from_slice(alloc, b"ERR unknown subcommand '")?;
    text.extend_from_slice(front(second(words), 128))?;
    text.extend_from_slice(b"'. Try ")?;
    text.extend_from_slice(&name)?;
    text.extend_from_slice(b" HELP.")?;
    Ok(text)
}

// The text for a number of words that a command does not have.
fn wrong_count_text(alloc: Global, name: &[u8]) -> Result<Vec<u8>, Memory>
    ensures { IfOk result (λ text. text.items ≡ count_text name.now) }
{
    let mut text = Vec::from_slice(alloc, b"ERR wrong number of arguments for '")?;
    text.extend_from_slice(name)?;
    text.extend_from_slice(b"' command")?;
    Ok(text)
}

// A text as it stands.
fn copied(alloc: Global, text: &[u8]) -> Result<Vec<u8>, Memory>
    ensures { IfOk result (λ copy. copy.items ≡ text.now) }
{
    Ok(Vec::from_slice(alloc, text)?)
}

impl Refusal {
    /// What a client is answered to a command of these words, as Redis says it.
    pub fn text(&self, alloc: Global, words: &[&[u8]]) -> Result<Vec<u8>, Memory>
        ensures { IfOk result (λ text. text.items ≡ text_of self.now (texts words.now)) }
    {
        match self {
            Refusal::Unknown => unknown_text(alloc, words),
            Refusal::UnknownPart(verb) => unknown_part_text(alloc, *verb, words),
            Refusal::WrongCount(verb) => wrong_count_text(alloc, verb.name()),
            Refusal::WrongPartCount(part) => wrong_count_text(alloc, part.name()),
            Refusal::Syntax => copied(alloc, b"ERR syntax error"),
            Refusal::NoNumber => copied(alloc, b"ERR value is not an integer or out of range"),
            Refusal::NoDecrement => copied(alloc, b"ERR decrement would overflow"),
            Refusal::Overflow => copied(alloc, b"ERR increment or decrement would overflow"),
            Refusal::NoCursor => copied(alloc, b"ERR invalid cursor"),
            Refusal::NoDatabase => copied(alloc, b"ERR DB index is out of range"),
            Refusal::NoTimeout => copied(alloc, b"ERR timeout is not an integer or out of range"),
            Refusal::NegativeTimeout => copied(alloc, b"ERR timeout is negative"),
            Refusal::TooLarge => {
                copied(
                    alloc,
                    b"ERR string exceeds maximum allowed size (proto-max-bulk-len)",
                )
            },
            Refusal::NoName => copied(alloc, b"ERR no such key"),
            Refusal::SameName => copied(alloc, b"ERR source and destination objects are the same"),
        }
    }
}
