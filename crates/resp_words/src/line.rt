ghost use Rattle.std.specs.Prelude.{◌≢◌, ◌<◌, IfNone, IfOk, IfSome, length, map, slice_index};
ghost use Rattle.resp_words.specs.Faults.{IsLineFault};
ghost use Rattle.resp_words.specs.Reading.{Reads};
ghost use Rattle.resp_words.specs.Commands.{HasCause, IsCommand};
ghost use Rattle.resp_words.specs.Lines.{AreWords, IsFirstWord, IsPlainLine};
ghost use Rattle.resp_words.specs.Runs.{AllPass, is_blank};

use crate::found::Found;
use crate::kind::Kind;
use crate::limits::Limits;
use crate::protocol_error::ProtocolError;
use crate::run::split_run;
use oper_core::Memory;
use std::alloc::Global;

// The first word of a line, and what follows it.
fn next_in_line(line: &[u8]) -> Option<(&[u8], &[u8])>
    ensures some { IfSome result (λ found. IsFirstWord line.now found.0.now found.1.now) }
    ensures none { IfNone result (AllPass is_blank line.now) }
{
    let (_, behind) = split_run(Kind::Blank, line);
    if behind.is_empty() {
        return None;
    }
    Some(split_run(Kind::Solid, behind))
}

// The words of a line.
fn words_in_line(alloc: Global, line: &[u8]) -> Result<Vec<&[u8]>, Memory>
    ensures { IfOk result (λ words. AreWords line.now (map (λ word. word.now) words.items)) }
{
    let mut words = Vec::new(alloc);
    let mut rest = line;
    while let Some((word, behind)) = next_in_line(rest) {
        words.push(word)?;
        rest = behind;
    }
    Ok(words)
}

// The line that these bytes begin with, without its end, and what follows.
fn next_plain(bytes: &[u8], most: u32) -> Found<(&[u8], &[u8])>
    ensures { Reads (IsPlainLine most) (λ x. x.0.now) (λ x. x.1.now) (IsLineFault most bytes.now) bytes.now result }
{
    let (line, rest) = split_run(Kind::Plain, bytes);
    if line.len() >= most as usize {
        return Found::Bad(ProtocolError::LongLine);
    }
    let Some((end, behind)) = rest.split_first() else {
        return Found::More;
    };
    if *end != b'\n' {
        return Found::Bad(ProtocolError::BadByte);
    }
    Found::Whole((line, behind))
}

/// The words of a command in one line, which these bytes begin with, and what follows.
pub(crate) fn next_line<'a>(
    alloc: Global,
    bytes: &'a [u8],
    limits: Limits,
) -> Result<Found<(Vec<&'a [u8]>, &'a [u8])>, Memory>
    requires some { 0 < length bytes.now }
    requires other { slice_index bytes.now 0 ≢ 42 }
    ensures { IfOk result (λ found. Reads (IsCommand limits) (λ x. map (λ word. word.now) x.0.items) (λ x. x.1.now) (HasCause limits bytes.now) bytes.now found) }
{
    match next_plain(bytes, limits.line) {
        Found::Whole((line, rest)) => Ok(Found::Whole((words_in_line(alloc, line)?, rest))),
        Found::More => Ok(Found::More),
        Found::Bad(error) => Ok(Found::Bad(error)),
    }
}
