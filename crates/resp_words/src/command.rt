ghost use Rattle.std.specs.Prelude.{IfOk, map};
ghost use Rattle.resp_words.specs.Commands.{Finds, HasCause, IsCommand};
ghost use Rattle.resp_words.specs.Reading.{Reads};

use crate::array::next_array;
use crate::found::{Command, Found};
use crate::limits::Limits;
use crate::line::next_line;
use oper_core::Memory;
use std::alloc::Global;

// The words of the command that these bytes begin with, and what follows it.
fn next_words<'a>(
    alloc: Global,
    bytes: &'a [u8],
    limits: Limits,
) -> Result<Found<(Vec<&'a [u8]>, &'a [u8])>, Memory>
    ensures { IfOk result (λ found. Reads (IsCommand limits) (λ x. map (λ word. word.now) x.0.items) (λ x. x.1.now) (HasCause limits bytes.now) bytes.now found) }
{
    let Some((first, rest)) = bytes.split_first() else {
        return Ok(Found::More);
    };
    if *first == b'*' {
        return next_array(alloc, rest, limits);
    }
    next_line(alloc, bytes, limits)
}

/// The command that the bytes begin with, which are those that have come and were not used yet.
///
/// It is found once all of it has come; more is asked for exactly as long as the bytes may still become one, and they are bad
/// as soon as no bytes more would make them begin with a command. Memory is taken for words that have come, and for nothing
/// that a client only says it will send.
pub fn next_command<'a>(
    alloc: Global,
    bytes: &'a [u8],
    limits: Limits,
) -> Result<Found<Command<'a>>, Memory>
    ensures { IfOk result (λ found. Finds limits bytes.now found) }
{
    match next_words(alloc, bytes, limits)? {
        Found::Whole((words, rest)) => Ok(Found::Whole(Command {
            words,
            used: bytes.len() - rest.len(),
        })),
        Found::More => Ok(Found::More),
        Found::Bad(error) => Ok(Found::Bad(error)),
    }
}
