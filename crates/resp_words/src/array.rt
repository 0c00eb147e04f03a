ghost use Rattle.std.specs.Prelude.{◌≡◌, ◌∷◌, IfOk, List, ℕ, map};
ghost use Rattle.resp_words.specs.Faults.{IsBulksFault};
ghost use Rattle.resp_words.specs.Reading.{Reads};
ghost use Rattle.resp_words.specs.Commands.{AreBulks, HasCause, IsCommand};

use crate::bulk::next_bulk;
use crate::found::Found;
use crate::limits::Limits;
use crate::number::next_number;
use crate::protocol_error::ProtocolError;
use oper_core::Memory;
use std::alloc::Global;

// So many words, and what follows them.
fn next_bulks<'a>(
    alloc: Global,
    bytes: &'a [u8],
    count: u32,
    most: u32,
) -> Result<Found<(Vec<&'a [u8]>, &'a [u8])>, Memory>
    ensures { IfOk result (λ found. Reads (AreBulks count most) (λ x. map (λ word. word.now) x.0.items) (λ x. x.1.now) (IsBulksFault count most bytes.now) bytes.now found) }
{
    let mut words = Vec::new(alloc);
    let mut rest = bytes;
    for _ in 0..count {
        match next_bulk(rest, most) {
            Found::Whole((word, behind)) => {
                words.push(word)?;
                rest = behind;
            }
            Found::More => return Ok(Found::More),
            Found::Bad(error) => return Ok(Found::Bad(error)),
        }
    }
    Ok(Found::Whole((words, rest)))
}

/// The words of a command in the array form, of which these are the bytes behind the star, and what follows.
pub(crate) fn next_array<'a>(
    alloc: Global,
    bytes: &'a [u8],
    limits: Limits,
) -> Result<Found<(Vec<&'a [u8]>, &'a [u8])>, Memory>
    ensures { IfOk result (λ found. Reads (IsCommand limits) (λ x. map (λ word. word.now) x.0.items) (λ x. x.1.now) (HasCause limits (42 ∷ bytes.now)) (42 ∷ bytes.now) found) }
{
    match next_number(bytes, limits.words, ProtocolError::BadCount) {
        Found::Whole((count, rest)) => next_bulks(alloc, rest, count, limits.bytes),
        Found::More => Ok(Found::More),
        Found::Bad(error) => Ok(Found::Bad(error)),
    }
}
