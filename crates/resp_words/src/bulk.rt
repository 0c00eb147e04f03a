ghost use Rattle.std.specs.Prelude.{◌≡◌};
ghost use Rattle.resp_words.specs.Faults.{IsBulkFault};
ghost use Rattle.resp_words.specs.Reading.{Reads};
ghost use Rattle.resp_words.specs.declared.protocol_error.ProtocolError.TheVariants.{BadLength as NoLength};
ghost use Rattle.resp_words.specs.Commands.{IsBulk, IsEnded};

use crate::found::Found;
use crate::number::{line_end, next_number};
use crate::protocol_error::ProtocolError;

// So many bytes and the end of their line, and what follows.
fn next_bytes(bytes: &[u8], length: u32) -> Found<(&[u8], &[u8])>
    ensures { Reads (IsEnded length) (λ x. x.0.now) (λ x. x.1.now) (λ e. e ≡ NoLength) bytes.now result }
{
    if bytes.len() < length as usize {
        return Found::More;
    }
    let (word, behind) = bytes.split_at(length as usize);
    match line_end(behind, ProtocolError::BadLength) {
        Found::Whole(rest) => Found::Whole((word, rest)),
        Found::More => Found::More,
        Found::Bad(error) => Found::Bad(error),
    }
}

/// A word of the array form, which these bytes begin with, and what follows.
pub(crate) fn next_bulk(bytes: &[u8], most: u32) -> Found<(&[u8], &[u8])>
    ensures { Reads (IsBulk most) (λ x. x.0.now) (λ x. x.1.now) (IsBulkFault bytes.now) bytes.now result }
{
    let Some((first, rest)) = bytes.split_first() else {
        return Found::More;
    };
    if *first != b'$' {
        return Found::Bad(ProtocolError::NoDollar(char::from(*first)));
    }
    match next_number(rest, most, ProtocolError::BadLength) {
        Found::Whole((length, rest)) => next_bytes(rest, length),
        Found::More => Found::More,
        Found::Bad(error) => Found::Bad(error),
    }
}
