ghost use Rattle.std.specs.Prelude.{◌≡◌, ◌≢◌, ◌≤◌, ℕ, IfNone, IfSome};
ghost use Rattle.std.specs.Fmt.{decimal};
ghost use Rattle.resp_words.specs.Reading.{Reads};
ghost use Rattle.resp_words.specs.Commands.{IsLineEnd, IsNumberLine};
ghost use Rattle.resp_words.specs.Runs.{AllPass, is_digit};

use crate::found::Found;
use crate::kind::Kind;
use crate::protocol_error::ProtocolError;
use crate::run::split_run;

/// What follows the end of a line, which these bytes begin with.
pub(crate) fn line_end(bytes: &[u8], error: ProtocolError) -> Found<&[u8]>
    ensures { Reads IsLineEnd (λ _. tt) (λ rest. rest.now) (λ e. e ≡ error) bytes.now result }
{
    if bytes.is_empty() {
        return Found::More;
    }
    if bytes[0] != b'\r' {
        return Found::Bad(error);
    }
    if bytes.len() == 1 {
        return Found::More;
    }
    if bytes[1] != b'\n' {
        return Found::Bad(error);
    }
    Found::Whole(&bytes[2..])
}

// The number that digits are, without a zero in front, where it is not too great.
fn read_number(digits: &[u8], most: u32) -> Option<u32>
    requires { AllPass is_digit digits.now }
    ensures some { IfSome result (λ n. digits.now ≡ decimal n) }
    ensures small { IfSome result (λ n. n ≤ most) }
    ensures none { IfNone result ((n : ℕ) → n ≤ most → digits.now ≢ decimal n) }
{
    if digits.is_empty() {
        return None;
    }
    if digits.len() > 1 && digits[0] == b'0' {
        return None;
    }
    let mut number: u64 = 0;
    for digit in digits {
        number = 10 * number + (*digit - b'0') as u64;
        if number > most as u64 {
            return None;
        }
    }
    Some(number as u32)
}

/// A number in digits and the end of its line, which these bytes begin with, and what follows.
pub(crate) fn next_number(bytes: &[u8], most: u32, error: ProtocolError) -> Found<(u32, &[u8])>
    ensures { Reads (IsNumberLine most) (λ x. x.0) (λ x. x.1.now) (λ e. e ≡ error) bytes.now result }
{
    if bytes.is_empty() {
        return Found::More;
    }
    let (digits, rest) = split_run(Kind::Digit, bytes);
    let Some(number) = read_number(digits, most) else {
        return Found::Bad(error);
    };
    match line_end(rest, error) {
        Found::Whole(rest) => Found::Whole((number, rest)),
        Found::More => Found::More,
        Found::Bad(error) => Found::Bad(error),
    }
}
