ghost use Rattle.std.specs.Prelude.{◌≡◌, ◌≢◌, ◌<◌, ◌≤◌, ◌^◌, ℕ, IfNone, IfOk, IfSome, option_map};
ghost use Rattle.std.specs.Fmt.{decimal, signed_decimal};
ghost use Rattle.named_words.specs.Numbers;
ghost use Rattle.named_words.specs.Numbers.{incremented_by, integer_of, number_of, sum};

use crate::refusal::Refusal;
use oper_core::Memory;
use std::alloc::Global;

// The number up to 2^63 that digits are, without a zero in front.
fn magnitude(digits: &[u8]) -> Option<u64>
    ensures some { IfSome result (λ n. digits.now ≡ decimal n) }
    ensures small { IfSome result (λ n. n ≤ 2 ^ 63) }
    ensures none { IfNone result ((n : ℕ) → n ≤ 2 ^ 63 → digits.now ≢ decimal n) }
{
    if digits.is_empty() {
        return None;
    }
    if digits.len() > 1 && digits[0] == b'0' {
        return None;
    }
    let mut number: u128 = 0;
    for digit in digits {
        if !digit.is_ascii_digit() {
            return None;
        }
        number = 10 * number + (*digit - b'0') as u128;
        if number > 9223372036854775808 {
            return None;
        }
    }
    Some(number as u64)
}

// A number below 0.
fn below_zero(magnitude: u64) -> Option<i64>
    requires { magnitude ≤ 2 ^ 63 }
    ensures { result ≡ Numbers.below_zero magnitude }
{
    if magnitude == 0 {
        return None;
    }
    Some(-1 - (magnitude - 1) as i64)
}

// A number that is not below 0.
fn from_zero(magnitude: u64) -> Option<i64>
    requires { magnitude ≤ 2 ^ 63 }
    ensures { result ≡ Numbers.from_zero magnitude }
{
    if magnitude == 9223372036854775808 {
        return None;
    }
    Some(magnitude as i64)
}

/// The number that a text is, as Redis reads it: in digits, without a zero in front; a minus may stand before them, but no plus
/// and no space. `None` where the text is no number that 64 bits with a sign hold.
pub fn read_number(text: &[u8]) -> Option<i64>
    ensures { result ≡ number_of text.now }
{
    let Some((first, rest)) = text.split_first() else {
        return None;
    };
    if *first == b'-' {
        return below_zero(magnitude(rest)?);
    }
    from_zero(magnitude(text)?)
}

/// A number that a word has to be.
pub(crate) fn integer(text: &[u8]) -> Result<i64, Refusal>
    ensures { result ≡ integer_of text.now }
{
    match read_number(text) {
        Some(number) => Ok(number),
        None => Err(Refusal::NoNumber),
    }
}

/// What DECRBY adds.
pub(crate) fn negated(number: i64) -> Result<i64, Refusal>
    ensures { result ≡ Numbers.negated number }
{
    match number.checked_neg() {
        Some(negative) => Ok(negative),
        None => Err(Refusal::NoDecrement),
    }
}

// The sum of two numbers.
fn added(old: i64, by: i64) -> Result<i64, Refusal>
    ensures { result ≡ sum old by }
{
    match old.checked_add(by) {
        Some(new) => Ok(new),
        None => Err(Refusal::Overflow),
    }
}

/// The number that a name has after an INCRBY, whose value was this one before; it counts as 0 where there was none.
pub fn incremented(value: Option<&[u8]>, by: i64) -> Result<i64, Refusal>
    ensures { result ≡ incremented_by (option_map (λ text. text.now) value.entry) by }
{
    let old = match value {
        Some(text) => integer(text)?,
        None => 0,
    };
    added(old, by)
}

/// A number in digits, as a value has it and as a client is answered it.
pub fn number_text(alloc: Global, number: i64) -> Result<Vec<u8>, Memory>
    ensures { IfOk result (λ text. text.items ≡ signed_decimal number) }
{
    let digits = number.to_string(alloc)?;
    Ok(digits.as_bytes().to_vec(alloc)?)
}
