ghost use Rattle.std.specs.Prelude.{ℕ, ◌≢◌, ◌≡◌, ◌<◌, ◌^◌, ◌++◌, IfSome, IfNone, OnOk};
ghost use Rattle.std.specs.Fmt.{decimal};
ghost use Rattle.std.specs.List.{flat_map};
ghost use Rattle.script_lines.specs.Replies.{spaced};

use oper_core::Memory;
use std::alloc::Global;

/// A number up to 4,294,967,295 in digits, without a sign and without a leading zero. `None` exactly where the text is
/// no such number.
pub fn read_number(text: &[u8]) -> Option<u32>
    ensures some { IfSome result (λ n. text.now ≡ decimal n) }
    ensures none { IfNone result ((n : ℕ) → n < 2 ^ 32 → text.now ≢ decimal n) }
{
    if text.is_empty() {
        return None;
    }
    if text.len() > 1 && text[0] == b'0' {
        return None;
    }
    let mut value: u64 = 0;
    for digit in text {
        if !digit.is_ascii_digit() {
            return None;
        }
        value = 10 * value + (*digit - b'0') as u64;
        if value > 4294967295 {
            return None;
        }
    }
    Some(value as u32)
}

/// Adds a number in digits.
pub fn push_number(alloc: Global, text: &mut Vec<u8>, number: u64) -> Result<(), Memory>
    ensures { OnOk result (text.new.items ≡ text.old.items ++ decimal number) }
{
    let digits = number.to_string(alloc)?;
    text.extend_from_slice(digits.as_bytes())?;
    Ok(())
}

/// Adds each number in digits, after a space.
pub fn push_numbers(alloc: Global, text: &mut Vec<u8>, numbers: &[u64]) -> Result<(), Memory>
    ensures { OnOk result (text.new.items ≡ text.old.items ++ flat_map spaced numbers.now) }
{
    for number in numbers {
        text.push(b' ')?;
        push_number(alloc, text, *number)?;
    }
    Ok(())
}
