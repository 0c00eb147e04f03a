ghost use Rattle.std.specs.Prelude.{◌≡◌, ◌<◌, ◌++◌, List, ℕ, IfOk, OnOk, IfSome, IfNone};
ghost use Rattle.std.specs.List.{flat_map};
ghost use Rattle.script_lines.specs.Grammar.{IsHex, IsHexOf, SaysShort, hex_digit, hex_byte};
ghost use Rattle.script_lines.specs.Replies.{hex_glyph, hex_pair, hex_text};

use arrayvec::ArrayVec;
use key_entries::Short;
use oper_core::Memory;
use std::alloc::Global;

/// The value of a hexadecimal digit.
fn digit_of(digit: u8) -> Option<u8>
    ensures value { result ≡ hex_digit digit }
    ensures small { IfSome result (λ value. value < 16) }
{
    match digit {
        b'0'..=b'9' => Some(digit - b'0'),
        b'A'..=b'F' => Some(digit - b'A' + 10),
        b'a'..=b'f' => Some(digit - b'a' + 10),
        _ => None,
    }
}

/// The byte that two hexadecimal digits stand for.
fn byte_of(high: u8, low: u8) -> Option<u8>
    ensures { result ≡ hex_byte (hex_digit high) (hex_digit low) }
{
    let high = digit_of(high)?;
    let low = digit_of(low)?;
    Some(16 * high + low)
}

/// The bytes that hexadecimal digits stand for, two for each byte. `None` exactly where they stand for none.
fn digit_bytes(alloc: Global, digits: &[u8]) -> Result<Option<Vec<u8>>, Memory>
    ensures some { IfOk result (λ found. IfSome found (λ bytes. IsHexOf digits.now bytes.items)) }
    ensures none { IfOk result (λ found. IfNone found ((bytes : List ℕ) → IsHexOf digits.now bytes → ⊥)) }
{
    let mut bytes = Vec::new(alloc);
    let mut rest = digits;
    while let [high, low, tail @ ..] = rest {
        let Some(byte) = byte_of(*high, *low) else {
            return Ok(None);
        };
        bytes.push(byte)?;
        rest = tail;
    }
    if !rest.is_empty() {
        return Ok(None);
    }
    Ok(Some(bytes))
}

/// The bytes that the hexadecimal digits of a line stand for; none where they are `-`. `None` exactly where the text is
/// no hexadecimal.
pub fn hex_bytes(alloc: Global, hex: &[u8]) -> Result<Option<Vec<u8>>, Memory>
    ensures some { IfOk result (λ found. IfSome found (λ bytes. IsHex hex.now bytes.items)) }
    ensures none { IfOk result (λ found. IfNone found ((bytes : List ℕ) → IsHex hex.now bytes → ⊥)) }
{
    if hex.is_empty() {
        return Ok(None);
    }
    if hex == b"-".as_slice() {
        return Ok(Some(Vec::new(alloc)));
    }
    digit_bytes(alloc, hex)
}

/// The key or value, of 1 to 32 bytes, that hexadecimal digits stand for. `None` exactly where they stand for none.
pub fn short_of(hex: &[u8]) -> Option<Short>
    ensures some { IfSome result (λ bytes. SaysShort bytes hex.now) }
    ensures none { IfNone result ((bytes : List ℕ) → SaysShort bytes hex.now → ⊥) }
{
    if hex.len() > 64 {
        return None;
    }
    let mut bytes: ArrayVec<u8, 32> = ArrayVec::new();
    let mut rest = hex;
    while let [high, low, tail @ ..] = rest {
        bytes.push(byte_of(*high, *low)?);
        rest = tail;
    }
    if !rest.is_empty() {
        return None;
    }
    Short::new(bytes.as_slice())
}

/// The lower-case digit of a value below 16.
fn hex_glyph_of(value: u8) -> u8
    requires { value < 16 }
    ensures { result ≡ hex_glyph value }
{
    if value < 10 {
        b'0' + value
    } else {
        b'a' + (value - 10)
    }
}

/// Adds two digits for each byte.
pub fn push_hex(text: &mut Vec<u8>, bytes: &[u8]) -> Result<(), Memory>
    ensures { OnOk result (text.new.items ≡ text.old.items ++ flat_map hex_pair bytes.now) }
{
    for byte in bytes {
        text.push(hex_glyph_of(*byte / 16))?;
        text.push(hex_glyph_of(*byte % 16))?;
    }
    Ok(())
}

/// Adds the bytes in hexadecimal, or `-` where there are none.
pub fn push_value(text: &mut Vec<u8>, bytes: &[u8]) -> Result<(), Memory>
    ensures { OnOk result (text.new.items ≡ text.old.items ++ hex_text bytes.now) }
{
    if bytes.is_empty() {
        text.push(b'-')?;
        return Ok(());
    }
    push_hex(text, bytes)?;
    Ok(())
}
