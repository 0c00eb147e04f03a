// Codes that are a tag, and numbers of four bytes each.
ghost use Rattle.std.specs.Prelude.{◌+◌, ◌<◌, ◌^◌, ◌≡◌, ◌≢◌, [], ◌∷◌, ◌++◌, List, ℕ, IfNone, IfSome, Some, drop, length};
ghost use Rattle.op_rows.specs.Rows.{numbers_code, text_code};

use byteorder::{ByteOrder, LittleEndian};

/// How many bytes a tag and one number have.
const ONE_NUMBER: usize = 5;

/// How many bytes a tag and two numbers have.
const TWO_NUMBERS: usize = 9;

/// How many bytes a tag and three numbers have.
const THREE_NUMBERS: usize = 13;

/// The number after this tag, where the bytes begin with such a code.
pub fn one_number(tag: u8, bytes: &[u8]) -> Option<u32>
    ensures some { IfSome result (λ n. bytes.now ≡ numbers_code tag (n ∷ []) ++ drop 5 bytes.now) }
    ensures none { IfNone result ((x : ℕ) (rest : List ℕ) → bytes.now ≢ numbers_code tag (x ∷ []) ++ rest) }
{
    if bytes.len() < ONE_NUMBER || bytes[0] != tag {
        return None;
    }
    Some(LittleEndian::read_u32(&bytes[1..]))
}

/// The two numbers after this tag, where the bytes begin with such a code.
pub fn two_numbers(tag: u8, bytes: &[u8]) -> Option<(u32, u32)>
    ensures some { IfSome result (λ n. bytes.now ≡ numbers_code tag (n.0 ∷ n.1 ∷ []) ++ drop 9 bytes.now) }
    ensures none { IfNone result ((x y : ℕ) (rest : List ℕ) → bytes.now ≢ numbers_code tag (x ∷ y ∷ []) ++ rest) }
{
    if bytes.len() < TWO_NUMBERS || bytes[0] != tag {
        return None;
    }
    Some((
        LittleEndian::read_u32(&bytes[1..]),
        LittleEndian::read_u32(&bytes[5..]),
    ))
}

/// The three numbers after this tag, where the bytes begin with such a code.
pub fn three_numbers(tag: u8, bytes: &[u8]) -> Option<(u32, u32, u32)>
    ensures some { IfSome result (λ n. bytes.now ≡ numbers_code tag (n.0 ∷ n.1 ∷ n.2 ∷ []) ++ drop 13 bytes.now) }
    ensures none { IfNone result ((x y z : ℕ) (rest : List ℕ) → bytes.now ≢ numbers_code tag (x ∷ y ∷ z ∷ []) ++ rest) }
{
    if bytes.len() < THREE_NUMBERS || bytes[0] != tag {
        return None;
    }
    Some((
        LittleEndian::read_u32(&bytes[1..]),
        LittleEndian::read_u32(&bytes[5..]),
        LittleEndian::read_u32(&bytes[9..]),
    ))
}

/// The number after this tag and the text behind it, where the bytes begin with such a code.
pub fn number_and_text(tag: u8, bytes: &[u8]) -> Option<(u32, &[u8])>
    ensures some { IfSome result (λ n. bytes.now ≡ numbers_code tag (n.0 ∷ []) ++ (text_code (Some n.1.now) ++ drop (9 + length n.1.now) bytes.now)) }
    ensures fits { IfSome result (λ n. length n.1.now < 2 ^ 32) }
    ensures none { IfNone result ((x : ℕ) (text rest : List ℕ) → length text < 2 ^ 32 → bytes.now ≢ numbers_code tag (x ∷ []) ++ (text_code (Some text) ++ rest)) }
{
    if bytes.len() < TWO_NUMBERS || bytes[0] != tag {
        return None;
    }
    let length = LittleEndian::read_u32(&bytes[5..]) as usize;
    let rest = &bytes[TWO_NUMBERS..];
    if rest.len() < length {
        return None;
    }
    Some((LittleEndian::read_u32(&bytes[1..]), &rest[..length]))
}
