// The fields of a line, taken off one by one.
ghost use Rattle.std.specs.Prelude.{position, not, ◌==◌, ◌≡◌, ◌≢◌, ◌∷◌, [], ◌<◌, ◌^◌, List, ℕ, Some, option_map, IfOk, IfSome, IfNone};
ghost use Rattle.std.specs.Fmt.{decimal};
ghost use Rattle.script_lines.specs.Grammar.{Form, Request, IsRead, ReadsAs, asks, fields_of, long, map_key, map_limit, map_two, of_range, one, object_and_value, range_and_key, range_and_two, short, two, three};

use crate::hex::{hex_bytes, short_of};
use crate::number::read_number;
use key_entries::Short;
use oper_core::{ByteList, Memory};
use page_ops::Text;
use std::alloc::Global;

/// The place of the first byte that is no space.
fn field_in(text: &[u8]) -> Option<usize>
    ensures { result ≡ position (λ byte. not (byte == 32)) text.now }
{
    text.iter().position(|byte| *byte != b' ')
}

/// The place of the first space.
fn space_in(text: &[u8]) -> Option<usize>
    ensures { result ≡ position (λ byte. byte == 32) text.now }
{
    text.iter().position(|byte| *byte == b' ')
}

/// The first field of a text, and what follows it.
pub fn next_field(text: &[u8]) -> Option<(&[u8], &[u8])>
    ensures some { IfSome result (λ found. fields_of text.now ≡ found.0.now ∷ fields_of found.1.now) }
    ensures none { IfNone result (fields_of text.now ≡ []) }
{
    let start = field_in(text)?;
    let text = &text[start..];
    let end = space_in(text).unwrap_or(text.len());
    Some(text.split_at(end))
}

/// Tells by `Some` that a text has no field.
pub fn no_field(text: &[u8]) -> Option<()>
    ensures { (request : Request) → IsRead (Some (asks request)) (fields_of text.now) (option_map (λ _. request) result) }
{
    match next_field(text) {
        Some(_) => None,
        None => Some(()),
    }
}

/// The number that the first field is, and what follows it.
fn next_number(text: &[u8]) -> Option<(u32, &[u8])>
    ensures some { IfSome result (λ found. fields_of text.now ≡ decimal found.0 ∷ fields_of found.1.now) }
    ensures small { IfSome result (λ found. found.0 < 2 ^ 32) }
    ensures none { IfNone result ((n : ℕ) (others : List (List ℕ)) → n < 2 ^ 32 → fields_of text.now ≢ decimal n ∷ others) }
{
    let (field, rest) = next_field(text)?;
    let number = read_number(field)?;
    Some((number, rest))
}

/// The number that is the only field.
pub fn one_number(text: &[u8]) -> Option<u32>
    ensures { (make : ℕ → Request) → IsRead (Some (one make)) (fields_of text.now) (option_map make result) }
{
    let (number, rest) = next_number(text)?;
    no_field(rest)?;
    Some(number)
}

/// The two numbers that are all fields.
pub fn two_numbers(text: &[u8]) -> Option<(u32, u32)>
    ensures { (make : ℕ → ℕ → Request) → IsRead (Some (two make)) (fields_of text.now) (option_map (λ found. make found.0 found.1) result) }
{
    let (first, rest) = next_number(text)?;
    let second = one_number(rest)?;
    Some((first, second))
}

/// The three numbers that are all fields.
pub fn three_numbers(text: &[u8]) -> Option<(u32, u32, u32)>
    ensures { (make : ℕ → ℕ → ℕ → Request) → IsRead (Some (three make)) (fields_of text.now) (option_map (λ found. make found.0 found.1 found.2) result) }
{
    let (first, rest) = next_number(text)?;
    let (second, third) = two_numbers(rest)?;
    Some((first, second, third))
}

/// The object and the bytes of its value, in hexadecimal, that are all fields.
pub fn object_and_value(alloc: Global, text: &[u8]) -> Result<Option<(u32, ByteList)>, Memory>
    ensures { (make : ℕ → List ℕ → Request) → IfOk result (λ found. IsRead (Some (object_and_value make)) (fields_of text.now) (option_map (λ all. make all.0 all.1) found)) }
{
    let Some((object, rest)) = next_number(text) else {
        return Ok(None);
    };
    let Some((hex, rest)) = next_field(rest) else {
        return Ok(None);
    };
    if no_field(rest).is_none() {
        return Ok(None);
    }
    let Some(bytes) = hex_bytes(alloc, hex)? else {
        return Ok(None);
    };
    Ok(Some((object, ByteList::new(bytes))))
}

/// The key or value that is the only field.
fn one_short(text: &[u8]) -> Option<Short>
    ensures { (make : List ℕ → Request) → IsRead (Some (short (λ key. asks (make key)))) (fields_of text.now) (option_map make result) }
{
    let (field, rest) = next_field(text)?;
    no_field(rest)?;
    short_of(field)
}

/// The two keys or values that are all fields.
fn two_shorts(text: &[u8]) -> Option<(Short, Short)>
    ensures { (make : List ℕ → List ℕ → Request) → IsRead (Some (short (λ key. short (λ other. asks (make key other))))) (fields_of text.now) (option_map (λ found. make found.0 found.1) result) }
{
    let (field, rest) = next_field(text)?;
    let first = short_of(field)?;
    let second = one_short(rest)?;
    Some((first, second))
}

/// The two numbers of a range of objects and the key that are all fields.
pub fn range_and_key(text: &[u8]) -> Option<(u32, u32, Short)>
    ensures { (make : ℕ → ℕ → List ℕ → Request) → IsRead (Some (range_and_key make)) (fields_of text.now) (option_map (λ found. make found.0 found.1 found.2) result) }
{
    let (low, rest) = next_number(text)?;
    let (high, rest) = next_number(rest)?;
    let key = one_short(rest)?;
    Some((low, high, key))
}

/// The two numbers of a range of objects and the two keys or values that are all fields.
pub fn range_and_two(text: &[u8]) -> Option<(u32, u32, Short, Short)>
    ensures { (make : ℕ → ℕ → List ℕ → List ℕ → Request) → IsRead (Some (range_and_two make)) (fields_of text.now) (option_map (λ found. make found.0 found.1 found.2 found.3) result) }
{
    let (low, rest) = next_number(text)?;
    let (high, rest) = next_number(rest)?;
    let (first, second) = two_shorts(rest)?;
    Some((low, high, first, second))
}

/// The two numbers of a range of objects that are the first fields, and what follows them.
fn next_range(text: &[u8]) -> Option<(u32, u32, &[u8])>
    ensures some { IfSome result (λ found. (form : ℕ → ℕ → Form) → ReadsAs (form found.0 found.1) (fields_of found.2.now) (of_range form) (fields_of text.now)) }
    ensures none { IfNone result ((form : ℕ → ℕ → Form) → IsRead (Some (of_range form)) (fields_of text.now) None) }
{
    let (low, rest) = next_number(text)?;
    let (high, rest) = next_number(rest)?;
    Some((low, high, rest))
}

/// The key of a map, or the value of one, that the first field is, and what follows it.
fn next_text(alloc: Global, text: &[u8]) -> Result<Option<(Text, &[u8])>, Memory>
    ensures some { IfOk result (λ read. IfSome read (λ found. (form : List ℕ → Form) → ReadsAs (form found.0) (fields_of found.1.now) (long form) (fields_of text.now))) }
    ensures none { IfOk result (λ read. IfNone read ((form : List ℕ → Form) → IsRead (Some (long form)) (fields_of text.now) None)) }
{
    let Some((field, rest)) = next_field(text) else {
        return Ok(None);
    };
    let Some(bytes) = hex_bytes(alloc, field)? else {
        return Ok(None);
    };
    let Some(long) = Text::new(bytes) else {
        return Ok(None);
    };
    Ok(Some((long, rest)))
}

/// The two numbers of a range of objects and the key of a map that are all fields.
pub fn map_key(alloc: Global, text: &[u8]) -> Result<Option<(u32, u32, Text)>, Memory>
    ensures { (make : ℕ → ℕ → List ℕ → Request) → IfOk result (λ found. IsRead (Some (map_key make)) (fields_of text.now) (option_map (λ all. make all.0 all.1 all.2) found)) }
{
    let Some((low, high, rest)) = next_range(text) else {
        return Ok(None);
    };
    let Some((key, rest)) = next_text(alloc, rest)? else {
        return Ok(None);
    };
    if no_field(rest).is_none() {
        return Ok(None);
    }
    Ok(Some((low, high, key)))
}

/// The two numbers of a range of objects and the key of a map with its value, or the two keys, that are all fields.
pub fn map_two(alloc: Global, text: &[u8]) -> Result<Option<(u32, u32, Text, Text)>, Memory>
    ensures { (make : ℕ → ℕ → List ℕ → List ℕ → Request) → IfOk result (λ found. IsRead (Some (map_two make)) (fields_of text.now) (option_map (λ all. make all.0 all.1 all.2 all.3) found)) }
{
    let Some((low, high, rest)) = next_range(text) else {
        return Ok(None);
    };
    let Some((first, rest)) = next_text(alloc, rest)? else {
        return Ok(None);
    };
    let Some((second, rest)) = next_text(alloc, rest)? else {
        return Ok(None);
    };
    if no_field(rest).is_none() {
        return Ok(None);
    }
    Ok(Some((low, high, first, second)))
}

/// The two numbers of a range of objects, the two keys of a map, and how many pairs at most, that are all fields.
pub fn map_limit(alloc: Global, text: &[u8]) -> Result<Option<(u32, u32, Text, Text, u32)>, Memory>
    ensures { (make : ℕ → ℕ → List ℕ → List ℕ → ℕ → Request) → IfOk result (λ found. IsRead (Some (map_limit make)) (fields_of text.now) (option_map (λ all. make all.0 all.1 all.2 all.3 all.4) found)) }
{
    let Some((low, high, rest)) = next_range(text) else {
        return Ok(None);
    };
    let Some((from, rest)) = next_text(alloc, rest)? else {
        return Ok(None);
    };
    let Some((to, rest)) = next_text(alloc, rest)? else {
        return Ok(None);
    };
    let Some(limit) = one_number(rest) else {
        return Ok(None);
    };
    Ok(Some((low, high, from, to, limit)))
}
