//! The numbers and texts in the code of an operation.

ghost use Rattle.std.specs.Prelude.{◌≡◌, IfOk, option_map};
ghost use Rattle.page_ops.specs.Formats.{number, object, place, text as text_format};

use crate::Text;
use byteorder::{ByteOrder, LittleEndian};
use oper_core::Memory;
use std::alloc::Global;
/// The object that the bytes begin with, and what is behind it.
pub(crate) fn object_at(bytes: &[u8]) -> Option<(u32, &[u8])>
    ensures { option_map (λ n. (n.0, n.1.now)) result ≡ object.read bytes.now }
{
    if bytes.len() < 4 {
        return None;
    }
    Some((LittleEndian::read_u32(bytes), &bytes[4..]))
}

/// The place, or the count, that the bytes begin with, and what is behind it.
pub(crate) fn place_at(bytes: &[u8]) -> Option<(u16, &[u8])>
    ensures { option_map (λ n. (n.0, n.1.now)) result ≡ place.read bytes.now }
{
    if bytes.len() < 2 {
        return None;
    }
    Some((LittleEndian::read_u16(bytes), &bytes[2..]))
}

/// The level that the bytes begin with, and what is behind it.
pub(crate) fn level_at(bytes: &[u8]) -> Option<(u8, &[u8])>
    ensures { option_map (λ n. (n.0, n.1.now)) result ≡ (number 1).read bytes.now }
{
    if bytes.is_empty() {
        return None;
    }
    Some((bytes[0], &bytes[1..]))
}

/// The text that the bytes begin with, and what is behind it.
pub(crate) fn text_at(alloc: Global, bytes: &[u8]) -> Result<Option<(Text, &[u8])>, Memory>
    ensures { IfOk result (λ found. option_map (λ t. (t.0, t.1.now)) found ≡ text_format.read bytes.now) }
{
    let Some((length, rest)) = place_at(bytes) else {
        return Ok(None);
    };
    let length = length as usize;
    if rest.len() < length {
        return Ok(None);
    }
    let text = Text::copied(alloc, &rest[..length])?;
    Ok(Some((text, &rest[length..])))
}
