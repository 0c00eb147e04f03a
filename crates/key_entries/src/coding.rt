//! The codes of operations on pairs. The tag is that of the family's operation.

ghost use Rattle.std.specs.Prelude.{◌≡◌, ◌++◌, OnOk, OnErr};
ghost use Rattle.key_entries.specs.Codes.{put_code, delete_code, two_code, three_code, put_fields, delete_fields, two_fields, three_fields};

use crate::reading::read_entry;
use crate::{EntryField, Short};
use oper_core::Memory;

/// The bytes of a tag and an object.
pub const HEAD_BYTES: usize = 5;

/// Appends the code of a put: its object, a key and a value.
pub fn write_put(
    tag: u8,
    object: u32,
    key: Short,
    value: Short,
    out: &mut Vec<u8>,
) -> Result<(), Memory>
    ensures ok { OnOk result (out.new.items ≡ out.old.items ++ put_code tag object key value) }
    ensures err { OnErr result (out.new.items ≡ out.old.items) }
{
    let (key, value) = (key.as_slice(), value.as_slice());
    out.reserve(HEAD_BYTES + 1 + key.len() + 1 + value.len())?;
    out.push(tag)?;
    out.extend_from_slice(&object.to_le_bytes())?;
    out.push(key.len() as u8)?;
    out.extend_from_slice(key)?;
    out.push(value.len() as u8)?;
    out.extend_from_slice(value)?;
    Ok(())
}

/// Appends the code of a delete: its object and a key.
pub fn write_delete(tag: u8, object: u32, key: Short, out: &mut Vec<u8>) -> Result<(), Memory>
    ensures ok { OnOk result (out.new.items ≡ out.old.items ++ delete_code tag object key) }
    ensures err { OnErr result (out.new.items ≡ out.old.items) }
{
    let key = key.as_slice();
    out.reserve(HEAD_BYTES + 1 + key.len())?;
    out.push(tag)?;
    out.extend_from_slice(&object.to_le_bytes())?;
    out.push(key.len() as u8)?;
    out.extend_from_slice(key)?;
    Ok(())
}

/// Appends the code of an operation on two objects.
pub fn write_two(tag: u8, first: u32, second: u32, out: &mut Vec<u8>) -> Result<(), Memory>
    ensures ok { OnOk result (out.new.items ≡ out.old.items ++ two_code tag first second) }
    ensures err { OnErr result (out.new.items ≡ out.old.items) }
{
    out.reserve(HEAD_BYTES + 4)?;
    out.push(tag)?;
    out.extend_from_slice(&first.to_le_bytes())?;
    out.extend_from_slice(&second.to_le_bytes())?;
    Ok(())
}

/// Appends the code of an operation on three objects.
pub fn write_three(
    tag: u8,
    first: u32,
    second: u32,
    third: u32,
    out: &mut Vec<u8>,
) -> Result<(), Memory>
    ensures ok { OnOk result (out.new.items ≡ out.old.items ++ three_code tag first second third) }
    ensures err { OnErr result (out.new.items ≡ out.old.items) }
{
    out.reserve(HEAD_BYTES + 8)?;
    out.push(tag)?;
    out.extend_from_slice(&first.to_le_bytes())?;
    out.extend_from_slice(&second.to_le_bytes())?;
    out.extend_from_slice(&third.to_le_bytes())?;
    Ok(())
}

/// The object, key and value of a put after its tag.
pub fn read_put(body: &[u8]) -> Option<(u32, Short, Short)>
    ensures { result ≡ put_fields body.now }
{
    let object = u32::read(body)?;
    let (key, value) = read_entry(&body[4..])?;
    Some((object, key, value))
}

/// The object and key of a delete after its tag.
pub fn read_delete(body: &[u8]) -> Option<(u32, Short)>
    ensures { result ≡ delete_fields body.now }
{
    let object = u32::read(body)?;
    let key = Short::read(&body[4..])?;
    Some((object, key))
}

/// Two objects, one after the other.
pub fn read_two(body: &[u8]) -> Option<(u32, u32)>
    ensures { result ≡ two_fields body.now }
{
    let first = u32::read(body)?;
    let second = u32::read(&body[4..])?;
    Some((first, second))
}

/// Three objects, one after the other.
pub fn read_three(body: &[u8]) -> Option<(u32, u32, u32)>
    ensures { result ≡ three_fields body.now }
{
    let first = u32::read(body)?;
    let second = u32::read(&body[4..])?;
    let third = u32::read(&body[8..])?;
    Some((first, second, third))
}
