//! Operations into their codes. Without memory for it the bytes stay as they are.

ghost use Rattle.std.specs.Prelude.{◌≡◌, ◌++◌, OnOk, OnErr, length};
ghost use Rattle.page_ops.specs.Operation.{op_code};
ghost use Rattle.page_ops.specs.declared.page_op.PageOp.TheVariants.{Absorb, Delete, Free, Join, Keep, Part, Put, Root, Set, Turn, TurnTwo};

use crate::{PageOp, Text, tags};
use oper_core::Memory;

/// The bytes of a tag and an object.
const HEAD: usize = 5;

/// The bytes of an object.
const OBJECT: usize = 4;

/// The bytes of a place or of a count.
const PLACE: usize = 2;

/// How many bytes the code has.
pub(crate) fn code_len(op: &PageOp) -> usize
    ensures { result ≡ length (op_code op.now) }
{
    match op {
        PageOp::Put { key, value, .. } => HEAD + PLACE + key.code_len() + value.code_len(),
        PageOp::Set { value, .. } => HEAD + PLACE + value.code_len(),
        PageOp::Delete { .. } | PageOp::Keep { .. } => HEAD + PLACE,
        PageOp::Part { .. } => HEAD + OBJECT + PLACE + PLACE,
        PageOp::Absorb { .. } => HEAD + OBJECT + PLACE,
        PageOp::Join { .. } => HEAD + OBJECT + OBJECT + PLACE + PLACE,
        PageOp::Turn { .. } => HEAD + PLACE + PLACE + OBJECT,
        PageOp::TurnTwo { key, .. } => { HEAD + PLACE + PLACE + OBJECT + key.code_len() + OBJECT }
        PageOp::Root { key, .. } => HEAD + 1 + OBJECT + key.code_len() + OBJECT,
        PageOp::Free { .. } => HEAD,
    }
}

pub(crate) fn write_put(
    page: u32,
    place: u16,
    key: &Text,
    value: &Text,
    out: &mut Vec<u8>,
) -> Result<(), Memory>
    ensures ok { OnOk result (out.new.items ≡ out.old.items ++ op_code (Put page place key.now value.now)) }
    ensures err { OnErr result (out.new.items ≡ out.old.items) }
{
    let (key, value) = (key.as_slice(), value.as_slice());
    out.reserve(HEAD + PLACE + 2 + key.len() + 2 + value.len())?;
    out.push(tags::PUT)?;
    out.extend_from_slice(&page.to_le_bytes())?;
    out.extend_from_slice(&place.to_le_bytes())?;
    out.extend_from_slice(&(key.len() as u16).to_le_bytes())?;
    out.extend_from_slice(key)?;
    out.extend_from_slice(&(value.len() as u16).to_le_bytes())?;
    out.extend_from_slice(value)?;
    Ok(())
}

pub(crate) fn write_set(
    page: u32,
    place: u16,
    value: &Text,
    out: &mut Vec<u8>,
) -> Result<(), Memory>
    ensures ok { OnOk result (out.new.items ≡ out.old.items ++ op_code (Set page place value.now)) }
    ensures err { OnErr result (out.new.items ≡ out.old.items) }
{
    let value = value.as_slice();
    out.reserve(HEAD + PLACE + 2 + value.len())?;
    out.push(tags::SET)?;
    out.extend_from_slice(&page.to_le_bytes())?;
    out.extend_from_slice(&place.to_le_bytes())?;
    out.extend_from_slice(&(value.len() as u16).to_le_bytes())?;
    out.extend_from_slice(value)?;
    Ok(())
}

pub(crate) fn write_delete(page: u32, place: u16, out: &mut Vec<u8>) -> Result<(), Memory>
    ensures ok { OnOk result (out.new.items ≡ out.old.items ++ op_code (Delete page place)) }
    ensures err { OnErr result (out.new.items ≡ out.old.items) }
{
    out.reserve(HEAD + PLACE)?;
    out.push(tags::DELETE)?;
    out.extend_from_slice(&page.to_le_bytes())?;
    out.extend_from_slice(&place.to_le_bytes())?;
    Ok(())
}

pub(crate) fn write_part(
    new: u32,
    page: u32,
    from: u16,
    to: u16,
    out: &mut Vec<u8>,
) -> Result<(), Memory>
    ensures ok { OnOk result (out.new.items ≡ out.old.items ++ op_code (Part new page from to)) }
    ensures err { OnErr result (out.new.items ≡ out.old.items) }
{
    out.reserve(HEAD + OBJECT + PLACE + PLACE)?;
    out.push(tags::PART)?;
    out.extend_from_slice(&new.to_le_bytes())?;
    out.extend_from_slice(&page.to_le_bytes())?;
    out.extend_from_slice(&from.to_le_bytes())?;
    out.extend_from_slice(&to.to_le_bytes())?;
    Ok(())
}

pub(crate) fn write_absorb(
    page: u32,
    other: u32,
    count: u16,
    out: &mut Vec<u8>,
) -> Result<(), Memory>
    ensures ok { OnOk result (out.new.items ≡ out.old.items ++ op_code (Absorb page other count)) }
    ensures err { OnErr result (out.new.items ≡ out.old.items) }
{
    out.reserve(HEAD + OBJECT + PLACE)?;
    out.push(tags::ABSORB)?;
    out.extend_from_slice(&page.to_le_bytes())?;
    out.extend_from_slice(&other.to_le_bytes())?;
    out.extend_from_slice(&count.to_le_bytes())?;
    Ok(())
}

pub(crate) fn write_join(
    new: u32,
    page: u32,
    other: u32,
    from: u16,
    to: u16,
    out: &mut Vec<u8>,
) -> Result<(), Memory>
    ensures ok { OnOk result (out.new.items ≡ out.old.items ++ op_code (Join new page other from to)) }
    ensures err { OnErr result (out.new.items ≡ out.old.items) }
{
    out.reserve(HEAD + OBJECT + OBJECT + PLACE + PLACE)?;
    out.push(tags::JOIN)?;
    out.extend_from_slice(&new.to_le_bytes())?;
    out.extend_from_slice(&page.to_le_bytes())?;
    out.extend_from_slice(&other.to_le_bytes())?;
    out.extend_from_slice(&from.to_le_bytes())?;
    out.extend_from_slice(&to.to_le_bytes())?;
    Ok(())
}

pub(crate) fn write_keep(page: u32, count: u16, out: &mut Vec<u8>) -> Result<(), Memory>
    ensures ok { OnOk result (out.new.items ≡ out.old.items ++ op_code (Keep page count)) }
    ensures err { OnErr result (out.new.items ≡ out.old.items) }
{
    out.reserve(HEAD + PLACE)?;
    out.push(tags::KEEP)?;
    out.extend_from_slice(&page.to_le_bytes())?;
    out.extend_from_slice(&count.to_le_bytes())?;
    Ok(())
}

pub(crate) fn write_turn(
    page: u32,
    place: u16,
    count: u16,
    child: u32,
    out: &mut Vec<u8>,
) -> Result<(), Memory>
    ensures ok { OnOk result (out.new.items ≡ out.old.items ++ op_code (Turn page place count child)) }
    ensures err { OnErr result (out.new.items ≡ out.old.items) }
{
    out.reserve(HEAD + PLACE + PLACE + OBJECT)?;
    out.push(tags::TURN)?;
    out.extend_from_slice(&page.to_le_bytes())?;
    out.extend_from_slice(&place.to_le_bytes())?;
    out.extend_from_slice(&count.to_le_bytes())?;
    out.extend_from_slice(&child.to_le_bytes())?;
    Ok(())
}

pub(crate) fn write_turn_two(
    page: u32,
    place: u16,
    count: u16,
    child: u32,
    key: &Text,
    second: u32,
    out: &mut Vec<u8>,
) -> Result<(), Memory>
    ensures ok { OnOk result (out.new.items ≡ out.old.items ++ op_code (TurnTwo page place count child key.now second)) }
    ensures err { OnErr result (out.new.items ≡ out.old.items) }
{
    let key = key.as_slice();
    out.reserve(HEAD + PLACE + PLACE + OBJECT + 2 + key.len() + OBJECT)?;
    out.push(tags::TURN_TWO)?;
    out.extend_from_slice(&page.to_le_bytes())?;
    out.extend_from_slice(&place.to_le_bytes())?;
    out.extend_from_slice(&count.to_le_bytes())?;
    out.extend_from_slice(&child.to_le_bytes())?;
    out.extend_from_slice(&(key.len() as u16).to_le_bytes())?;
    out.extend_from_slice(key)?;
    out.extend_from_slice(&second.to_le_bytes())?;
    Ok(())
}

pub(crate) fn write_root(
    page: u32,
    level: u8,
    left: u32,
    key: &Text,
    right: u32,
    out: &mut Vec<u8>,
) -> Result<(), Memory>
    ensures ok { OnOk result (out.new.items ≡ out.old.items ++ op_code (Root page level left key.now right)) }
    ensures err { OnErr result (out.new.items ≡ out.old.items) }
{
    let key = key.as_slice();
    out.reserve(HEAD + 1 + OBJECT + 2 + key.len() + OBJECT)?;
    out.push(tags::ROOT)?;
    out.extend_from_slice(&page.to_le_bytes())?;
    out.push(level)?;
    out.extend_from_slice(&left.to_le_bytes())?;
    out.extend_from_slice(&(key.len() as u16).to_le_bytes())?;
    out.extend_from_slice(key)?;
    out.extend_from_slice(&right.to_le_bytes())?;
    Ok(())
}

pub(crate) fn write_free(page: u32, out: &mut Vec<u8>) -> Result<(), Memory>
    ensures ok { OnOk result (out.new.items ≡ out.old.items ++ op_code (Free page)) }
    ensures err { OnErr result (out.new.items ≡ out.old.items) }
{
    out.reserve(HEAD)?;
    out.push(tags::FREE)?;
    out.extend_from_slice(&page.to_le_bytes())?;
    Ok(())
}
