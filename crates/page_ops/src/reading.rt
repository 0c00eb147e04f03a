//! Operations out of their codes.

ghost use Rattle.std.specs.Prelude.{◌≡◌, ◌∷◌, IfOk};
ghost use Rattle.page_ops.specs.Operation.{op_in};

use crate::fields::{level_at, object_at, place_at, text_at};
use crate::{PageOp, tags};
use oper_core::Memory;
use std::alloc::Global;

/// The operation whose code the bytes begin with, whatever the bounds.
pub(crate) fn read(alloc: Global, bytes: &[u8]) -> Result<Option<PageOp>, Memory>
    ensures { IfOk result (λ found. found ≡ op_in bytes.now) }
{
    if bytes.is_empty() {
        return Ok(None);
    }
    let body = &bytes[1..];
    match bytes[0] {
        tags::PUT => read_put(alloc, body),
        tags::SET => read_set(alloc, body),
        tags::DELETE => Ok(read_delete(body)),
        tags::PART => Ok(read_part(body)),
        tags::ABSORB => Ok(read_absorb(body)),
        tags::JOIN => Ok(read_join(body)),
        tags::KEEP => Ok(read_keep(body)),
        tags::TURN => Ok(read_turn(body)),
        tags::TURN_TWO => read_turn_two(alloc, body),
        tags::ROOT => read_root(alloc, body),
        tags::FREE => Ok(read_free(body)),
        _ => Ok(None),
    }
}

fn read_put(alloc: Global, body: &[u8]) -> Result<Option<PageOp>, Memory>
    ensures { IfOk result (λ found. found ≡ op_in (21 ∷ body.now)) }
{
    let Some((page, rest)) = object_at(body) else {
        return Ok(None);
    };
    let Some((place, rest)) = place_at(rest) else {
        return Ok(None);
    };
    let Some((key, rest)) = text_at(alloc, rest)? else {
        return Ok(None);
    };
    let Some((value, _rest)) = text_at(alloc, rest)? else {
        return Ok(None);
    };
    Ok(Some(PageOp::Put {
        page,
        place,
        key,
        value,
    }))
}

fn read_set(alloc: Global, body: &[u8]) -> Result<Option<PageOp>, Memory>
    ensures { IfOk result (λ found. found ≡ op_in (22 ∷ body.now)) }
{
    let Some((page, rest)) = object_at(body) else {
        return Ok(None);
    };
    let Some((place, rest)) = place_at(rest) else {
        return Ok(None);
    };
    let Some((value, _rest)) = text_at(alloc, rest)? else {
        return Ok(None);
    };
    Ok(Some(PageOp::Set { page, place, value }))
}

fn read_delete(body: &[u8]) -> Option<PageOp>
    ensures { result ≡ op_in (23 ∷ body.now) }
{
    let (page, rest) = object_at(body)?;
    let (place, _rest) = place_at(rest)?;
    Some(PageOp::Delete { page, place })
}

fn read_part(body: &[u8]) -> Option<PageOp>
    ensures { result ≡ op_in (24 ∷ body.now) }
{
    let (new, rest) = object_at(body)?;
    let (page, rest) = object_at(rest)?;
    let (from, rest) = place_at(rest)?;
    let (to, _rest) = place_at(rest)?;
    Some(PageOp::Part {
        new,
        page,
        from,
        to,
    })
}

fn read_absorb(body: &[u8]) -> Option<PageOp>
    ensures { result ≡ op_in (25 ∷ body.now) }
{
    let (page, rest) = object_at(body)?;
    let (other, rest) = object_at(rest)?;
    let (count, _rest) = place_at(rest)?;
    Some(PageOp::Absorb { page, other, count })
}

fn read_join(body: &[u8]) -> Option<PageOp>
    ensures { result ≡ op_in (26 ∷ body.now) }
{
    let (new, rest) = object_at(body)?;
    let (page, rest) = object_at(rest)?;
    let (other, rest) = object_at(rest)?;
    let (from, rest) = place_at(rest)?;
    let (to, _rest) = place_at(rest)?;
    Some(PageOp::Join {
        new,
        page,
        other,
        from,
        to,
    })
}

fn read_keep(body: &[u8]) -> Option<PageOp>
    ensures { result ≡ op_in (27 ∷ body.now) }
{
    let (page, rest) = object_at(body)?;
    let (count, _rest) = place_at(rest)?;
    Some(PageOp::Keep { page, count })
}

fn read_turn(body: &[u8]) -> Option<PageOp>
    ensures { result ≡ op_in (28 ∷ body.now) }
{
    let (page, rest) = object_at(body)?;
    let (place, rest) = place_at(rest)?;
    let (count, rest) = place_at(rest)?;
    let (child, _rest) = object_at(rest)?;
    Some(PageOp::Turn {
        page,
        place,
        count,
        child,
    })
}

fn read_turn_two(alloc: Global, body: &[u8]) -> Result<Option<PageOp>, Memory>
    ensures { IfOk result (λ found. found ≡ op_in (29 ∷ body.now)) }
{
    let Some((page, rest)) = object_at(body) else {
        return Ok(None);
    };
    let Some((place, rest)) = place_at(rest) else {
        return Ok(None);
    };
    let Some((count, rest)) = place_at(rest) else {
        return Ok(None);
    };
    let Some((child, rest)) = object_at(rest) else {
        return Ok(None);
    };
    let Some((key, rest)) = text_at(alloc, rest)? else {
        return Ok(None);
    };
    let Some((second, _rest)) = object_at(rest) else {
        return Ok(None);
    };
    Ok(Some(PageOp::TurnTwo {
        page,
        place,
        count,
        child,
        key,
        second,
    }))
}

fn read_root(alloc: Global, body: &[u8]) -> Result<Option<PageOp>, Memory>
    ensures { IfOk result (λ found. found ≡ op_in (30 ∷ body.now)) }
{
    let Some((page, rest)) = object_at(body) else {
        return Ok(None);
    };
    let Some((level, rest)) = level_at(rest) else {
        return Ok(None);
    };
    let Some((left, rest)) = object_at(rest) else {
        return Ok(None);
    };
    let Some((key, rest)) = text_at(alloc, rest)? else {
        return Ok(None);
    };
    let Some((right, _rest)) = object_at(rest) else {
        return Ok(None);
    };
    Ok(Some(PageOp::Root {
        page,
        level,
        left,
        key,
        right,
    }))
}

fn read_free(body: &[u8]) -> Option<PageOp>
    ensures { result ≡ op_in (31 ∷ body.now) }
{
    let (page, _rest) = object_at(body)?;
    Some(PageOp::Free { page })
}
