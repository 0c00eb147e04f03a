//! Whether the objects of an operation are there, and that its numbers fit its code.

ghost use Rattle.std.specs.Prelude.{◌≡◌, ◌^◌, ◌∷◌, [], IsTrue, nat_lt, true};
ghost use Rattle.std.specs.Result.{result_err};
ghost use Rattle.key_entries.specs.Objects.{named};
ghost use Rattle.page_ops.specs.Operation.{fits_code, objects_of};

use crate::PageOp;
use key_entries::{require_three, require_two};
use oper_core::{Bounds, Refusal};

impl PageOp {
    /// That its numbers and texts fit its code, for proofs. It does nothing.
    pub(crate) fn known_to_fit(&self)
        ensures { IsTrue (fits_code self.now) }
    {
        match self {
            PageOp::Put {
                page,
                place,
                key,
                value,
            } => {
                known_object(*page);
                known_place(*place);
                key.known_as_short();
                value.known_as_short();
            }
            PageOp::Set { page, place, value } => {
                known_object(*page);
                known_place(*place);
                value.known_as_short();
            }
            PageOp::Delete { page, place } => {
                known_object(*page);
                known_place(*place);
            }
            PageOp::Part {
                new,
                page,
                from,
                to,
            } => {
                known_object(*new);
                known_object(*page);
                known_place(*from);
                known_place(*to);
            }
            PageOp::Absorb { page, other, count } => {
                known_object(*page);
                known_object(*other);
                known_place(*count);
            }
            PageOp::Join {
                new,
                page,
                other,
                from,
                to,
            } => {
                known_object(*new);
                known_object(*page);
                known_object(*other);
                known_place(*from);
                known_place(*to);
            }
            PageOp::Keep { page, count } => {
                known_object(*page);
                known_place(*count);
            }
            PageOp::Turn {
                page,
                place,
                count,
                child,
            } => {
                known_object(*page);
                known_place(*place);
                known_place(*count);
                known_object(*child);
            }
            PageOp::TurnTwo {
                page,
                place,
                count,
                child,
                key,
                second,
            } => {
                known_object(*page);
                known_place(*place);
                known_place(*count);
                known_object(*child);
                key.known_as_short();
                known_object(*second);
            }
            PageOp::Root {
                page,
                level,
                left,
                key,
                right,
            } => {
                known_object(*page);
                known_level(*level);
                known_object(*left);
                key.known_as_short();
                known_object(*right);
            }
            PageOp::Free { page } => known_object(*page),
        }
    }

    /// That its objects are there, and no two are one.
    pub(crate) fn require_objects(&self, b: Bounds) -> Result<(), Refusal>
        ensures { result_err result ≡ named b.objects (objects_of self.now) true }
    {
        match self {
            PageOp::Part { new, page, .. } => require_two(b, *new, *page),
            PageOp::Absorb { page, other, .. } => require_two(b, *page, *other),
            PageOp::Join {
                new,
                page,
                other,
                ..
            } => require_three(b, *new, *page, *other),
            PageOp::Put { page, .. } => require_one(b, *page),
            PageOp::Set { page, .. } => require_one(b, *page),
            PageOp::Delete { page, .. } => require_one(b, *page),
            PageOp::Keep { page, .. } => require_one(b, *page),
            PageOp::Turn { page, .. } => require_one(b, *page),
            PageOp::TurnTwo { page, .. } => require_one(b, *page),
            PageOp::Root { page, .. } => require_one(b, *page),
            PageOp::Free { page } => require_one(b, *page),
        }
    }
}

/// That an object is there.
fn require_one(b: Bounds, object: u32) -> Result<(), Refusal>
    ensures { result_err result ≡ named b.objects (object ∷ []) true }
{
    if object >= b.objects {
        return Err(Refusal::NoObject);
    }
    Ok(())
}

/// That an object has four bytes, for proofs. It does nothing.
fn known_object(object: u32)
    ensures { IsTrue (nat_lt object (2 ^ 32)) }
{
    let _object = object;
}

/// That a place has two.
fn known_place(place: u16)
    ensures { IsTrue (nat_lt place (2 ^ 16)) }
{
    let _place = place;
}

/// That a level has one.
fn known_level(level: u8)
    ensures { IsTrue (nat_lt level (2 ^ 8)) }
{
    let _level = level;
}
