//! The page that an operation makes of values.

ghost use Rattle.std.specs.Prelude.{◌≡◌, ◌<◌, ◌^◌, IfOk, IfSome, length};
ghost use Rattle.page_ops.specs.Effects.{made_by, where_short};
ghost use Rattle.page_ops.specs.Layout.{size};
ghost use Rattle.page_ops.specs.Operation.{read_by, written_by};
ghost use Rattle.page_ops.specs.Seen.{made_seen, seen};

use crate::effects::{self, Made};
use crate::{PageOp, turning};
use oper_core::{Bounds, Refusal, Values};

impl PageOp {
    /// The object that it writes.
    pub fn written(&self) -> u32
        ensures { result ≡ written_by self.now }
    {
        match self {
            PageOp::Put { page, .. } => *page,
            PageOp::Set { page, .. } => *page,
            PageOp::Delete { page, .. } => *page,
            PageOp::Part { new, .. } => *new,
            PageOp::Absorb { page, .. } => *page,
            PageOp::Join { new, .. } => *new,
            PageOp::Keep { page, .. } => *page,
            PageOp::Turn { page, .. } => *page,
            PageOp::TurnTwo { page, .. } => *page,
            PageOp::Root { page, .. } => *page,
            PageOp::Free { page } => *page,
        }
    }

    /// The page that it makes of the values that it reads, or why it makes none.
    pub(crate) fn outcome<'a>(&'a self, b: Bounds, values: &'a Values) -> Made<'a>
        requires { length values.now ≡ length (read_by self.now) }
        ensures value { made_seen result ≡ where_short b.cap (made_by self.now values.now) }
        ensures short { IfOk result (λ made. IfSome made (λ page. size (seen page) < 2 ^ 16)) }
    {
        match self.made(values)? {
            Some(page) => {
                if !page.is_short(b.cap) {
                    return Err(Refusal::TooLarge);
                }
                Ok(Some(page))
            }
            None => Ok(None),
        }
    }

    /// The same, whatever the length of the page may be.
    fn made<'a>(&'a self, values: &'a Values) -> Made<'a>
        requires { length values.now ≡ length (read_by self.now) }
        ensures { made_seen result ≡ made_by self.now values.now }
    {
        match self {
            PageOp::Put {
                place,
                key,
                value,
                ..
            } => effects::put(
                effects::to_fill(values.get(0)),
                *place,
                key.as_slice(),
                value.as_slice(),
            ),
            PageOp::Set { place, value, .. } => {
                effects::set(values.get(0), *place, value.as_slice())
            }
            PageOp::Delete { place, .. } => effects::delete(values.get(0), *place),
            PageOp::Part { from, to, .. } => effects::part(values.get(0), *from, *to),
            PageOp::Absorb { count, .. } => {
                effects::absorb(values.get(0), values.get(1), *count)
            }
            PageOp::Join { from, to, .. } => {
                effects::join(values.get(0), values.get(1), *from, *to)
            }
            PageOp::Keep { count, .. } => effects::part(values.get(0), 0, *count),
            PageOp::Turn {
                place,
                count,
                child,
                ..
            } => turning::turn(values.get(0), *place, *count, *child),
            PageOp::TurnTwo {
                place,
                count,
                child,
                key,
                second,
                ..
            } => turning::turn_two(
                values.get(0),
                *place,
                *count,
                *child,
                key.as_slice(),
                *second,
            ),
            PageOp::Root {
                level,
                left,
                key,
                right,
                ..
            } => turning::root(*level, *left, key.as_slice(), *right),
            PageOp::Free { .. } => Ok(None),
        }
    }
}
