ghost use Rattle.std.specs.Prelude.{◌≡◌, ◌∷◌, []};

use crate::{Text, reading, writing};
use oper_core::{Bounds, ByteList, Family, Memory, Objs, Oper, Refusal, Values};
use std::alloc::Global;

/// An operation on the pages of a map, which names the objects that hold them, and places in them.
#[derive(Drop)]
pub enum PageOp {
    /// A cell comes into a leaf, before that of a place. The empty value is a leaf without cells.
    Put {
        page: u32,
        place: u16,
        key: Text,
        value: Text,
    },
    /// The cell of a place gets another value.
    Set {
        page: u32,
        place: u16,
        value: Text,
    },
    /// The cell of a place goes.
    Delete {
        page: u32,
        place: u16,
    },
    /// A new page is made of the cells of another, from one place up to another.
    Part {
        new: u32,
        page: u32,
        from: u16,
        to: u16,
    },
    /// The first cells of another page come behind those of a page.
    Absorb {
        page: u32,
        other: u32,
        count: u16,
    },
    /// A new page is made of the cells of two together, from one place up to another.
    Join {
        new: u32,
        page: u32,
        other: u32,
        from: u16,
        to: u16,
    },
    /// A page keeps its first cells.
    Keep {
        page: u32,
        count: u16,
    },
    /// So many cells of an inner page become one, which keeps the first key and has this child.
    Turn {
        page: u32,
        place: u16,
        count: u16,
        child: u32,
    },
    /// They become two: that one, and one with this key and a second child.
    TurnTwo {
        page: u32,
        place: u16,
        count: u16,
        child: u32,
        key: Text,
        second: u32,
    },
    /// A page becomes an inner page over two children, of which the left one has no key.
    Root {
        page: u32,
        level: u8,
        left: u32,
        key: Text,
        right: u32,
    },
    /// A page becomes empty.
    Free {
        page: u32,
    },
}

impl Oper for PageOp {
    ghost use Rattle.page_ops.specs.Operation.{page_meaning};
    ghost use Rattle.page_ops.specs.OperationLaws.{page_bounded, page_lawful, page_widens};

    ghost meaning = { page_meaning };

    fn reads(&self) -> Objs {
        match self {
            PageOp::Put { page, .. } => Objs::one(*page),
            PageOp::Set { page, .. } => Objs::one(*page),
            PageOp::Delete { page, .. } => Objs::one(*page),
            PageOp::Part { page, .. } => Objs::one(*page),
            PageOp::Absorb { page, other, .. } => both(*page, *other),
            PageOp::Join { page, other, .. } => both(*page, *other),
            PageOp::Keep { page, .. } => Objs::one(*page),
            PageOp::Turn { page, .. } => Objs::one(*page),
            PageOp::TurnTwo { page, .. } => Objs::one(*page),
            PageOp::Root { .. } => Objs::new(),
            PageOp::Free { .. } => Objs::new(),
        }
    }

    fn writes(&self) -> Objs {
        Objs::one(self.written())
    }

    fn shape(&self, b: Bounds) -> Result<(), Refusal> {
        if !b.more {
            return Err(Refusal::NoPages);
        }
        self.known_to_fit();
        self.require_objects(b)
    }

    fn check(&self, b: Bounds, values: &Values) -> Result<(), Refusal> {
        let _made = self.outcome(b, values)?;
        Ok(())
    }

    fn apply(&self, alloc: Global, b: Bounds, values: &Values) -> Result<Values, Memory> {
        match self.outcome(b, values) {
            Ok(Some(page)) => {
                let bytes = page.bytes(alloc)?;
                Ok(one_value(alloc, bytes))
            }
            Ok(None) => Ok(one_value(alloc, Vec::new(alloc))),
            Err(_) => Ok(one_value(alloc, Vec::new(alloc))),
        }
    }

    fn code_length(&self) -> u64 {
        writing::code_len(self) as u64
    }

    fn encode(&self, out: &mut Vec<u8>) -> Result<(), Memory> {
        match self {
            PageOp::Put {
                page,
                place,
                key,
                value,
            } => writing::write_put(*page, *place, key, value, out),
            PageOp::Set { page, place, value } => writing::write_set(*page, *place, value, out),
            PageOp::Delete { page, place } => writing::write_delete(*page, *place, out),
            PageOp::Part {
                new,
                page,
                from,
                to,
            } => writing::write_part(*new, *page, *from, *to, out),
            PageOp::Absorb { page, other, count } => {
                writing::write_absorb(*page, *other, *count, out)
            }
            PageOp::Join {
                new,
                page,
                other,
                from,
                to,
            } => writing::write_join(*new, *page, *other, *from, *to, out),
            PageOp::Keep { page, count } => writing::write_keep(*page, *count, out),
            PageOp::Turn {
                page,
                place,
                count,
                child,
            } => writing::write_turn(*page, *place, *count, *child, out),
            PageOp::TurnTwo {
                page,
                place,
                count,
                child,
                key,
                second,
            } => writing::write_turn_two(*page, *place, *count, *child, key, *second, out),
            PageOp::Root {
                page,
                level,
                left,
                key,
                right,
            } => writing::write_root(*page, *level, *left, key, *right, out),
            PageOp::Free { page } => writing::write_free(*page, out),
        }
    }

    fn decode(alloc: Global, b: Bounds, bytes: &[u8]) -> Result<Option<(Self, usize)>, Memory> {
        let Some(op) = reading::read(alloc, bytes)? else {
            return Ok(None);
        };
        if op.shape(b).is_err() {
            return Ok(None);
        }
        let length = writing::code_len(&op);
        Ok(Some((op, length)))
    }

    ghost bounded = { page_bounded };

    ghost lawful = { page_lawful };

    ghost widens = { page_widens };
}

/// The bytes as the one value.
fn one_value(alloc: Global, bytes: Vec<u8>) -> Values
    ensures { result ≡ bytes.items ∷ [] }
{
    let mut values = Values::new(alloc);
    values.push_list(ByteList::new(bytes));
    values
}

/// Two objects, in this order.
fn both(first: u32, second: u32) -> Objs
    ensures { result ≡ first ∷ second ∷ [] }
{
    let mut objects = Objs::one(first);
    objects.push(second);
    objects
}

impl Family for PageOp {
    ghost use Rattle.page_ops.specs.Operation.{is_page_tag};
    ghost use Rattle.page_ops.specs.OperationLaws.{page_tagged};

    ghost has_tag = { is_page_tag };

    fn owns(tag: u8) -> bool {
        21 <= tag && tag <= 31
    }

    ghost tagged = { page_tagged };
}
